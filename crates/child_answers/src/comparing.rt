// The answers about two mirrors, and whether a method overrides another one.
ghost use Rattle.std.specs.Prelude.{◌≡◌};
ghost use Rattle.type_layers.specs.Same.{same};
ghost use Rattle.child_questions.specs.Verdicts.{Gives, truth};
ghost use Rattle.child_answers.specs.Replies.{in_truth, mirrors_answer, overrides_answer, with_truth};

use apt_base::ElementRef;
use child_questions::QueryFault;
use element_table::Table;
use frame_forms::MirrorsQuestion;
use std::alloc::Global;
use type_layers::is_same;
use type_levels::Answer;
use type_mirror::Mirror;
use type_numbers::Types;
use type_overriding::overrides;
use type_subtypes::{assignable, contained, subsignature, subtype};
use wire_frames::Reply;

/// An open answer is too deep.
pub(crate) fn truth(answer: Answer) -> Result<Reply, QueryFault>
    ensures { Gives result (with_truth (truth answer)) }
{
    match answer {
        Answer::Yes => Ok(Reply::Truth(true)),
        Answer::Open => Err(QueryFault::TooDeep),
        Answer::No => Ok(Reply::Truth(false)),
    }
}

/// The answer to a question about two mirrors.
#[tactic(auto, unfolding(crate::specs::Replies::mirrors_answer))]
pub(crate) fn about_mirrors(
    alloc: Global,
    table: &Table,
    question: MirrorsQuestion,
    one: &Mirror,
    other: &Mirror,
) -> Result<Reply, QueryFault>
    ensures { Gives result (mirrors_answer table.now question one.now other.now) }
{
    match question {
        MirrorsQuestion::SameType => Ok(Reply::Truth(is_same(one, other))),
        MirrorsQuestion::Subtype => {
            let answer = subtype(alloc, table, one, other)?;
            truth(answer)
        }
        MirrorsQuestion::Assignable => {
            let answer = assignable(alloc, table, one, other)?;
            truth(answer)
        }
        MirrorsQuestion::Contains => {
            let answer = contained(alloc, table, one, other)?;
            truth(answer)
        }
        MirrorsQuestion::Subsignature => {
            let answer = subsignature(alloc, table, one, other)?;
            truth(answer)
        }
    }
}

/// Whether a method overrides another one in a type.
#[tactic(auto, unfolding(crate::specs::Replies::overrides_answer))]
pub(crate) fn overriding(
    alloc: Global,
    table: &Table,
    overrider: &ElementRef,
    overridden: &ElementRef,
    in_type: &ElementRef,
) -> Result<Reply, QueryFault>
    ensures { Gives result (overrides_answer table.now overrider.now overridden.now in_type.now) }
{
    let mut types = Types::new(alloc);
    let answer = overrides(alloc, table, &mut types, overrider, overridden, in_type)?;
    truth(answer)
}
