// The answers about a name.
ghost use Rattle.std.specs.Prelude.{◌≡◌};
ghost use Rattle.element_table.specs.TypeTable.{IsTable};
ghost use Rattle.element_facts.specs.NamedTypes as named;
ghost use Rattle.round_env.specs.Presence.{annotated};
ghost use Rattle.child_questions.specs.Verdicts.{Gives};
ghost use Rattle.child_answers.specs.Replies.{name_answer, with_element, with_elements};

use crate::lists::list_of_found;
use apt_base::Name;
use child_questions::QueryFault;
use element_facts::{package_element, type_element};
use element_table::Table;
use frame_forms::NameQuestion;
use name_resolve::Looks;
use round_env::{RoundEnv, annotated_with};
use std::alloc::Global;
use wire_frames::Reply;

// The look-ups of a table, of which none was made yet.
fn looks_of<'a>(alloc: Global, table: &'a Table, name: &Name) -> Looks<'a>
    ensures value { result ≡ table.now }
    ensures table { IsTable table.now }
{
    let _unit = table.find(name);
    Looks::new(alloc, table)
}

fn type_of_name(alloc: Global, table: &Table, name: &Name) -> Result<Reply, QueryFault>
    ensures { Gives result (with_element (named.type_element table.now name.now)) }
{
    let mut looks = looks_of(alloc, table, name);
    let at = type_element(alloc, &mut looks, name.as_str())?;
    let list = list_of_found(alloc, at)?;
    Ok(Reply::Elements(list))
}

fn package_of_name(alloc: Global, table: &Table, name: &Name) -> Result<Reply, QueryFault>
    ensures { Gives result (with_element (named.package_element table.now name.now)) }
{
    let at = package_element(alloc, table, name.as_str())?;
    let list = list_of_found(alloc, at)?;
    Ok(Reply::Elements(list))
}

fn annotated_elements(
    alloc: Global,
    table: &Table,
    env: &RoundEnv,
    name: &Name,
) -> Result<Reply, QueryFault>
    ensures { Gives result (with_elements (annotated table.now env.now.roots name.now)) }
{
    let list = annotated_with(alloc, table, &env.roots, name)?;
    Ok(Reply::Elements(list))
}

/// The answer to a question about a name.
#[tactic(auto, unfolding(crate::specs::Replies::name_answer))]
pub(crate) fn about_name(
    alloc: Global,
    table: &Table,
    env: &RoundEnv,
    question: NameQuestion,
    name: &Name,
) -> Result<Reply, QueryFault>
    ensures { Gives result (name_answer table.now env.now.roots question name.now) }
{
    match question {
        NameQuestion::TypeElement => type_of_name(alloc, table, name),
        NameQuestion::PackageElement => package_of_name(alloc, table, name),
        NameQuestion::AnnotatedWith => annotated_elements(alloc, table, env, name),
    }
}
