// The answers to all questions.
ghost use Rattle.std.specs.Prelude.{◌≡◌, true, map, IfOk};
ghost use Rattle.child_questions.specs.Verdicts.{Gives};
ghost use Rattle.child_questions.specs.WantedKinds.{is_admitted};
ghost use Rattle.child_answers.specs.Replies as replies;
ghost use Rattle.child_answers.specs.Replies.{answer_to, declared_answer, judged_answer, member_answer};
ghost use Rattle.child_answers.specs.Replies.{root_element, roots_answer};

use crate::annotated::annotation_values;
use crate::comparing::{about_mirrors, overriding};
use crate::elements::about_element;
use crate::lists::list_of;
use crate::mirrors::about_mirror;
use crate::names::about_name;
use apt_base::{ElementRef, List, Name, NoMemory};
use child_questions::{QueryFault, Stop, stop_of, type_of_member};
use element_table::Table;
use round_env::RoundEnv;
use std::alloc::Global;
use type_mirror::Mirror;
use type_relations::class_type;
use wire_frames::{Question, Reply};

// ---- rows with a form of their own

/// The type of a member as a member of a type.
#[tactic(auto, unfolding(crate::specs::Replies::member_answer))]
pub(crate) fn member_type(
    alloc: Global,
    table: &Table,
    container: &Mirror,
    at: &ElementRef,
) -> Result<Reply, QueryFault>
    ensures { Gives result (member_answer table.now container.now at.now) }
{
    match type_of_member(alloc, table, container, at)? {
        None => Err(QueryFault::TooDeep),
        Some(mirror) => {
            let list = list_of(alloc, mirror)?;
            Ok(Reply::Mirrors(list))
        }
    }
}

fn copied_mirrors(alloc: Global, mirrors: &[Mirror]) -> Result<List<Mirror>, NoMemory>
    ensures { IfOk result (λ copy. copy ≡ mirrors.now) }
{
    let mut copies = List::new(alloc);
    for each in mirrors {
        let copy = each.copy(alloc)?;
        copies.push(copy)?;
    }
    Ok(copies)
}

/// The type of an element with these arguments.
#[tactic(auto, unfolding(crate::specs::Replies::declared_answer))]
pub(crate) fn declared_type(
    alloc: Global,
    at: &ElementRef,
    arguments: &[Mirror],
) -> Result<Reply, QueryFault>
    ensures { Gives result (declared_answer at.now arguments.now) }
{
    let at = at.copy(alloc)?;
    let arguments = copied_mirrors(alloc, arguments)?;
    let list = list_of(alloc, class_type(alloc, at, arguments))?;
    Ok(Reply::Mirrors(list))
}

fn root_elements(alloc: Global, roots: &[Name]) -> Result<List<ElementRef>, NoMemory>
    ensures { IfOk result (λ list. list ≡ map root_element roots.now) }
{
    let mut list = List::new(alloc);
    for root in roots {
        let unit = root.copy()?;
        let path = List::new(alloc);
        list.push(ElementRef { unit, path })?;
    }
    Ok(list)
}

/// The roots of the round.
#[tactic(auto, unfolding(crate::specs::Replies::roots_answer))]
pub(crate) fn all_roots(alloc: Global, env: &RoundEnv) -> Result<Reply, QueryFault>
    ensures { Gives result (roots_answer env.now.roots) }
{
    let list = root_elements(alloc, env.roots.as_slice())?;
    Ok(Reply::Elements(list))
}

// ---- all rows

/// The answer to a question whose arguments are what is wanted.
#[tactic(auto, unfolding(crate::specs::Replies::answer_to, child_questions::specs::WantedKinds::is_admitted))]
pub(crate) fn admitted(
    alloc: Global,
    table: &Table,
    env: &RoundEnv,
    question: &Question,
) -> Result<Reply, QueryFault>
    requires { is_admitted table.now question.now ≡ true }
    ensures { Gives result (answer_to table.now env.now.roots question.now) }
{
    match question {
        Question::Name(of, name) => about_name(alloc, table, env, *of, name),
        Question::Element(of, at) => about_element(alloc, table, *of, at),
        Question::Mirror(of, mirror) => about_mirror(alloc, table, *of, mirror),
        Question::Mirrors(of, one, other) => about_mirrors(alloc, table, *of, one, other),
        Question::ValuesWithDefaults {
            element,
            annotation,
        } => annotation_values(alloc, table, element, *annotation),
        Question::Overrides {
            overrider,
            overridden,
            in_type,
        } => overriding(alloc, table, overrider, overridden, in_type),
        Question::MemberType { container, element } => {
            member_type(alloc, table, container, element)
        }
        Question::DeclaredType { element, arguments } => {
            declared_type(alloc, element, arguments.as_slice())
        }
        Question::Roots => all_roots(alloc, env),
    }
}

/// What stands against a question, as a fault.
pub(crate) fn fault_of(stop: Stop) -> QueryFault
    ensures { result ≡ replies.fault_of stop }
{
    match stop {
        Stop::NoSuch => QueryFault::NoSuch,
        Stop::WrongKind => QueryFault::WrongKind,
    }
}

/// The answer to a question, or what stands against it.
#[tactic(auto, unfolding(crate::specs::Replies::judged_answer), using(crate::proofs::JudgedAnswers::judging))]
pub(crate) fn judged(
    alloc: Global,
    table: &Table,
    env: &RoundEnv,
    question: &Question,
) -> Result<Reply, QueryFault>
    ensures { Gives result (judged_answer table.now env.now.roots question.now) }
{
    match stop_of(alloc, table, question)? {
        Some(stop) => Err(fault_of(stop)),
        None => admitted(alloc, table, env, question),
    }
}
