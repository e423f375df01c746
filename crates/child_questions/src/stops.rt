// What stands against a question.
ghost use Rattle.std.specs.Prelude.{◌≡◌, IfOk};
ghost use Rattle.child_questions.specs.WantedKinds as kinds;
ghost use Rattle.child_questions.specs.Stops as stops;

use crate::kinds::{are_as_many, has_annotation, is_element, is_mirror};
use crate::named::is_question_there;
use apt_base::NoMemory;
use element_table::Table;
use frame_forms::WantedElement;
use std::alloc::Global;
use type_queries::is_member_of;
use wire_frames::Question;

/// What stands against a question, so that it is not answered.
#[derive(Clone, Copy, Debug, PartialEq, Eq)]
pub enum Stop {
    /// An element that it names is not there.
    NoSuch,
    /// An argument is not what its row wants.
    WrongKind,
}

#[tactic(auto, unfolding(crate::specs::WantedKinds::is_admitted))]
fn is_admitted(alloc: Global, table: &Table, question: &Question) -> Result<bool, NoMemory>
    ensures { IfOk result (λ r. r ≡ kinds.is_admitted table.now question.now) }
{
    match question {
        Question::Name(_, _) => Ok(true),
        Question::Element(question, at) => Ok(is_element(table, question.row().1, at)),
        Question::Mirror(question, mirror) => is_mirror(alloc, table, question.row().1, mirror),
        Question::Mirrors(question, one, other) => {
            let wanted = question.row().1;
            let first = is_mirror(alloc, table, wanted, one)?;
            let second = is_mirror(alloc, table, wanted, other)?;
            Ok(first && second)
        }
        Question::ValuesWithDefaults {
            element,
            annotation,
        } => has_annotation(alloc, table, element, *annotation),
        Question::Overrides {
            overrider,
            overridden,
            in_type,
        } => Ok(
            is_element(table, WantedElement::Method, overrider)
                && is_element(table, WantedElement::Method, overridden)
                && is_element(table, WantedElement::TypeElement, in_type),
        ),
        Question::MemberType { container, element } => {
            is_member_of(alloc, table, container, element)
        }
        Question::DeclaredType { element, arguments } => Ok(
            is_element(table, WantedElement::TypeElement, element)
                && are_as_many(table, element, arguments),
        ),
        Question::Roots => Ok(true),
    }
}

/// What stands against the question, or `None` where it may be answered. `NoSuch` where an element that it names is not
/// there, also within a mirror, and else `WrongKind` where an argument is not what its row of the table of questions
/// wants it to be: an element by its kind (JSR 269, `ElementKind`), a mirror by itself but for the boxes, the number of
/// an annotation by those that are present on the element, a member by its type, and type arguments by their number.
#[tactic(auto, unfolding(crate::specs::Stops::stop_of))]
pub fn stop_of(alloc: Global, table: &Table, question: &Question) -> Result<Option<Stop>, NoMemory>
    ensures { IfOk result (λ stop. stop ≡ stops.stop_of table.now question.now) }
{
    if !is_question_there(table, question) {
        return Ok(Some(Stop::NoSuch));
    }
    if !is_admitted(alloc, table, question)? {
        return Ok(Some(Stop::WrongKind));
    }
    Ok(None)
}
