// Spells a child's questions: the tag of the row, and the arguments by its form.
ghost use Rattle.std.specs.Prelude.{◌≡◌, [], ◌∷◌, ◌++◌};
ghost use Rattle.wire_frames.specs.Frames.{question_shown};
ghost use Rattle.wire_frames.specs.Outputs.{Adds};
ghost use Rattle.wire_frames.specs.Spellings.{fields_spelled, arguments_spelled, three_elements_spelled};

use crate::form_writing::{put_element, put_mirror, put_mirrors};
use crate::output::Output;
use crate::question::Question;
use apt_base::{ElementRef, List, NoMemory};
use frame_forms::MOST_NESTED;
use type_mirror::Mirror;

#[tactic(auto, using(crate::proofs::Added::adds))]
fn put_three_elements(
    output: &mut Output,
    one: &ElementRef,
    other: &ElementRef,
    third: &ElementRef,
) -> Result<(), NoMemory>
    ensures { Adds result output.old output.new (three_elements_spelled one.now other.now third.now) }
{
    put_element(output, one)?;
    put_element(output, other)?;
    put_element(output, third)
}

/// The arguments of a question.
#[tactic(auto, unfolding(crate::specs::Spellings::arguments_spelled), using(crate::proofs::Added::adds))]
fn put_arguments(output: &mut Output, question: &Question) -> Result<(), NoMemory>
    ensures { Adds result output.old output.new (arguments_spelled question.now) }
{
    match question {
        Question::Name(_, name) => output.text(name),
        Question::Element(_, element) => put_element(output, element),
        Question::Mirror(_, mirror) => put_mirror(output, mirror, MOST_NESTED),
        Question::Mirrors(_, one, other) => {
            put_mirror(output, one, MOST_NESTED)?;
            put_mirror(output, other, MOST_NESTED)
        }
        Question::ValuesWithDefaults {
            element,
            annotation,
        } => {
            put_element(output, element)?;
            output.u16(*annotation)
        }
        Question::Overrides {
            overrider,
            overridden,
            in_type,
        } => { put_three_elements(output, overrider, overridden, in_type) }
        Question::MemberType { container, element } => {
            put_mirror(output, container, MOST_NESTED)?;
            put_element(output, element)
        }
        Question::DeclaredType { element, arguments } => {
            put_element(output, element)?;
            put_mirrors(output, arguments.as_slice(), MOST_NESTED)
        }
        Question::Roots => Ok(()),
    }
}

/// A question, its tag and its arguments.
#[tactic(auto, using(crate::proofs::Added::adds, crate::proofs::Rows::question_spelled))]
pub(crate) fn put_question(output: &mut Output, question: &Question) -> Result<(), NoMemory>
    ensures { Adds result output.old output.new (fields_spelled (question_shown question.now)) }
{
    output.u8(question.row().tag())?;
    put_arguments(output, question)
}
