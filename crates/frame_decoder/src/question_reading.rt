// Reads a child's questions: the row of the tag, and its arguments.
ghost use Rattle.apt_base.specs.Readings.{Gives};
ghost use Rattle.frame_forms.specs.declared.question_row.QuestionRow.TheVariants as rows;
ghost use Rattle.frame_decoder.specs.QuestionReadings.{arguments_next, question_next};

use crate::mirror_reading::{read_mirror, read_mirrors};
use crate::quota::Quota;
use apt_base::{FieldReader, FormFault, read_text};
use frame_forms::{
    ElementQuestion, MOST_NESTED, MirrorQuestion, MirrorsQuestion, NameQuestion, QuestionRow,
};
use std::alloc::Global;
use wire_frames::{Question, read_element, read_step};

// ---- the groups

fn about_name(
    alloc: Global,
    question: NameQuestion,
    reader: &mut FieldReader<'_>,
) -> Result<Question, FormFault>
    ensures { Gives result (arguments_next (rows.Name question) reader.old) reader.new }
{
    let name = read_text(alloc, reader)?;
    Ok(Question::Name(question, name))
}

fn about_element(
    alloc: Global,
    question: ElementQuestion,
    reader: &mut FieldReader<'_>,
) -> Result<Question, FormFault>
    ensures { Gives result (arguments_next (rows.Element question) reader.old) reader.new }
{
    let element = read_element(alloc, reader)?;
    Ok(Question::Element(question, element))
}

fn about_mirror(
    alloc: Global,
    question: MirrorQuestion,
    reader: &mut FieldReader<'_>,
    quota: &mut Quota,
) -> Result<Question, FormFault>
    ensures { Gives result (arguments_next (rows.Mirror question) reader.old) reader.new }
{
    let mirror = read_mirror(alloc, MOST_NESTED, reader, quota)?;
    Ok(Question::Mirror(question, mirror))
}

fn about_mirrors(
    alloc: Global,
    question: MirrorsQuestion,
    reader: &mut FieldReader<'_>,
    quota: &mut Quota,
) -> Result<Question, FormFault>
    ensures { Gives result (arguments_next (rows.Mirrors question) reader.old) reader.new }
{
    let one = read_mirror(alloc, MOST_NESTED, reader, quota)?;
    match read_mirror(alloc, MOST_NESTED, reader, quota) {
        Ok(other) => Ok(Question::Mirrors(question, one, other)),
        Err(fault) => {
            drop(one);
            Err(fault)
        }
    }
}

// ---- the rows with a form of their own

fn values_with_defaults(alloc: Global, reader: &mut FieldReader<'_>) -> Result<Question, FormFault>
    ensures { Gives result (arguments_next rows.ValuesWithDefaults reader.old) reader.new }
{
    let element = read_element(alloc, reader)?;
    let annotation = read_step(reader)?;
    Ok(Question::ValuesWithDefaults {
        element,
        annotation,
    })
}

fn overrides(alloc: Global, reader: &mut FieldReader<'_>) -> Result<Question, FormFault>
    ensures { Gives result (arguments_next rows.Overrides reader.old) reader.new }
{
    let overrider = read_element(alloc, reader)?;
    let overridden = read_element(alloc, reader)?;
    let in_type = read_element(alloc, reader)?;
    Ok(Question::Overrides {
        overrider,
        overridden,
        in_type,
    })
}

fn member_type(
    alloc: Global,
    reader: &mut FieldReader<'_>,
    quota: &mut Quota,
) -> Result<Question, FormFault>
    ensures { Gives result (arguments_next rows.MemberType reader.old) reader.new }
{
    let container = read_mirror(alloc, MOST_NESTED, reader, quota)?;
    match read_element(alloc, reader) {
        Ok(element) => Ok(Question::MemberType { container, element }),
        Err(fault) => {
            drop(container);
            Err(fault)
        }
    }
}

fn declared_type(
    alloc: Global,
    reader: &mut FieldReader<'_>,
    quota: &mut Quota,
) -> Result<Question, FormFault>
    ensures { Gives result (arguments_next rows.DeclaredType reader.old) reader.new }
{
    let element = read_element(alloc, reader)?;
    let arguments = read_mirrors(alloc, MOST_NESTED, reader, quota)?;
    Ok(Question::DeclaredType { element, arguments })
}

// ---- all rows

fn arguments(
    alloc: Global,
    row: QuestionRow,
    reader: &mut FieldReader<'_>,
    quota: &mut Quota,
) -> Result<Question, FormFault>
    ensures { Gives result (arguments_next row reader.old) reader.new }
{
    match row {
        QuestionRow::Name(question) => about_name(alloc, question, reader),
        QuestionRow::Element(question) => about_element(alloc, question, reader),
        QuestionRow::Mirror(question) => about_mirror(alloc, question, reader, quota),
        QuestionRow::Mirrors(question) => about_mirrors(alloc, question, reader, quota),
        QuestionRow::ValuesWithDefaults => values_with_defaults(alloc, reader),
        QuestionRow::Overrides => overrides(alloc, reader),
        QuestionRow::MemberType => member_type(alloc, reader, quota),
        QuestionRow::DeclaredType => declared_type(alloc, reader, quota),
        QuestionRow::Roots => Ok(Question::Roots),
    }
}

/// The question with this tag whose arguments stand next. It is Bad where they are not the arguments of the tag's row, and for a tag that no question has, and Memory when memory runs out.
#[tactic(auto, unfolding(crate::specs::QuestionReadings::question_next))]
pub(crate) fn read_question(
    alloc: Global,
    tag: u8,
    reader: &mut FieldReader<'_>,
    quota: &mut Quota,
) -> Result<Question, FormFault>
    ensures { Gives result (question_next tag reader.old) reader.new }
{
    match QuestionRow::at(tag) {
        None => Err(FormFault::Bad),
        Some(row) => arguments(alloc, row, reader, quota),
    }
}
