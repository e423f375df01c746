// Values and annotations, written by their spelling.
ghost use Rattle.std.specs.Prelude.{◌≡◌, ◌++◌, OnOk};
ghost use Rattle.apt_base.specs.Forms.{list_form};
ghost use Rattle.decl_syntax.specs.Shape.{value_form, annotation_form, pair_form};

use crate::type_writing::type_text;
use apt_base::{FieldWriter, NoMemory, write_count, write_text};
use decl_tree::{AnnotationText, ElementValuePair, ValueText};

/// An annotation: its name and its elements.
#[cycle(annotation_writing)]
pub(crate) fn annotation(writer: &mut FieldWriter, of: &AnnotationText) -> Result<(), NoMemory>
    ensures { OnOk result (writer.new ≡ writer.old ++ annotation_form of.now) }
{
    write_text(writer, &of.name)?;
    pairs(writer, of.values.as_slice())
}

#[cycle(annotation_writing)]
fn pair(writer: &mut FieldWriter, of: &ElementValuePair) -> Result<(), NoMemory>
    ensures { OnOk result (writer.new ≡ writer.old ++ pair_form of.now) }
{
    write_text(writer, &of.name)?;
    value(writer, &of.value)
}

/// A value by its number and its parts.
#[cycle(annotation_writing)]
pub(crate) fn value(writer: &mut FieldWriter, of: &ValueText) -> Result<(), NoMemory>
    ensures { OnOk result (writer.new ≡ writer.old ++ value_form of.now) }
{
    match of {
        ValueText::Literal(content) => {
            writer.u8(0)?;
            write_text(writer, content)
        }
        ValueText::Negated(content) => {
            writer.u8(1)?;
            write_text(writer, content)
        }
        ValueText::Joined(items) => {
            writer.u8(2)?;
            values(writer, items.as_slice())
        }
        ValueText::Class(of) => {
            writer.u8(3)?;
            type_text(writer, of)
        }
        ValueText::Chain(content) => {
            writer.u8(4)?;
            write_text(writer, content)
        }
        ValueText::Array(items) => {
            writer.u8(5)?;
            values(writer, items.as_slice())
        }
        ValueText::Nested(inner) => {
            writer.u8(6)?;
            annotation(writer, inner)
        }
        ValueText::Other(content) => {
            writer.u8(7)?;
            write_text(writer, content)
        }
    }
}

#[cycle(annotation_writing)]
#[tactic(auto, unfolding(apt_base::specs::Forms::count_form))]
fn pairs(writer: &mut FieldWriter, items: &[ElementValuePair]) -> Result<(), NoMemory>
    ensures { OnOk result (writer.new ≡ writer.old ++ list_form pair_form items.now) }
{
    write_count(writer, items.len())?;
    for each in items {
        pair(writer, each)?;
    }
    Ok(())
}

#[cycle(annotation_writing)]
#[tactic(auto, unfolding(apt_base::specs::Forms::count_form))]
fn values(writer: &mut FieldWriter, items: &[ValueText]) -> Result<(), NoMemory>
    ensures { OnOk result (writer.new ≡ writer.old ++ list_form value_form items.now) }
{
    write_count(writer, items.len())?;
    for each in items {
        value(writer, each)?;
    }
    Ok(())
}
