// Values and annotations, read from their spelling.
ghost use Rattle.apt_base.specs.Forms.{checked, list_next};
ghost use Rattle.apt_base.specs.Readings.{Gives};
ghost use Rattle.decl_syntax.specs.Reading.{type_next, pair_in, plain_next, are_two, value_in, value_next, annotation_next};

use crate::type_reading::type_text;
use apt_base::{FieldReader, FormFault, List, read_byte, read_count, read_text};
use decl_tree::{AnnotationText, ElementValuePair, ValueText};
use std::alloc::Global;

// A literal or a chain of names.
#[tactic(auto, unfolding(crate::specs::Reading::plain_next))]
fn plain(alloc: Global, reader: &mut FieldReader) -> Result<ValueText, FormFault>
    ensures { Gives result (plain_next reader.old) reader.new }
{
    match read_byte(reader)? {
        0 => {
            let part = read_text(alloc, reader)?;
            Ok(ValueText::Literal(part))
        }
        4 => {
            let part = read_text(alloc, reader)?;
            Ok(ValueText::Chain(part))
        }
        _ => Err(FormFault::Bad),
    }
}

#[tactic(auto, unfolding(apt_base::specs::Forms::list_next))]
fn plains(alloc: Global, reader: &mut FieldReader) -> Result<List<ValueText>, FormFault>
    ensures { Gives result (list_next plain_next reader.old) reader.new }
{
    let count = read_count(reader)?;
    let mut items = List::new(alloc);
    for _ in 0..count {
        let item = plain(alloc, reader)?;
        items.push(item)?;
    }
    Ok(items)
}

// The items that `+` joins, two or more.
fn sum(alloc: Global, reader: &mut FieldReader) -> Result<List<ValueText>, FormFault>
    ensures { Gives result (checked are_two (list_next plain_next) reader.old) reader.new }
{
    let items = plains(alloc, reader)?;
    if items.len() < 2 {
        return Err(FormFault::Bad);
    }
    Ok(items)
}

/// A value, which opens itself, where that number more may open.
#[cycle(annotation_reading)]
pub(crate) fn value(
    alloc: Global,
    reader: &mut FieldReader,
    room: u32,
) -> Result<ValueText, FormFault>
    ensures { Gives result (value_next room reader.old) reader.new }
{
    if room == 0 {
        return Err(FormFault::Bad);
    }
    opened(alloc, reader, room - 1)
}

// A value that is open already.
#[cycle(annotation_reading)]
#[tactic(auto, unfolding(crate::specs::Reading::value_in, crate::specs::Reading::annotation_next))]
fn opened(alloc: Global, reader: &mut FieldReader, room: u32) -> Result<ValueText, FormFault>
    ensures { Gives result (value_in (type_next room) (value_next room) reader.old) reader.new }
{
    match read_byte(reader)? {
        0 => {
            let part = read_text(alloc, reader)?;
            Ok(ValueText::Literal(part))
        }
        1 => {
            let part = read_text(alloc, reader)?;
            Ok(ValueText::Negated(part))
        }
        2 => {
            let part = sum(alloc, reader)?;
            Ok(ValueText::Joined(part))
        }
        3 => {
            let part = type_text(alloc, reader, room)?;
            Ok(ValueText::Class(part))
        }
        4 => {
            let part = read_text(alloc, reader)?;
            Ok(ValueText::Chain(part))
        }
        5 => {
            let part = values(alloc, reader, room)?;
            Ok(ValueText::Array(part))
        }
        6 => {
            let part = annotation(alloc, reader, room)?;
            Ok(ValueText::Nested(part))
        }
        7 => {
            let part = read_text(alloc, reader)?;
            Ok(ValueText::Other(part))
        }
        _ => Err(FormFault::Bad),
    }
}

/// An annotation in whose values that number more may open.
#[cycle(annotation_reading)]
#[tactic(auto, unfolding(crate::specs::Reading::annotation_next, crate::specs::Reading::annotation_in))]
pub(crate) fn annotation(
    alloc: Global,
    reader: &mut FieldReader,
    room: u32,
) -> Result<AnnotationText, FormFault>
    ensures { Gives result (annotation_next room reader.old) reader.new }
{
    let name = read_text(alloc, reader)?;
    let values = pairs(alloc, reader, room)?;
    Ok(AnnotationText { name, values })
}

#[cycle(annotation_reading)]
#[tactic(auto, unfolding(crate::specs::Reading::pair_in))]
fn pair(alloc: Global, reader: &mut FieldReader, room: u32) -> Result<ElementValuePair, FormFault>
    ensures { Gives result (pair_in (value_next room) reader.old) reader.new }
{
    let name = read_text(alloc, reader)?;
    let value = value(alloc, reader, room)?;
    Ok(ElementValuePair { name, value })
}

#[cycle(annotation_reading)]
#[tactic(auto, unfolding(apt_base::specs::Forms::list_next))]
fn pairs(
    alloc: Global,
    reader: &mut FieldReader,
    room: u32,
) -> Result<List<ElementValuePair>, FormFault>
    ensures { Gives result (list_next (pair_in (value_next room)) reader.old) reader.new }
{
    let count = read_count(reader)?;
    let mut items = List::new(alloc);
    for _ in 0..count {
        let item = pair(alloc, reader, room)?;
        items.push(item)?;
    }
    Ok(items)
}

#[cycle(annotation_reading)]
#[tactic(auto, unfolding(apt_base::specs::Forms::list_next))]
fn values(alloc: Global, reader: &mut FieldReader, room: u32) -> Result<List<ValueText>, FormFault>
    ensures { Gives result (list_next (value_next room) reader.old) reader.new }
{
    let count = read_count(reader)?;
    let mut items = List::new(alloc);
    for _ in 0..count {
        let item = value(alloc, reader, room)?;
        items.push(item)?;
    }
    Ok(items)
}
