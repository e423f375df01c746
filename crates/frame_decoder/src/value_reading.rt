// Reads values and annotations.
ghost use Rattle.apt_base.specs.Fields.{bool_next, i64_next, u32_next, text_next};
ghost use Rattle.apt_base.specs.Forms.{mapped, numbered, list_next};
ghost use Rattle.apt_base.specs.Readings.{Gives};
ghost use Rattle.frame_forms.specs.Forms as forms;
ghost use Rattle.frame_forms.specs.MirrorForms.{whole_kinds, value_made};
ghost use Rattle.wire_frames.specs.Readings.{element_next};
ghost use Rattle.frame_decoder.specs.PartReadings.{mirror_next, named_in, annotation_in, array_next, nested_next, whole_next, value_at, value_in, value_next};

use crate::counted_reading::{read_counted_element, read_counted_text};
use crate::mirror_reading::read_mirror;
use crate::quota::{Quota, list_with_room};
use apt_base::{FieldReader, FormFault, List, read_byte, read_count, read_truth};
use std::alloc::Global;
use std::mem::size_of;
use type_mirror::{Annotation, NamedValue, Value, WholeKind};

fn whole_kind(reader: &mut FieldReader<'_>) -> Result<WholeKind, FormFault>
    ensures { Gives result (numbered whole_kinds.at reader.old) reader.new }
{
    match read_byte(reader)? {
        3 => Ok(WholeKind::Int),
        4 => Ok(WholeKind::Long),
        _ => Err(FormFault::Bad),
    }
}

fn eight_bytes(reader: &mut FieldReader<'_>) -> Result<i64, FormFault>
    ensures { Gives result (i64_next reader.old) reader.new }
{
    match reader.i64() {
        Some(number) => Ok(number),
        None => Err(FormFault::Bad),
    }
}

fn whole(reader: &mut FieldReader<'_>) -> Result<Value, FormFault>
    ensures { Gives result (whole_next reader.old) reader.new }
{
    let kind = whole_kind(reader)?;
    let number = eight_bytes(reader)?;
    Ok(Value::Whole(kind, number))
}

fn character(reader: &mut FieldReader<'_>) -> Result<Value, FormFault>
    ensures { Gives result (mapped (value_made forms.character) u32_next reader.old) reader.new }
{
    let number = read_count(reader)?;
    Ok(Value::Character(number))
}

fn truth(reader: &mut FieldReader<'_>) -> Result<Value, FormFault>
    ensures { Gives result (mapped (value_made forms.truth_value) bool_next reader.old) reader.new }
{
    let truth = read_truth(reader)?;
    Ok(Value::Truth(truth))
}

fn text(alloc: Global, reader: &mut FieldReader<'_>, quota: &mut Quota) -> Result<Value, FormFault>
    ensures { Gives result (mapped (value_made forms.text_value) text_next reader.old) reader.new }
{
    let text = read_counted_text(alloc, reader, quota)?;
    Ok(Value::Text(text))
}

fn other(alloc: Global, reader: &mut FieldReader<'_>, quota: &mut Quota) -> Result<Value, FormFault>
    ensures { Gives result (mapped (value_made forms.other) text_next reader.old) reader.new }
{
    let text = read_counted_text(alloc, reader, quota)?;
    Ok(Value::Other(text))
}

fn floating(
    alloc: Global,
    reader: &mut FieldReader<'_>,
    quota: &mut Quota,
) -> Result<Value, FormFault>
    ensures { Gives result (mapped (value_made forms.floating) text_next reader.old) reader.new }
{
    let text = read_counted_text(alloc, reader, quota)?;
    Ok(Value::Floating(text))
}

fn constant(
    alloc: Global,
    reader: &mut FieldReader<'_>,
    quota: &mut Quota,
) -> Result<Value, FormFault>
    ensures { Gives result (mapped (value_made forms.constant) element_next reader.old) reader.new }
{
    let element = read_counted_element(alloc, reader, quota)?;
    Ok(Value::Constant(element))
}

fn class(
    alloc: Global,
    room: u16,
    reader: &mut FieldReader<'_>,
    quota: &mut Quota,
) -> Result<Value, FormFault>
    ensures { Gives result (mapped (value_made forms.class_value) (mirror_next room) reader.old) reader.new }
{
    let of = read_mirror(alloc, room, reader, quota)?;
    Ok(Value::Class(of))
}

#[cycle(read_value)]
fn array_value(
    alloc: Global,
    room: u16,
    reader: &mut FieldReader<'_>,
    quota: &mut Quota,
) -> Result<Value, FormFault>
    ensures { Gives result (array_next (value_next room) reader.old) reader.new }
{
    let items = values(alloc, room, reader, quota)?;
    Ok(Value::Array(items))
}

#[cycle(read_value)]
#[tactic(auto, unfolding(apt_base::specs::Forms::list_next))]
fn values(
    alloc: Global,
    room: u16,
    reader: &mut FieldReader<'_>,
    quota: &mut Quota,
) -> Result<List<Value>, FormFault>
    ensures { Gives result (list_next (value_next room) reader.old) reader.new }
{
    let count = read_count(reader)?;
    let mut items = list_with_room(alloc, count, reader.left(), size_of::<Value>(), quota)?;
    for _ in 0..count {
        let item = read_value(alloc, room, reader, quota)?;
        items.push(item)?;
    }
    Ok(items)
}

#[cycle(read_value)]
fn nested(
    alloc: Global,
    room: u16,
    reader: &mut FieldReader<'_>,
    quota: &mut Quota,
) -> Result<Value, FormFault>
    ensures { Gives result (nested_next (mirror_next room) (value_next room) reader.old) reader.new }
{
    let annotation = read_annotation(alloc, room, reader, quota)?;
    Ok(Value::Nested(annotation))
}

/// An annotation in whose type and values mirrors and values are nested at most `room` deep.
#[cycle(read_value)]
#[tactic(auto, unfolding(crate::specs::PartReadings::annotation_in))]
pub(crate) fn read_annotation(
    alloc: Global,
    room: u16,
    reader: &mut FieldReader<'_>,
    quota: &mut Quota,
) -> Result<Annotation, FormFault>
    ensures { Gives result (annotation_in (mirror_next room) (value_next room) reader.old) reader.new }
{
    let annotation_type = read_mirror(alloc, room, reader, quota)?;
    let values = named_values(alloc, room, reader, quota)?;
    Ok(Annotation {
        annotation_type,
        values,
    })
}

#[cycle(read_value)]
#[tactic(auto, unfolding(apt_base::specs::Forms::list_next))]
fn named_values(
    alloc: Global,
    room: u16,
    reader: &mut FieldReader<'_>,
    quota: &mut Quota,
) -> Result<List<NamedValue>, FormFault>
    ensures { Gives result (list_next (named_in (value_next room)) reader.old) reader.new }
{
    let count = read_count(reader)?;
    let mut items = list_with_room(alloc, count, reader.left(), size_of::<NamedValue>(), quota)?;
    for _ in 0..count {
        let item = named_value(alloc, room, reader, quota)?;
        items.push(item)?;
    }
    Ok(items)
}

#[cycle(read_value)]
#[tactic(auto, unfolding(crate::specs::PartReadings::named_in))]
fn named_value(
    alloc: Global,
    room: u16,
    reader: &mut FieldReader<'_>,
    quota: &mut Quota,
) -> Result<NamedValue, FormFault>
    ensures { Gives result (named_in (value_next room) reader.old) reader.new }
{
    let name = read_counted_text(alloc, reader, quota)?;
    let value = read_value(alloc, room, reader, quota)?;
    Ok(NamedValue { name, value })
}

#[cycle(read_value)]
fn value_of(
    alloc: Global,
    room: u16,
    number: u8,
    reader: &mut FieldReader<'_>,
    quota: &mut Quota,
) -> Result<Value, FormFault>
    ensures { Gives result (value_at number (mirror_next room) (value_next room) reader.old) reader.new }
{
    match number {
        0 => truth(reader),
        1 => whole(reader),
        2 => character(reader),
        3 => text(alloc, reader, quota),
        4 => class(alloc, room, reader, quota),
        5 => constant(alloc, reader, quota),
        6 => array_value(alloc, room, reader, quota),
        7 => nested(alloc, room, reader, quota),
        8 => other(alloc, reader, quota),
        9 => floating(alloc, reader, quota),
        _ => Err(FormFault::Bad),
    }
}

// A value in which mirrors and values are nested at most `room` deep.
#[cycle(read_value)]
#[tactic(auto, unfolding(crate::specs::PartReadings::value_in))]
fn value_in(
    alloc: Global,
    room: u16,
    reader: &mut FieldReader<'_>,
    quota: &mut Quota,
) -> Result<Value, FormFault>
    ensures { Gives result (value_in (mirror_next room) (value_next room) reader.old) reader.new }
{
    let number = read_byte(reader)?;
    value_of(alloc, room, number, reader, quota)
}

/// A value that is nested at most `room` deep.
#[cycle(read_value)]
pub(crate) fn read_value(
    alloc: Global,
    room: u16,
    reader: &mut FieldReader<'_>,
    quota: &mut Quota,
) -> Result<Value, FormFault>
    ensures { Gives result (value_next room reader.old) reader.new }
{
    if room == 0 {
        return Err(FormFault::Bad);
    }
    value_in(alloc, room - 1, reader, quota)
}
