// The forms of which lists and optional parts are made, and modifiers.
ghost use Rattle.std.specs.Prelude.{◌≡◌, ◌++◌, ℕ, List, OnOk};
ghost use Rattle.apt_base.specs.Forms.{Reader, u16_form, list_form, opt_form, opt_next, list_next};
ghost use Rattle.apt_base.specs.Readings.{Gives};
ghost use Rattle.decl_syntax.specs.Reading.{modifiers_next, type_next, value_next, annotation_next};
ghost use Rattle.decl_syntax.specs.Shape.{type_form, value_form, annotation_form};

use crate::{annotation_reading, annotation_writing, type_reading, type_writing};
use apt_base::{
    FieldReader, FieldWriter, FormFault, List, NoMemory, read_count, read_truth, write_count,
};
use decl_tree::{AnnotationText, TypeText, ValueText};
use std::alloc::Global;

/// What stands in a unit, alone, in a list or where it may be left out.
pub(crate) trait InUnit: Drop {
    /// How it is read where that number more may open.
    ghost next: { ℕ → Reader Self };

    /// How it is spelled.
    ghost form: { Self → List ℕ };

    /// Reads it.
    fn read(alloc: Global, reader: &mut FieldReader, room: u32) -> Result<Self, FormFault>
        ensures { Gives result (next room reader.old) reader.new };

    /// Writes it.
    fn write(&self, writer: &mut FieldWriter) -> Result<(), NoMemory>
        ensures { OnOk result (writer.new ≡ writer.old ++ form self.now) };
}

impl InUnit for TypeText {
    ghost next = { type_next };

    ghost form = { type_form };

    fn read(alloc: Global, reader: &mut FieldReader, room: u32) -> Result<TypeText, FormFault> {
        type_reading::type_text(alloc, reader, room)
    }

    fn write(&self, writer: &mut FieldWriter) -> Result<(), NoMemory> {
        type_writing::type_text(writer, self)
    }
}

impl InUnit for ValueText {
    ghost next = { value_next };

    ghost form = { value_form };

    fn read(alloc: Global, reader: &mut FieldReader, room: u32) -> Result<ValueText, FormFault> {
        annotation_reading::value(alloc, reader, room)
    }

    fn write(&self, writer: &mut FieldWriter) -> Result<(), NoMemory> {
        annotation_writing::value(writer, self)
    }
}

impl InUnit for AnnotationText {
    ghost next = { annotation_next };

    ghost form = { annotation_form };

    fn read(
        alloc: Global,
        reader: &mut FieldReader,
        room: u32,
    ) -> Result<AnnotationText, FormFault> {
        annotation_reading::annotation(alloc, reader, room)
    }

    fn write(&self, writer: &mut FieldWriter) -> Result<(), NoMemory> {
        annotation_writing::annotation(writer, self)
    }
}

/// A list.
#[tactic(auto, unfolding(apt_base::specs::Forms::list_next))]
pub(crate) fn list_of<T: InUnit>(
    alloc: Global,
    reader: &mut FieldReader,
    room: u32,
) -> Result<List<T>, FormFault>
    ensures { Gives result (list_next (T.next room) reader.old) reader.new }
{
    let count = read_count(reader)?;
    let mut items = List::new(alloc);
    for _ in 0..count {
        let item = T::read(alloc, reader, room)?;
        items.push(item)?;
    }
    Ok(items)
}

/// A part that may be left out.
#[tactic(auto, unfolding(apt_base::specs::Forms::opt_next))]
pub(crate) fn optional<T: InUnit>(
    alloc: Global,
    reader: &mut FieldReader,
    room: u32,
) -> Result<Option<T>, FormFault>
    ensures { Gives result (opt_next (T.next room) reader.old) reader.new }
{
    if read_truth(reader)? {
        let part = T::read(alloc, reader, room)?;
        Ok(Some(part))
    } else {
        Ok(None)
    }
}

/// The number of the items, and the items.
#[tactic(auto, unfolding(apt_base::specs::Forms::count_form))]
pub(crate) fn write_list<T: InUnit>(writer: &mut FieldWriter, items: &[T]) -> Result<(), NoMemory>
    ensures { OnOk result (writer.new ≡ writer.old ++ list_form T.form items.now) }
{
    write_count(writer, items.len())?;
    for each in items {
        each.write(writer)?;
    }
    Ok(())
}

/// 0, or 1 and the part.
pub(crate) fn write_optional<T: InUnit>(
    writer: &mut FieldWriter,
    part: &Option<T>,
) -> Result<(), NoMemory>
    ensures { OnOk result (writer.new ≡ writer.old ++ opt_form T.form part.now) }
{
    match part {
        None => writer.u8(0),
        Some(part) => {
            writer.u8(1)?;
            part.write(writer)
        }
    }
}

/// Modifiers, of which there are twelve.
pub(crate) fn read_modifiers(reader: &mut FieldReader) -> Result<u16, FormFault>
    ensures { Gives result (modifiers_next reader.old) reader.new }
{
    match reader.u16() {
        Some(modifiers) => {
            if modifiers < 4096 {
                Ok(modifiers)
            } else {
                Err(FormFault::Bad)
            }
        }
        None => Err(FormFault::Bad),
    }
}

/// Modifiers.
#[tactic(auto, unfolding(apt_base::specs::Forms::u16_form))]
pub(crate) fn write_modifiers(writer: &mut FieldWriter, modifiers: u16) -> Result<(), NoMemory>
    ensures { OnOk result (writer.new ≡ writer.old ++ u16_form modifiers) }
{
    writer.u16(modifiers)
}
