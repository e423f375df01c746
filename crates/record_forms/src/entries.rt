// What processors did, and notes, both ways.
ghost use Rattle.std.specs.Prelude.{◌≡◌, ◌∷◌, [], ◌++◌, OnOk};
ghost use Rattle.std.specs.Option.{option_copied};
ghost use Rattle.apt_base.specs.Forms.{u16_form};
ghost use Rattle.apt_base.specs.Readings.{Gives};
ghost use Rattle.record_forms.specs.Forms.{u32, u32_form};
ghost use Rattle.record_forms.specs.RecordTable.{element, file, file_less, message, entry, origin_less, entry_less, note_kind, note_number, note};

use crate::in_record::{InOrder, InRecord};
use crate::lists::{read_ascending, read_list, read_optional, write_list, write_optional};
use crate::record::{Entry, Note, NoteKind, StoredFile, StoredMessage};
use apt_base::{
    ElementRef, FieldReader, FieldWriter, FormFault, Name, NoMemory, read_byte, read_count,
    read_text, write_text,
};
use std::alloc::Global;
use wire_frames::{read_below, read_element, read_step};

/// The kinds of messages: an error, a warning, a mandatory warning, a note, and any other.
const MESSAGE_KINDS: u8 = 5;

#[tactic(auto, unfolding(crate::specs::Forms::u32_form))]
fn write_u32(writer: &mut FieldWriter, number: u32) -> Result<(), NoMemory>
    ensures { OnOk result (writer.new ≡ writer.old ++ u32_form number) }
{
    writer.u32(number)
}

#[tactic(auto, unfolding(apt_base::specs::Forms::u16_form))]
fn write_u16(writer: &mut FieldWriter, number: u16) -> Result<(), NoMemory>
    ensures { OnOk result (writer.new ≡ writer.old ++ u16_form number) }
{
    writer.u16(number)
}

impl InRecord for ElementRef {
    ghost form = { element };

    #[tactic(auto, unfolding(crate::specs::RecordTable::element, wire_frames::specs::Readings::element_next))]
    fn read(alloc: Global, reader: &mut FieldReader<'_>) -> Result<ElementRef, FormFault> {
        read_element(alloc, reader)
    }

    #[tactic(auto, unfolding(crate::specs::RecordTable::element))]
    fn write(&self, writer: &mut FieldWriter) -> Result<(), NoMemory> {
        write_text(writer, &self.unit)?;
        write_list(writer, self.path.as_slice())
    }
}

impl InRecord for StoredFile {
    ghost form = { file };

    #[tactic(auto, unfolding(crate::specs::RecordTable::file))]
    fn read(alloc: Global, reader: &mut FieldReader<'_>) -> Result<StoredFile, FormFault> {
        let path = read_text(alloc, reader)?;
        let type_name = read_text(alloc, reader)?;
        let store = read_count(reader)?;
        let length = read_count(reader)?;
        let origins = read_list(alloc, reader)?;
        Ok(StoredFile {
            path,
            type_name,
            store,
            length,
            origins,
        })
    }

    #[tactic(auto, unfolding(crate::specs::RecordTable::file))]
    fn write(&self, writer: &mut FieldWriter) -> Result<(), NoMemory> {
        write_text(writer, &self.path)?;
        write_text(writer, &self.type_name)?;
        write_u32(writer, self.store)?;
        write_u32(writer, self.length)?;
        write_list(writer, self.origins.as_slice())
    }
}

impl InOrder for StoredFile {
    ghost less = { file_less };

    fn is_less(&self, other: &StoredFile) -> bool {
        self.path.as_str() < other.path.as_str()
    }
}

impl InRecord for StoredMessage {
    ghost form = { message };

    #[tactic(auto, unfolding(crate::specs::RecordTable::message, wire_frames::specs::Readings::below_next))]
    fn read(alloc: Global, reader: &mut FieldReader<'_>) -> Result<StoredMessage, FormFault> {
        let number = read_count(reader)?;
        let kind = read_below(MESSAGE_KINDS, reader)?;
        let element = read_optional(alloc, reader)?;
        let text = read_text(alloc, reader)?;
        Ok(StoredMessage {
            number,
            kind,
            element,
            text,
        })
    }

    #[tactic(auto, unfolding(crate::specs::RecordTable::message))]
    fn write(&self, writer: &mut FieldWriter) -> Result<(), NoMemory> {
        write_u32(writer, self.number)?;
        writer.u8(self.kind)?;
        write_optional(writer, &self.element)?;
        write_text(writer, &self.text)
    }
}

impl InRecord for Entry {
    ghost form = { entry };

    #[tactic(auto, unfolding(crate::specs::RecordTable::entry))]
    fn read(alloc: Global, reader: &mut FieldReader<'_>) -> Result<Entry, FormFault> {
        let round = read_count(reader)?;
        let processor = read_step(reader)?;
        let origin = read_optional(alloc, reader)?;
        let offered = read_ascending(alloc, reader)?;
        let annotated = read_ascending(alloc, reader)?;
        let files = read_ascending(alloc, reader)?;
        let messages = read_list(alloc, reader)?;
        Ok(Entry {
            round,
            processor,
            origin,
            offered,
            annotated,
            files,
            messages,
        })
    }

    #[tactic(auto, unfolding(crate::specs::RecordTable::entry))]
    fn write(&self, writer: &mut FieldWriter) -> Result<(), NoMemory> {
        write_u32(writer, self.round)?;
        write_u16(writer, self.processor)?;
        write_optional(writer, &self.origin)?;
        write_list(writer, self.offered.as_slice())?;
        write_list(writer, self.annotated.as_slice())?;
        write_list(writer, self.files.as_slice())?;
        write_list(writer, self.messages.as_slice())
    }
}

fn is_less_origin(one: &Option<Name>, other: &Option<Name>) -> bool
    ensures { result ≡ origin_less one.now other.now }
{
    match (one, other) {
        (_, None) => false,
        (None, Some(_)) => true,
        (Some(one), Some(other)) => one.as_str() < other.as_str(),
    }
}

impl InOrder for Entry {
    ghost less = { entry_less };

    #[tactic(auto, unfolding(crate::specs::RecordTable::entry_less))]
    fn is_less(&self, other: &Entry) -> bool {
        self.round < other.round
            || (self.round == other.round
                && (self.processor < other.processor
                    || (self.processor == other.processor
                        && is_less_origin(&self.origin, &other.origin))))
    }
}

fn read_note_kind(reader: &mut FieldReader<'_>) -> Result<NoteKind, FormFault>
    ensures { Gives result (note_kind.next reader.old) reader.new }
{
    match read_byte(reader)? {
        0 => Ok(NoteKind::Beyond),
        1 => Ok(NoteKind::Unattributed),
        2 => Ok(NoteKind::Refused),
        _ => Err(FormFault::Bad),
    }
}

fn write_note_kind(writer: &mut FieldWriter, kind: NoteKind) -> Result<(), NoMemory>
    ensures { OnOk result (writer.new ≡ writer.old ++ note_number kind ∷ []) }
{
    writer.u8(kind as u8)
}

impl InRecord for Note {
    ghost form = { note };

    #[tactic(auto, unfolding(crate::specs::RecordTable::note))]
    fn read(_alloc: Global, reader: &mut FieldReader<'_>) -> Result<Note, FormFault> {
        let processor = read_step(reader)?;
        let kind = read_note_kind(reader)?;
        Ok(Note { processor, kind })
    }

    #[tactic(auto, unfolding(crate::specs::RecordTable::note))]
    fn write(&self, writer: &mut FieldWriter) -> Result<(), NoMemory> {
        write_u16(writer, self.processor)?;
        write_note_kind(writer, self.kind)
    }
}
