// Whole records, both ways.
ghost use Rattle.std.specs.Prelude.{◌≡◌, ◌++◌, Err, OnOk, IfOk};
ghost use Rattle.apt_base.specs.Readings.{Gives, GivesAll};
ghost use Rattle.apt_base.specs.declared.fault.FormFault.TheVariants.{Bad};
ghost use Rattle.record_forms.specs.RecordTable.{record_head, head, record_form, spelling, whole_record};
ghost use Rattle.record_forms.specs.Records.{IsSpelled, IsOnlySpelled, IsNoRecord};

use crate::in_record::InRecord;
use crate::lists::{read_ascending, read_list, write_list};
use crate::record::Record;
use apt_base::{FieldReader, FieldWriter, FormFault, List, NoMemory, read_count};
use std::alloc::Global;
use wire_frames::read_step;

/// `APTR`, with which a record begins.
const MAGIC: u32 = 0x4150_5452;

/// The format of records that have entries.
const FORMAT: u16 = 1;

#[tactic(auto, unfolding(crate::specs::RecordTable::head_next))]
fn read_head(reader: &mut FieldReader<'_>) -> Result<(), FormFault>
    ensures { Gives result (head.next reader.old) reader.new }
{
    let magic = read_count(reader)?;
    let format = read_step(reader)?;
    if magic == MAGIC && format == FORMAT {
        Ok(())
    } else {
        Err(FormFault::Bad)
    }
}

#[tactic(auto, unfolding(crate::specs::RecordTable::record_head))]
fn write_head(writer: &mut FieldWriter) -> Result<(), NoMemory>
    ensures { OnOk result (writer.new ≡ writer.old ++ record_head) }
{
    writer.u32(MAGIC)?;
    writer.u16(FORMAT)
}

impl InRecord for Record {
    ghost form = { record_form };

    #[tactic(auto, unfolding(crate::specs::RecordTable::record_form))]
    fn read(alloc: Global, reader: &mut FieldReader<'_>) -> Result<Record, FormFault> {
        read_head(reader)?;
        let key = InRecord::read(alloc, reader)?;
        let hellos = read_list(alloc, reader)?;
        let initial = read_ascending(alloc, reader)?;
        let rounds = read_list(alloc, reader)?;
        let entries = read_ascending(alloc, reader)?;
        let notes = read_list(alloc, reader)?;
        Ok(Record {
            key,
            hellos,
            initial,
            rounds,
            entries,
            notes,
        })
    }

    #[tactic(auto, unfolding(crate::specs::RecordTable::record_form))]
    fn write(&self, writer: &mut FieldWriter) -> Result<(), NoMemory> {
        write_head(writer)?;
        self.key.write(writer)?;
        write_list(writer, self.hellos.as_slice())?;
        write_list(writer, self.initial.as_slice())?;
        write_list(writer, self.rounds.as_slice())?;
        write_list(writer, self.entries.as_slice())?;
        write_list(writer, self.notes.as_slice())
    }
}

/// The one spelling of a record in bytes. `NoMemory` where there is none, and where a text or a list is so long that its
/// length does not fit four bytes.
pub fn record_bytes(alloc: Global, value: &Record) -> Result<List<u8>, NoMemory>
    ensures { IfOk result (λ bytes. bytes ≡ spelling value.now) }
{
    let mut writer = FieldWriter::new(alloc);
    value.write(&mut writer)?;
    Ok(writer.into_bytes())
}

// The record that is all that the bytes hold.
#[tactic(auto, unfolding(crate::specs::RecordTable::whole_record))]
fn whole_record(alloc: Global, bytes: &[u8]) -> Result<Record, FormFault>
    ensures { GivesAll result (whole_record bytes.now) }
{
    let mut reader = FieldReader::new(bytes);
    match Record::read(alloc, &mut reader) {
        Ok(value) => {
            if reader.left() == 0 {
                Ok(value)
            } else {
                drop(value);
                Err(FormFault::Bad)
            }
        }
        Err(fault) => Err(fault),
    }
}

/// The record of which the bytes are the spelling. It is `Bad` exactly where they are that of none, and `Memory` where
/// memory ran out.
pub fn read_record(alloc: Global, bytes: &[u8]) -> Result<Record, FormFault>
    ensures found { IfOk result (λ value. IsSpelled value bytes.now) }
    ensures only { IfOk result (λ value. IsOnlySpelled bytes.now value) }
    ensures bad { result ≡ Err Bad → IsNoRecord bytes.now }
{
    match whole_record(alloc, bytes) {
        Ok(value) => Ok(value),
        Err(fault) => Err(fault),
    }
}
