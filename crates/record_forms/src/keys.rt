// The key of a build: its copy, and both ways.
ghost use Rattle.std.specs.Prelude.{◌≡◌, ◌∷◌, [], ◌++◌, OnOk, IfOk};
ghost use Rattle.apt_base.specs.Readings.{Gives};
ghost use Rattle.record_forms.specs.RecordTable.{kind, kind_number, processor, key};

use crate::in_record::InRecord;
use crate::lists::{read_ascending, read_list, write_list};
use crate::record::{Key, KeyProcessor};
use apt_base::{
    FieldReader, FieldWriter, FormFault, Kind, List, Name, NoMemory, copy_names, read_byte,
    read_text, write_text,
};
use std::alloc::Global;
use wire_frames::{copy_options, read_step};

impl KeyProcessor {
    /// An equal processor.
    pub fn copy(&self, alloc: Global) -> Result<KeyProcessor, NoMemory>
        ensures { IfOk result (λ processor. processor ≡ self.now) }
    {
        Ok(KeyProcessor {
            name: self.name.copy()?,
            command: copy_names(alloc, self.command.as_slice())?,
            version: self.version.copy()?,
            kind: self.kind,
        })
    }
}

fn copy_processors(
    alloc: Global,
    processors: &[KeyProcessor],
) -> Result<List<KeyProcessor>, NoMemory>
    ensures { IfOk result (λ list. list ≡ processors.now) }
{
    let mut copies = List::new(alloc);
    for each in processors {
        copies.push(each.copy(alloc)?)?;
    }
    Ok(copies)
}

// An equal Java file, by its path and its bytes.
fn copy_java_file(alloc: Global, file: &(Name, List<u8>)) -> Result<(Name, List<u8>), NoMemory>
    ensures { IfOk result (λ copy. copy ≡ file.now) }
{
    let bytes = List::from_vec(file.1.as_slice().to_vec(alloc)?);
    Ok((file.0.copy()?, bytes))
}

fn copy_java_files(
    alloc: Global,
    files: &[(Name, List<u8>)],
) -> Result<List<(Name, List<u8>)>, NoMemory>
    ensures { IfOk result (λ list. list ≡ files.now) }
{
    let mut copies = List::new(alloc);
    for each in files {
        copies.push(copy_java_file(alloc, each)?)?;
    }
    Ok(copies)
}

impl Key {
    /// An equal key.
    pub fn copy(&self, alloc: Global) -> Result<Key, NoMemory>
        ensures { IfOk result (λ key. key ≡ self.now) }
    {
        Ok(Key {
            level: self.level,
            options: copy_options(alloc, self.options.as_slice())?,
            processors: copy_processors(alloc, self.processors.as_slice())?,
            stubs: copy_java_files(alloc, self.stubs.as_slice())?,
        })
    }
}

fn read_kind(reader: &mut FieldReader<'_>) -> Result<Kind, FormFault>
    ensures { Gives result (kind.next reader.old) reader.new }
{
    match read_byte(reader)? {
        0 => Ok(Kind::Isolating),
        1 => Ok(Kind::Aggregating),
        2 => Ok(Kind::Dynamic),
        3 => Ok(Kind::Undeclared),
        _ => Err(FormFault::Bad),
    }
}

fn write_kind(writer: &mut FieldWriter, kind: Kind) -> Result<(), NoMemory>
    ensures { OnOk result (writer.new ≡ writer.old ++ kind_number kind ∷ []) }
{
    writer.u8(kind as u8)
}

impl InRecord for KeyProcessor {
    ghost form = { processor };

    #[tactic(auto, unfolding(crate::specs::RecordTable::processor))]
    fn read(alloc: Global, reader: &mut FieldReader<'_>) -> Result<KeyProcessor, FormFault> {
        let name = read_text(alloc, reader)?;
        let command = read_list(alloc, reader)?;
        let version = read_text(alloc, reader)?;
        let kind = read_kind(reader)?;
        Ok(KeyProcessor {
            name,
            command,
            version,
            kind,
        })
    }

    #[tactic(auto, unfolding(crate::specs::RecordTable::processor))]
    fn write(&self, writer: &mut FieldWriter) -> Result<(), NoMemory> {
        write_text(writer, &self.name)?;
        write_list(writer, self.command.as_slice())?;
        write_text(writer, &self.version)?;
        write_kind(writer, self.kind)
    }
}

impl InRecord for Key {
    ghost form = { key };

    #[tactic(auto, unfolding(crate::specs::RecordTable::key))]
    fn read(alloc: Global, reader: &mut FieldReader<'_>) -> Result<Key, FormFault> {
        let level = read_step(reader)?;
        let options = read_ascending(alloc, reader)?;
        let processors = read_list(alloc, reader)?;
        let stubs = read_ascending(alloc, reader)?;
        Ok(Key {
            level,
            options,
            processors,
            stubs,
        })
    }

    #[tactic(auto, unfolding(crate::specs::RecordTable::key, apt_base::specs::Forms::u16_form))]
    fn write(&self, writer: &mut FieldWriter) -> Result<(), NoMemory> {
        writer.u16(self.level)?;
        write_list(writer, self.options.as_slice())?;
        write_list(writer, self.processors.as_slice())?;
        write_list(writer, self.stubs.as_slice())
    }
}
