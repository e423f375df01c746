// The record of a published output.
ghost use Rattle.std.specs.Prelude.{◌≡◌, ◌++◌, ◌<◌, ◌^◌, length, IsTrue, IfOk, OnOk, Some};
ghost use Rattle.std.specs.Int.{w32, to_be_bytes};
ghost use Rattle.tree_store.specs.RecordFormat.{Fits, IsEntry, ascends, record_head, entry_form, record_form, read_record, IsOnlySpelling};

use apt_base::{FieldWriter, List, Name, NoMemory};
use std::alloc::Global;

/// `APTR`, with which a record begins.
const MAGIC: u32 = 0x4150_5452;

/// The format that is written.
const FORMAT: u16 = 0;

/// A file of the published output.
#[derive(Drop)]
pub struct StoredFile {
    /// Its path in the output, as `CLASS_OUTPUT/x`.
    pub path: Name,
    /// The number of its store file.
    pub store: u32,
    /// The length of its store file in bytes.
    pub length: u32,
}

impl StoredFile {
    /// An equal entry. It fails only when memory runs out.
    pub fn copy(&self) -> Result<StoredFile, NoMemory>
        ensures { IfOk result (λ file. file ≡ self.now) }
    {
        Ok(StoredFile {
            path: self.path.copy()?,
            store: self.store,
            length: self.length,
        })
    }
}

#[tactic(auto, unfolding(crate::specs::RecordFormat::record_head))]
fn put_head(writer: &mut FieldWriter, count: u32) -> Result<(), NoMemory>
    ensures { OnOk result (writer.new ≡ writer.old ++ (record_head ++ to_be_bytes w32 count)) }
{
    writer.u32(MAGIC)?;
    writer.u16(FORMAT)?;
    writer.u32(count)
}

fn put_entry(writer: &mut FieldWriter, file: &StoredFile) -> Result<(), NoMemory>
    requires { length file.now.path < 2 ^ 32 }
    ensures form { OnOk result (writer.new ≡ writer.old ++ entry_form file.now) }
    ensures entry { OnOk result (IsEntry file.now) }
{
    writer.text(file.path.as_str())?;
    writer.u32(file.store)?;
    writer.u32(file.length)?;
    Ok(())
}

/// The bytes of the record that names these files.
///
/// Where the paths ascend strictly, the record is read back as these files, and no other bytes are. It fails only when it
/// is out of memory.
pub fn encode_record(alloc: Global, files: &List<StoredFile>) -> Result<List<u8>, NoMemory>
    requires { Fits files.now }
    ensures form { IfOk result (λ bytes. bytes ≡ record_form files.now) }
    ensures again { IfOk result (λ bytes. IsTrue (ascends files.now) → read_record bytes ≡ Some files.now) }
    ensures only { IfOk result (IsOnlySpelling files.now) }
{
    let mut writer = FieldWriter::new(alloc);
    put_head(&mut writer, files.len() as u32)?;
    for file in files.as_slice() {
        put_entry(&mut writer, file)?;
    }
    Ok(writer.into_bytes())
}
