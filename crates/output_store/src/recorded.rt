// The record of a tree.
ghost use Rattle.std.specs.Prelude.{◌≡◌, option_map, IfOk, IfSome};
ghost use Rattle.apt_outside.specs.Count.{Told};
ghost use Rattle.output_store.specs.Cause.{HasStoreCause, CallsOnce};
ghost use Rattle.output_store.specs.Output.{record_in, record_of, files_named};
ghost use Rattle.output_store.specs.Reading.{read_as, found_as, record_file, named_by, record_held, IsReadable};

use crate::StoreFault;
use crate::named::{NamedFile, named_files};
use apt_base::{List, NoMemory};
use apt_outside::Tree;
use origin_record::{MAX_RECORD, RecordFault, decode_record};
use record_forms::Record;
use std::alloc::Global;

/// What stands in the place of the record.
#[derive(Drop)]
pub(crate) enum RecordFile {
    /// There is no such file.
    Absent,
    /// Its bytes are those of no record, or too many.
    Damaged,
    /// It is this record.
    Present(Record),
}

// What the bytes are.
fn read_as(alloc: Global, bytes: &[u8]) -> Result<RecordFile, NoMemory>
    ensures file { IfOk result (λ file. file ≡ read_as (record_in bytes.now)) }
    ensures readable { IfOk result (λ file. IfSome (record_held file) IsReadable) }
{
    match decode_record(alloc, bytes) {
        Ok(record) => Ok(RecordFile::Present(record)),
        Err(RecordFault::Damaged) => Ok(RecordFile::Damaged),
        Err(RecordFault::TooLarge) => unreachable!(),
        Err(RecordFault::Memory) => Err(NoMemory),
    }
}

// What stands in the place of the record, by its bytes, where there are some.
fn found_as(alloc: Global, found: Option<Vec<u8>>) -> Result<RecordFile, NoMemory>
    ensures file { IfOk result (λ file. file ≡ found_as (option_map (λ bytes. bytes.items) found)) }
    ensures readable { IfOk result (λ file. IfSome (record_held file) IsReadable) }
{
    match found {
        None => Ok(RecordFile::Absent),
        Some(bytes) => {
            let file = read_as(alloc, bytes.as_slice())?;
            Ok(file)
        }
    }
}

/// Reads what stands in the place of the record.
pub(crate) fn read_record_file<T: Tree>(
    alloc: Global,
    tree: &mut T,
) -> Result<RecordFile, StoreFault>
    ensures cause { HasStoreCause (T.faults tree.old) (T.faults tree.new) result }
    ensures same { Told T.tells (T.files tree.new ≡ T.files tree.old) }
    ensures file { Told T.tells (IfOk result (λ file. file ≡ record_file (T.files tree.old))) }
    ensures readable { IfOk result (λ file. IfSome (record_held file) IsReadable) }
    ensures once { CallsOnce T.Tree tree.old tree.new result }
{
    let found = tree.read("out/record", MAX_RECORD)?;
    let file = found_as(alloc, found)?;
    Ok(file)
}

// The record that it is, if it is one.
fn record_held(file: RecordFile) -> Option<Record>
    ensures { result ≡ record_held file }
{
    match file {
        RecordFile::Absent => None,
        RecordFile::Damaged => None,
        RecordFile::Present(record) => Some(record),
    }
}

/// The record of the tree. `None` comes exactly where there is no record, and where its file has no reading: it has more
/// than 1,073,741,824 bytes, they are not spelled as a record is, or the record does not meet a condition.
///
/// Whatever the tree tells, the record is one that `decode_record` gives. The tree stays as it is, and is called once.
/// `Failed` comes only where the tree's count rose.
pub fn read_record<T: Tree>(alloc: Global, tree: &mut T) -> Result<Option<Record>, StoreFault>
    ensures cause { HasStoreCause (T.faults tree.old) (T.faults tree.new) result }
    ensures same { Told T.tells (T.files tree.new ≡ T.files tree.old) }
    ensures record { Told T.tells (IfOk result (λ found. found ≡ record_of (T.files tree.old))) }

    // Whatever the tree tells.
    ensures readable { IfOk result (λ found. IfSome found IsReadable) }
    ensures once { CallsOnce T.Tree tree.old tree.new result }
{
    let file = read_record_file(alloc, tree)?;
    Ok(record_held(file))
}

/// The files that the file of the record names, in the order of their paths; none where it is no record.
pub(crate) fn named_by(alloc: Global, file: &RecordFile) -> Result<List<NamedFile>, NoMemory>
    ensures { IfOk result (λ named. named ≡ named_by file.now) }
{
    match file {
        RecordFile::Absent => Ok(List::new(alloc)),
        RecordFile::Damaged => Ok(List::new(alloc)),
        RecordFile::Present(record) => named_files(alloc, record),
    }
}

/// Reads the record of the tree, and gives the files that it names, in the order of their paths; none where there is no
/// record.
pub(crate) fn read_named<T: Tree>(
    alloc: Global,
    tree: &mut T,
) -> Result<List<NamedFile>, StoreFault>
    ensures cause { HasStoreCause (T.faults tree.old) (T.faults tree.new) result }
    ensures same { Told T.tells (T.files tree.new ≡ T.files tree.old) }
    ensures named { Told T.tells (IfOk result (λ named. named ≡ files_named (T.files tree.old))) }
{
    let file = read_record_file(alloc, tree)?;
    match named_by(alloc, &file) {
        Ok(named) => {
            drop(file);
            Ok(named)
        }
        Err(NoMemory) => {
            drop(file);
            Err(StoreFault::Memory)
        }
    }
}
