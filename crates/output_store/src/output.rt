// The published output, as a build reads it.
ghost use Rattle.std.specs.Prelude.{◌≡◌, IfOk, OnOk};
ghost use Rattle.apt_outside.specs.Count.{Told};
ghost use Rattle.output_store.specs.Cause.{HasStoreCause};
ghost use Rattle.output_store.specs.Output.{output_of, SameOutside};
ghost use Rattle.output_store.specs.Reading.{named_by, record_file, missing_of, stored_of, raw_output, output_with, FitNamed, KeepsToRecord, RemovesUnnamed, RemovesFirstUnnamed, StoreIsNamed};

use crate::StoreFault;
use crate::recorded::{RecordFile, named_by, read_record_file};
use crate::removing::{remove_others, store_paths};
use crate::stored::{StoreFiles, read_each};
use apt_base::{List, Name};
use apt_outside::Tree;
use record_forms::Record;
use std::alloc::Global;

/// The published output of a tree.
#[derive(Drop)]
pub enum RawOutput {
    /// There is no record.
    Absent,
    /// The file of the record has no reading as one.
    Damaged,
    /// A file that the record names has no store file of its length.
    Missing {
        /// The record.
        old: Record,
        /// The first such path.
        path: Name,
    },
    /// Each store file that the record names is there, in its length.
    Whole {
        /// The record.
        old: Record,
        /// The store files, each a number and its bytes, in the order of the paths of the output.
        stored: List<(u32, List<u8>)>,
    },
}

fn output_with(file: RecordFile, files: StoreFiles) -> RawOutput
    ensures { result ≡ output_with file files.missing files.stored }
{
    let StoreFiles { missing, stored } = files;
    match file {
        RecordFile::Absent => RawOutput::Absent,
        RecordFile::Damaged => RawOutput::Damaged,
        RecordFile::Present(old) => match missing {
            None => RawOutput::Whole { old, stored },
            Some(path) => RawOutput::Missing { old, path },
        },
    }
}

// Reads the store files that the file of the record names, and removes all others.
fn read_store<T: Tree>(
    alloc: Global,
    tree: &mut T,
    file: &RecordFile,
) -> Result<StoreFiles, StoreFault>
    requires { Told T.tells (file.now ≡ record_file (T.files tree.old)) }
    ensures cause { HasStoreCause (T.faults tree.old) (T.faults tree.new) result }
    ensures missing { Told T.tells
        (IfOk result (λ all. all.missing ≡ missing_of (T.files tree.old) (named_by file.now))) }
    ensures stored { Told T.tells
        (IfOk result (λ all. all.stored ≡ stored_of (T.files tree.old) (named_by file.now))) }
    ensures fit { IfOk result (λ all. FitNamed (named_by file.now) all.missing all.stored) }
    ensures all { Told T.tells (OnOk result (RemovesUnnamed (T.files tree.old) (T.files tree.new))) }
    ensures first { Told T.tells (RemovesFirstUnnamed (T.files tree.old) (T.files tree.new)) }
{
    let named = named_by(alloc, file)?;
    let paths = tree.list("out/store")?;
    let files = read_each(alloc, tree, named.as_slice())?;
    let kept = store_paths(alloc, named.as_slice())?;
    remove_others(tree, &kept, paths.as_slice())?;
    Ok(files)
}

/// Reads the record, lists the store, reads each store file that the record names, in the order of the paths of the output,
/// and removes each file below `out/store` that it does not name, in the order of their paths; where there is no record, all
/// of them.
///
/// The answer says what the tree held before. Whatever it is, the published output stays, and of the files that the record
/// does not name the first ones are removed, up to the first fault. Nothing outside `out` changes. After an `Ok` each file
/// below `out/store` is named by the record. `Failed` comes only where the tree's count rose.
///
/// Whatever the tree tells, the record that is given is one that `decode_record` gives, the path is that of one of its
/// files, and the store files have the numbers and the lengths of its files.
pub fn read_output<T: Tree>(alloc: Global, tree: &mut T) -> Result<RawOutput, StoreFault>
    ensures cause { HasStoreCause (T.faults tree.old) (T.faults tree.new) result }
    ensures output { Told T.tells (IfOk result (λ output. output ≡ raw_output (T.files tree.old))) }
    ensures all { Told T.tells (OnOk result (RemovesUnnamed (T.files tree.old) (T.files tree.new))) }
    ensures named { Told T.tells (OnOk result (StoreIsNamed (T.files tree.new))) }

    // Whatever it answers.
    ensures first { Told T.tells (RemovesFirstUnnamed (T.files tree.old) (T.files tree.new)) }
    ensures stays { Told T.tells (output_of (T.files tree.new) ≡ output_of (T.files tree.old)) }
    ensures outside { Told T.tells (SameOutside (T.files tree.old) (T.files tree.new)) }

    // Whatever the tree tells.
    ensures fit { IfOk result KeepsToRecord }
{
    let file = read_record_file(alloc, tree)?;
    match read_store(alloc, tree, &file) {
        Ok(files) => Ok(output_with(file, files)),
        Err(fault) => {
            drop(file);
            Err(fault)
        }
    }
}
