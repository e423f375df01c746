// Publishes what a run made.
ghost use Rattle.std.specs.Prelude.{◌≡◌, ◌≢◌, [], ◌<◌, ◌^◌, All, IfOk, IfErr, OnErr, length, map, true};
ghost use Rattle.apt_base.specs.Fields.{is_text};
ghost use Rattle.apt_outside.specs.Count.{Told};
ghost use Rattle.tree_store.specs.RecordFormat.{IsEntry};
ghost use Rattle.tree_store.specs.Output.{SameOutside};
ghost use Rattle.tree_store.specs.Storing.{AreDistinct, AreAbsent, AddsToStore};
ghost use Rattle.project_reading.specs.Verdicts.{verdict, Done, OrFree, is_tree, is_sink, is_output, HasCause};
ghost use Rattle.project_reading.specs.Endings.{ended, EndsEarly};
ghost use Rattle.apt_host.specs.BuildEndings.{sink_verdict};
ghost use Rattle.apt_host.specs.Listed.{entry_of, entry_with, numbered_of, FitsEntry, summary_of};
ghost use Rattle.apt_host.specs.Builds.{Spells, Places, AddsErrors, AddsFirst};

use crate::report::{Summary, errors_report, report};
use apt_base::{List, Name, NoMemory};
use apt_outside::{Fault, Sink, Tree};
use project_reading::Status;
use round_engine::Made;
use std::alloc::Global;
use tree_store::{StoredFile, commit, encode_record, put_files};

/// What is to be written: the files of the store by their numbers, the record, and the report.
#[derive(Drop)]
pub struct Written {
    stored: List<(u32, List<u8>)>,
    record_bytes: List<u8>,
    report: Vec<u8>,
}

// The entries of the record, and the files of the store.
#[derive(Drop)]
struct Prepared {
    entries: List<StoredFile>,
    stored: List<(u32, List<u8>)>,
}

// The entry of a file that was made.
fn entry_of(path: Name, store: u32, bytes: &List<u8>) -> StoredFile
    requires path { length path < 2 ^ 32 }
    requires text { is_text path ≡ true }
    requires size { length bytes.now < 2 ^ 32 }
    ensures entry { result ≡ entry_with path store bytes.now }
    ensures fits { IsEntry result }
{
    StoredFile {
        path,
        store,
        length: bytes.len() as u32,
    }
}

fn prepare(alloc: Global, made: List<Made>) -> Result<Prepared, NoMemory>
    requires sizes { All FitsEntry made }
    requires texts { All (λ file. is_text file.path ≡ true) made }
    ensures entries { IfOk result (λ prepared. prepared.entries ≡ map entry_of made) }
    ensures stored { IfOk result (λ prepared. prepared.stored ≡ map numbered_of made) }
    ensures fit { IfOk result (λ prepared. All IsEntry prepared.entries) }
{
    let mut entries = List::new(alloc);
    let mut stored = List::new(alloc);
    for file in made.into_vec() {
        let Made {
            path,
            store,
            bytes,
            ..
        } = file;
        entries.push(entry_of(path, store, &bytes))?;
        stored.push((store, bytes))?;
    }
    Ok(Prepared { entries, stored })
}

/// Spells all that a build writes: the files that it made, the record that names them, and the report.
pub fn spell(
    alloc: Global,
    processors: &List<Name>,
    summary: &Summary,
    made: List<Made>,
) -> Result<Written, NoMemory>
    requires count { length made < 2 ^ 32 }
    requires sizes { All FitsEntry made }
    requires texts { All (λ file. is_text file.path ≡ true) made }
    ensures { IfOk result (Spells (summary_of processors.now summary.now) made) }
{
    let prepared = prepare(alloc, made)?;
    let report = report(alloc, processors, summary, prepared.entries.as_slice())?;
    let record_bytes = encode_record(alloc, &prepared.entries)?;
    Ok(Written {
        stored: prepared.stored,
        record_bytes,
        report,
    })
}

/// How a call ends whose output was not written.
pub fn of_sink(fault: Fault) -> Status
    ensures { verdict result ≡ sink_verdict fault }
{
    match fault {
        Fault::Failed => Status::SinkFault,
        Fault::Memory => Status::Memory,
    }
}

/// Writes the report of a build in which an error was printed.
pub fn tell_errors<W: Sink>(
    alloc: Global,
    processors: &List<Name>,
    summary: &Summary,
    output: &mut W,
) -> Result<(), Status>
    ensures cause { HasCause is_sink (ended result) (W.faults output.old) (W.faults output.new) }
    ensures early { IfErr result (λ status. EndsEarly is_sink (verdict status)) }
    ensures free { OrFree Done (ended result) }
    ensures written { AddsErrors W.Sink processors.now summary.now output.old output.new result }
{
    let report = errors_report(alloc, processors, summary)?;
    match output.write_all(&report) {
        Ok(()) => Ok(()),
        Err(fault) => Err(of_sink(fault)),
    }
}

/// Writes the new files of the store, then the report, and last the record, which publishes them.
pub fn publish<T: Tree, W: Sink>(
    alloc: Global,
    tree: &mut T,
    written: &Written,
    output: &mut W,
) -> Result<(), Status>
    requires some { written.now.report.items ≢ [] }
    requires distinct { AreDistinct written.now.stored }
    requires absent { Told T.tells (AreAbsent (T.files tree.old) written.now.stored) }
    ensures tree_cause { HasCause is_tree (ended result) (T.faults tree.old) (T.faults tree.new) }
    ensures sink_cause { HasCause is_sink (ended result) (W.faults output.old) (W.faults output.new) }
    ensures early { IfErr result (λ status. EndsEarly is_output (verdict status)) }
    ensures free { OrFree Done (ended result) }
    ensures placed { Places T.Tree written.now tree.old tree.new result }
    ensures adds { Told T.tells (OnErr result (AddsToStore (T.files tree.old) (T.files tree.new))) }
    ensures outside { Told T.tells (SameOutside (T.files tree.old) (T.files tree.new)) }
    ensures written { AddsFirst T.Tree W.Sink written.now tree.old tree.new output.old output.new result }
{
    put_files(alloc, tree, &written.stored)?;
    if let Err(fault) = output.write_all(&written.report) {
        return Err(of_sink(fault));
    }
    match commit(tree, &written.record_bytes) {
        Ok(()) => Ok(()),
        Err(fault) => Err(Status::from(fault)),
    }
}
