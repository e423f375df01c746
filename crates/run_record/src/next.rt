// The record that a finished run leaves for the next build.
ghost use Rattle.std.specs.Prelude.{◌≡◌, ◌<◌, ◌≤◌, nat_le, length, IfOk, IsErrOf};
ghost use Rattle.apt_base.specs.Limits.{max_processors};
ghost use Rattle.record_forms.specs.RecordTable.{spelling};
ghost use Rattle.origin_record.specs.Conditions.{most_bytes};
ghost use Rattle.origin_record.specs.declared.fault.RecordFault.TheVariants as faults;
ghost use Rattle.run_record.specs.Next.{stores_in, record_of, shapes_within};
ghost use Rattle.run_record.specs.Stands.{StandsAs};

use crate::rounds::{left_behind_rounds, rounds_of};
use crate::shapes::{left_behind_units, sources_shaped};
use apt_base::{List, NoMemory};
use element_table::{Part, Table};
use origin_record::{MAX_RECORD, Record, RecordFault};
use project_units::Project;
use round_engine::{Finished, Made, copy_hellos};
use run_entries::{StoreNumbers, entries, notes};
use std::alloc::Global;

// The numbers of these files by their paths.
fn stores_in(alloc: Global, files: &[Made]) -> Result<StoreNumbers, NoMemory>
    ensures { IfOk result (λ stores. stores ≡ stores_in files.now) }
{
    let mut stores = StoreNumbers::new(alloc);
    for file in files {
        stores.set(&file.path, file.store)?;
    }
    Ok(stores)
}

// Whether the shapes of a record's units are within the limit of its bytes.
fn has_room(alloc: Global, initial: &Table, run: &Finished) -> Result<bool, NoMemory>
    ensures { IfOk result (λ room. room ≡ nat_le (shapes_within initial.now run.now) most_bytes) }
{
    let names = initial.names(alloc, Part::Source)?;
    match left_behind_units(alloc, initial, names.as_slice(), MAX_RECORD)? {
        Some(left) => {
            let rest = left_behind_rounds(alloc, run.table.table(), run.past.as_slice(), left)?;
            Ok(rest.is_some())
        }
        None => Ok(false),
    }
}

// The record, whatever its size.
fn made_of(alloc: Global, project: &Project, run: &Finished) -> Result<Record, NoMemory>
    requires few { length project.now.key.processors ≤ max_processors }
    ensures { IfOk result (λ value. value ≡ record_of project.now.key project.now.initial.table run.now) }
{
    let stores = stores_in(alloc, run.files.as_slice())?;
    let count = project.key.processors.len() as u16;
    Ok(Record {
        key: project.key.copy(alloc)?,
        hellos: copy_hellos(alloc, run.hellos.as_slice())?,
        initial: sources_shaped(alloc, project.initial.table())?,
        rounds: rounds_of(alloc, run.table.table(), run.past.as_slice())?,
        entries: entries(alloc, run.processed.as_slice(), &stores)?,
        notes: notes(alloc, count, run.processed.as_slice())?,
    })
}

/// The record of a finished run over a project: its key, what each processor said of itself, the shapes of the initial units,
/// the rounds with the shapes of the units that entered, and the entries and notes of what the processors did. The entries have
/// the numbers of the run's files. The project has at most 64 processors.
///
/// Where the project was read and the run has no error, the record stands in every store that has the run's files under their
/// numbers.
///
/// `TooLarge` comes only where the record has more than `MAX_RECORD` bytes, and always where the shapes of its units have;
/// `encode_record` finds the others. `Memory` comes where memory ran out.
pub fn record_of(alloc: Global, project: &Project, run: &Finished) -> Result<Record, RecordFault>
    requires few { length project.now.key.processors ≤ max_processors }
    ensures is { IfOk result (λ value. value ≡ record_of project.now.key project.now.initial.table run.now) }
    ensures within { IfOk result (λ value. shapes_within project.now.initial.table run.now ≤ most_bytes) }
    ensures large { IsErrOf result faults.TooLarge
        → most_bytes < length (spelling (record_of project.now.key project.now.initial.table run.now)) }
    ensures undamaged { IsErrOf result faults.Damaged → ⊥ }
    ensures stands { IfOk result (StandsAs project.now run.now) }
{
    let initial = project.initial.table();
    if !has_room(alloc, initial, run)? {
        return Err(RecordFault::TooLarge);
    }
    Ok(made_of(alloc, project, run)?)
}
