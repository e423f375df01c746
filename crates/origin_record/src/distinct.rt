// Numbers and texts of which none is there twice.
ghost use Rattle.std.specs.Prelude.{◌≡◌, ◌++◌, IfOk, OnOk};
ghost use Rattle.wire_frames.specs.Readings.{are_distinct};
ghost use Rattle.origin_record.specs.Conditions.{lent, stores_of, paths_of, stores_in, paths_in, are_different};

use apt_base::NoMemory;
use record_forms::{Entry, StoredFile};
use std::alloc::Global;
use std::collections::BTreeSet;

fn add_stores(stores: &mut Vec<u32>, files: &[StoredFile]) -> Result<(), NoMemory>
    ensures { OnOk result (stores.new.items ≡ stores.old.items ++ stores_of files.now) }
{
    for file in files {
        stores.push(file.store)?;
    }
    Ok(())
}

fn stores_in(alloc: Global, entries: &[Entry]) -> Result<Vec<u32>, NoMemory>
    ensures { IfOk result (λ stores. stores.items ≡ stores_in entries.now) }
{
    let mut stores = Vec::new(alloc);
    for entry in entries {
        add_stores(&mut stores, entry.files.as_slice())?;
    }
    Ok(stores)
}

fn are_different(alloc: Global, numbers: &[u32]) -> Result<bool, NoMemory>
    ensures { IfOk result (λ different. different ≡ are_different numbers.now) }
{
    let set: BTreeSet<u32> = numbers.iter().copied().collect(alloc)?;
    Ok(set.len() == numbers.len())
}

/// Whether the numbers of the store files are distinct.
pub(crate) fn stores_are_distinct(alloc: Global, entries: &[Entry]) -> Result<bool, NoMemory>
    ensures { IfOk result (λ distinct. distinct ≡ are_different (stores_in entries.now)) }
{
    let stores = stores_in(alloc, entries)?;
    let distinct = are_different(alloc, stores.as_slice())?;
    Ok(distinct)
}

fn add_paths<'t>(paths: &mut Vec<&'t str>, files: &'t [StoredFile]) -> Result<(), NoMemory>
    ensures { OnOk result (lent paths.new.items ≡ lent paths.old.items ++ paths_of files.now) }
{
    for file in files {
        paths.push(file.path.as_str())?;
    }
    Ok(())
}

fn paths_in<'t>(alloc: Global, entries: &'t [Entry]) -> Result<Vec<&'t str>, NoMemory>
    ensures { IfOk result (λ paths. lent paths.items ≡ paths_in entries.now) }
{
    let mut paths = Vec::new(alloc);
    for entry in entries {
        add_paths(&mut paths, entry.files.as_slice())?;
    }
    Ok(paths)
}

fn are_distinct(alloc: Global, texts: &[&str]) -> Result<bool, NoMemory>
    ensures { IfOk result (λ distinct. distinct ≡ are_distinct (lent texts.now)) }
{
    let set: BTreeSet<&str> = texts.iter().copied().collect(alloc)?;
    Ok(set.len() == texts.len())
}

/// Whether no path comes twice.
pub(crate) fn paths_are_distinct(alloc: Global, entries: &[Entry]) -> Result<bool, NoMemory>
    ensures { IfOk result (λ distinct. distinct ≡ are_distinct (paths_in entries.now)) }
{
    let paths = paths_in(alloc, entries)?;
    let distinct = are_distinct(alloc, paths.as_slice())?;
    Ok(distinct)
}
