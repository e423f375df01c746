// Files that are removed: those that no record names, and all.
ghost use Rattle.std.specs.Prelude.{◌≡◌, [], ◌∷◌, map, string_bytes, IfOk, OnOk};
ghost use Rattle.std.specs.FinMap as fin;
ghost use Rattle.apt_outside.specs.Count.{Told};
ghost use Rattle.apt_base.specs.Names.{with_names};
ghost use Rattle.output_store.specs.Cause.{HasStoreCause};
ghost use Rattle.output_store.specs.Output.{output_of, RemovesAll, RemovesFirst, SameOutside};
ghost use Rattle.output_store.specs.Reading.{store_paths, unkept};
ghost use Rattle.output_store.specs.Cleaning.{store_files, store_count, paths_in_out, HasNoOutput, KeepsOrEmpties};

use crate::StoreFault;
use crate::named::NamedFile;
use crate::stored::store_path;
use apt_base::{Names, NoMemory};
use apt_outside::Tree;
use std::alloc::Global;

/// The paths of the store files of these.
pub(crate) fn store_paths(alloc: Global, files: &[NamedFile]) -> Result<Names, NoMemory>
    ensures { IfOk result (λ paths. paths ≡ with_names fin.empty (store_paths files.now)) }
{
    let mut paths = Names::new(alloc);
    for file in files {
        let path = store_path(alloc, file.store)?;
        paths.insert(path.as_str())?;
    }
    Ok(paths)
}

// Removes the file at the path, unless it is kept.
fn remove_unkept<T: Tree>(tree: &mut T, kept: &Names, path: &str) -> Result<(), StoreFault>
    ensures cause { HasStoreCause (T.faults tree.old) (T.faults tree.new) result }
    ensures all { Told T.tells
        (OnOk result (RemovesAll (unkept kept.now (path.now ∷ [])) (T.files tree.old) (T.files tree.new))) }
    ensures first { Told T.tells
        (RemovesFirst (unkept kept.now (path.now ∷ [])) (T.files tree.old) (T.files tree.new)) }
{
    if kept.contains(path) {
        return Ok(());
    }
    tree.remove(path)?;
    Ok(())
}

/// Removes the files at these paths, in order, but for those that are kept. It stops at the first fault.
pub(crate) fn remove_others<T: Tree>(
    tree: &mut T,
    kept: &Names,
    paths: &[String],
) -> Result<(), StoreFault>
    ensures cause { HasStoreCause (T.faults tree.old) (T.faults tree.new) result }
    ensures all { Told T.tells
        (OnOk result
        (RemovesAll (unkept kept.now (map string_bytes paths.now)) (T.files tree.old) (T.files tree.new))) }
    ensures first { Told T.tells
        (RemovesFirst (unkept kept.now (map string_bytes paths.now)) (T.files tree.old) (T.files tree.new)) }
{
    for path in paths {
        remove_unkept(tree, kept, path.as_str())?;
    }
    Ok(())
}

// Removes all files of the store, and says how many these were.
fn empty_store<T: Tree>(alloc: Global, tree: &mut T) -> Result<u64, StoreFault>
    ensures cause { HasStoreCause (T.faults tree.old) (T.faults tree.new) result }
    ensures count { Told T.tells (IfOk result (λ count. count ≡ store_count (T.files tree.old))) }
    ensures all { Told T.tells
        (OnOk result (RemovesAll (store_files (T.files tree.old)) (T.files tree.old) (T.files tree.new))) }
    ensures first { Told T.tells
        (RemovesFirst (store_files (T.files tree.old)) (T.files tree.old) (T.files tree.new)) }
{
    let paths = tree.list("out/store")?;
    let none = Names::new(alloc);
    remove_others(tree, &none, paths.as_slice())?;
    Ok(paths.len() as u64)
}

/// Removes the record, and then each file below `out/store`, in the order of their paths, up to the first fault. The answer
/// is how many files there were below `out/store`.
///
/// After an `Ok` neither the record nor a file below `out/store` stands, and the published output is empty. Whatever the
/// answer, nothing outside `out` changes, and the published output is the former one or empty. `Failed` comes only where the
/// tree's count rose.
pub fn clean<T: Tree>(alloc: Global, tree: &mut T) -> Result<u64, StoreFault>
    ensures cause { HasStoreCause (T.faults tree.old) (T.faults tree.new) result }
    ensures count { Told T.tells (IfOk result (λ count. count ≡ store_count (T.files tree.old))) }
    ensures all { Told T.tells
        (OnOk result (RemovesAll (paths_in_out (T.files tree.old)) (T.files tree.old) (T.files tree.new))) }
    ensures gone { Told T.tells (OnOk result (HasNoOutput (T.files tree.new))) }
    ensures empty { Told T.tells (OnOk result (output_of (T.files tree.new) ≡ fin.empty)) }

    // Whatever it answers.
    ensures first { Told T.tells
        (RemovesFirst (paths_in_out (T.files tree.old)) (T.files tree.old) (T.files tree.new)) }
    ensures output { Told T.tells (KeepsOrEmpties (T.files tree.old) (T.files tree.new)) }
    ensures outside { Told T.tells (SameOutside (T.files tree.old) (T.files tree.new)) }
{
    tree.remove("out/record")?;
    let count = empty_store(alloc, tree)?;
    Ok(count)
}
