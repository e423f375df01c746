// The store of what a build made, and the record that publishes it.
ghost use Rattle.std.specs.Prelude.{◌≡◌, ◌↔◌, string_bytes, decimal, IsTrue, IfOk, OnOk, OnErr, None};
ghost use Rattle.std.specs.List.Sorted.{IsStrictlyIncreasing};
ghost use Rattle.apt_outside.specs.Count.{Told};
ghost use Rattle.apt_outside.specs.Files.{file_at, ChangesOnly};
ghost use Rattle.tree_store.specs.Cause.{HasStoreCause};
ghost use Rattle.tree_store.specs.Output.{store_path, SameOutside};
ghost use Rattle.tree_store.specs.Storing.{IsPlain, FindsNumber, AreTaken, AreDistinct, AreAbsent, AreWritten, paths_of, ChangesAmong, AddsToStore, StandsUnder, PutsRecord, Outputs};

use crate::StoreFault;
use apt_base::List;
use apt_outside::Tree;
use std::alloc::Global;

// Without a sign and without a zero before other digits.
fn is_plain(digits: &[u8]) -> bool
    ensures { IsTrue result ↔ IsPlain digits.now }
{
    match digits {
        [b'+', ..] => false,
        [b'0', _, ..] => false,
        _ => true,
    }
}

// The number below 2^32 whose decimal digits these are.
fn plain_number(digits: &str) -> Option<u32>
    ensures { FindsNumber decimal digits.now result }
{
    match digits.parse::<u32>() {
        Ok(number) if is_plain(digits.as_bytes()) => Some(number),
        _ => None,
    }
}

// The number below 2^32 whose store file stands at the path.
fn store_number(path: &str) -> Option<u32>
    ensures { FindsNumber store_path path.now result }
{
    plain_number(path.strip_prefix("out/store/")?)
}

/// The numbers below 2^32 at whose store paths files stand, strictly ascending.
///
/// A file below `out/store` whose path is not that of a number, as `out/store/007`, counts as none. The tree stays as
/// it is. `Failed` comes only where the tree's count rose.
pub fn taken_numbers<T: Tree>(alloc: Global, tree: &mut T) -> Result<List<u32>, StoreFault>
    ensures cause { HasStoreCause (T.faults tree.old) (T.faults tree.new) result }
    ensures same { Told T.tells (T.files tree.new ≡ T.files tree.old) }
    ensures ascending { IfOk result IsStrictlyIncreasing }
    ensures taken { Told T.tells (IfOk result (AreTaken (T.files tree.old))) }
{
    let paths = tree.list("out/store")?;
    let mut numbers = Vec::new(alloc);
    for path in &paths {
        if let Some(number) = store_number(path.as_str()) {
            numbers.push(number)?;
        }
    }
    // Another order than that of the paths; and a tree that tells nothing may list a path twice.
    numbers.sort_unstable();
    numbers.dedup();
    Ok(List::from_vec(numbers))
}

#[tactic(auto, unfolding(crate::specs::Output::store_path))]
fn store_path(alloc: Global, number: u32) -> Result<String, StoreFault>
    ensures path { IfOk result (λ path. string_bytes path ≡ store_path number) }
    ensures memory { OnErr result (result ≡ Err StoreFault.Memory) }
{
    Ok(format!(in alloc; "out/store/{number}")?)
}

fn put_file<T: Tree>(
    alloc: Global,
    tree: &mut T,
    number: u32,
    bytes: &List<u8>,
) -> Result<(), StoreFault>
    requires { Told T.tells (file_at (T.files tree.old) (store_path number) ≡ None) }
    ensures cause { HasStoreCause (T.faults tree.old) (T.faults tree.new) result }
    ensures written { Told T.tells (OnOk result (StandsUnder number bytes.now (T.files tree.new))) }
    ensures only { Told T.tells
        (ChangesOnly (store_path number) (T.files tree.old) (T.files tree.new)) }
{
    let path = store_path(alloc, number)?;
    tree.write_new(path.as_str(), bytes.as_slice())?;
    Ok(())
}

/// Writes each of the files into the store under its number, in order, and stops at the first that fails. The numbers
/// differ, and no file stands at their paths.
///
/// Whatever it answers, each file that stood is as it was, and so is the published output where each store file that
/// the record names stood. `Failed` comes only where the tree's count rose.
pub fn put_files<T: Tree>(
    alloc: Global,
    tree: &mut T,
    files: &List<(u32, List<u8>)>,
) -> Result<(), StoreFault>
    requires distinct { AreDistinct files.now }
    requires absent { Told T.tells (AreAbsent (T.files tree.old) files.now) }
    ensures cause { HasStoreCause (T.faults tree.old) (T.faults tree.new) result }

    // On success each stands with its bytes.
    ensures written { Told T.tells (OnOk result (AreWritten (T.files tree.new) files.now)) }

    // Whatever it answers.
    ensures only { Told T.tells
        (ChangesAmong (paths_of files.now) (T.files tree.old) (T.files tree.new)) }
    ensures adds { Told T.tells (AddsToStore (T.files tree.old) (T.files tree.new)) }
{
    for (number, bytes) in files.as_slice() {
        put_file(alloc, tree, *number, bytes)?;
    }
    Ok(())
}

/// Publishes: puts these bytes in the place of the record, in one step.
///
/// After any error the tree is as it was. `Failed` comes only where the tree's count rose.
pub fn commit<T: Tree>(tree: &mut T, bytes: &List<u8>) -> Result<(), StoreFault>
    ensures cause { HasStoreCause (T.faults tree.old) (T.faults tree.new) result }
    ensures ok { Told T.tells (OnOk result (PutsRecord bytes.now (T.files tree.old) (T.files tree.new))) }
    ensures err { Told T.tells (OnErr result (T.files tree.new ≡ T.files tree.old)) }
    ensures outside { Told T.tells (SameOutside (T.files tree.old) (T.files tree.new)) }

    // Where the bytes are read as entries that hold these files, these files are the published output.
    ensures published { Told T.tells (OnOk result (Outputs bytes.now (T.files tree.old) (T.files tree.new))) }
{
    tree.replace("out/record", bytes.as_slice())?;
    Ok(())
}
