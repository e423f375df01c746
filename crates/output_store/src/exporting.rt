// A copy of the published output elsewhere in the tree.
ghost use Rattle.std.specs.Prelude.{◌≡◌, length, string_bytes, is_some, IfOk, OnOk, OnErr};
ghost use Rattle.apt_outside.specs.Count.{Told};
ghost use Rattle.output_store.specs.Cause.{HasStoreCause};
ghost use Rattle.output_store.specs.Output.{output_of, bytes_of, published_by, ChangesBelow};
ghost use Rattle.output_store.specs.Exporting.{IsApart, path_under, with_bytes, with_one, published_of, published_count, Exports, ExportsWhole, ExportsFirst};

use crate::StoreFault;
use crate::named::NamedFile;
use crate::recorded::read_named;
use crate::stored::read_stored;
use apt_base::{List, NoMemory};
use apt_outside::Tree;
use std::alloc::Global;

// Where the file of a path stands in a folder.
fn path_under(alloc: Global, folder: &str, path: &str) -> Result<String, NoMemory>
    ensures { IfOk result (λ whole. string_bytes whole ≡ path_under folder.now path.now) }
{
    Ok(format!(in alloc; "{folder}/{path}")?)
}

// Puts the bytes of a path in the folder, if there are some, and says whether there are.
fn put_found<T: Tree>(
    alloc: Global,
    tree: &mut T,
    folder: &str,
    path: &str,
    found: &Option<List<u8>>,
) -> Result<bool, StoreFault>
    ensures cause { HasStoreCause (T.faults tree.old) (T.faults tree.new) result }
    ensures put { IfOk result (λ put. put ≡ is_some found.now) }
    ensures one { Told T.tells
        (OnOk result (T.files tree.new ≡ with_bytes folder.now (T.files tree.old) path.now found.now)) }
    ensures err { Told T.tells (OnErr result (T.files tree.new ≡ T.files tree.old)) }
{
    match found {
        None => Ok(false),
        Some(bytes) => {
            let place = path_under(alloc, folder, path)?;
            tree.replace(place.as_str(), bytes.as_slice())?;
            Ok(true)
        }
    }
}

// Puts a file of the output in the folder, if its store file has its length, and says whether it did.
fn export_one<T: Tree>(
    alloc: Global,
    tree: &mut T,
    folder: &str,
    file: &NamedFile,
) -> Result<bool, StoreFault>
    ensures cause { HasStoreCause (T.faults tree.old) (T.faults tree.new) result }
    ensures put { Told T.tells (IfOk result (λ put. put ≡ is_some (bytes_of (T.files tree.old) file.now))) }
    ensures one { Told T.tells
        (OnOk result (T.files tree.new ≡ with_one folder.now (T.files tree.old) file.now)) }
    ensures err { Told T.tells (OnErr result (T.files tree.new ≡ T.files tree.old)) }
{
    let found = read_stored(alloc, tree, file)?;
    let put = put_found(alloc, tree, folder, file.path.as_str(), &found)?;
    Ok(put)
}

// Puts those of the files in the folder whose store files have their lengths, in order, and says how many these were.
fn export_each<T: Tree>(
    alloc: Global,
    tree: &mut T,
    folder: &str,
    files: &[NamedFile],
) -> Result<u64, StoreFault>
    requires { IsApart folder.now }
    ensures cause { HasStoreCause (T.faults tree.old) (T.faults tree.new) result }
    ensures count { Told T.tells
        (IfOk result (λ count. count ≡ length (published_by (T.files tree.old) files.now))) }
    ensures all { Told T.tells
        (OnOk result (ExportsWhole folder.now files.now (T.files tree.old) (T.files tree.new))) }
    ensures first { Told T.tells
        (ExportsFirst folder.now (published_by (T.files tree.old) files.now)
        (T.files tree.old) (T.files tree.new)) }
{
    let mut count = 0;
    for file in files {
        let put = export_one(alloc, tree, folder, file)?;
        if put {
            count += 1;
        }
    }
    Ok(count)
}

/// Reads the record, and for each path that it names, in order, reads the store file and, where that has its length, puts it
/// in the place of the file at the folder's path, `/` and that path. The answer is how many files were put: those of the
/// published output, and none where there is no record. As a condition, the folder is neither `out` nor below it.
///
/// Whatever the answer, no file changes but those below the folder, the published output stays, and the first ones of its
/// files are put, up to the first fault. `Failed` comes only where the tree's count rose.
pub fn export<T: Tree>(alloc: Global, tree: &mut T, folder: &str) -> Result<u64, StoreFault>
    requires { IsApart folder.now }
    ensures cause { HasStoreCause (T.faults tree.old) (T.faults tree.new) result }
    ensures count { Told T.tells (IfOk result (λ count. count ≡ published_count (T.files tree.old))) }
    ensures all { Told T.tells
        (OnOk result
        (Exports folder.now (published_of (T.files tree.old)) (T.files tree.old) (T.files tree.new))) }

    // Whatever it answers.
    ensures first { Told T.tells
        (ExportsFirst folder.now (published_of (T.files tree.old)) (T.files tree.old) (T.files tree.new)) }
    ensures inside { Told T.tells (ChangesBelow folder.now (T.files tree.old) (T.files tree.new)) }
    ensures stays { Told T.tells (output_of (T.files tree.new) ≡ output_of (T.files tree.old)) }
{
    let named = read_named(alloc, tree)?;
    let count = export_each(alloc, tree, folder, named.as_slice())?;
    Ok(count)
}
