// What is put into the store, and what is published.
ghost use Rattle.std.specs.Prelude.{◌≡◌, None, OnOk, OnErr};
ghost use Rattle.apt_outside.specs.Count.{Told};
ghost use Rattle.apt_outside.specs.Files.{file_at, ChangesOnly};
ghost use Rattle.output_store.specs.Cause.{HasStoreCause, CallsOnce};
ghost use Rattle.output_store.specs.Output.{store_path, output_of, SameOutside};
ghost use Rattle.output_store.specs.Publishing.{AreDistinct, AreAbsent, AreUnnamed, AreWritten, paths_of, ChangesAmong, KeepsFiles, StandsUnder, PutsRecord, Publishes};

use crate::StoreFault;
use crate::stored::store_path;
use apt_base::List;
use apt_outside::Tree;
use std::alloc::Global;

fn put_file<T: Tree>(
    alloc: Global,
    tree: &mut T,
    number: u32,
    bytes: &List<u8>,
) -> Result<(), StoreFault>
    requires { Told T.tells (file_at (T.files tree.old) (store_path number) ≡ None) }
    ensures cause { HasStoreCause (T.faults tree.old) (T.faults tree.new) result }
    ensures written { Told T.tells (OnOk result (StandsUnder number bytes.now (T.files tree.new))) }
    ensures only { Told T.tells
        (ChangesOnly (store_path number) (T.files tree.old) (T.files tree.new)) }
{
    let path = store_path(alloc, number)?;
    tree.write_new(path.as_str(), bytes.as_slice())?;
    Ok(())
}

/// Writes each of the files into the store under its number, in order, and stops at the first that fails. As conditions, the
/// numbers differ, no file stands at their paths, and the record of the tree names none of them.
///
/// Whatever it answers, each file that stood is as it was, nothing changes but the store files of these numbers, and the
/// published output stays. `Failed` comes only where the tree's count rose.
pub fn put_files<T: Tree>(
    alloc: Global,
    tree: &mut T,
    files: &List<(u32, List<u8>)>,
) -> Result<(), StoreFault>
    requires distinct { AreDistinct files.now }
    requires absent { Told T.tells (AreAbsent (T.files tree.old) files.now) }
    requires unnamed { Told T.tells (AreUnnamed (T.files tree.old) files.now) }
    ensures cause { HasStoreCause (T.faults tree.old) (T.faults tree.new) result }

    // On success each stands with its bytes.
    ensures written { Told T.tells (OnOk result (AreWritten (T.files tree.new) files.now)) }

    // Whatever it answers.
    ensures only { Told T.tells
        (ChangesAmong (paths_of files.now) (T.files tree.old) (T.files tree.new)) }
    ensures kept { Told T.tells (KeepsFiles (T.files tree.old) (T.files tree.new)) }
    ensures stays { Told T.tells (output_of (T.files tree.new) ≡ output_of (T.files tree.old)) }
    ensures outside { Told T.tells (SameOutside (T.files tree.old) (T.files tree.new)) }
{
    for (number, bytes) in files.as_slice() {
        put_file(alloc, tree, *number, bytes)?;
    }
    Ok(())
}

/// Publishes: puts these bytes in the place of the record, in one step.
///
/// After any error the tree is as it was. It is called once. `Failed` comes only where the tree's count rose.
pub fn commit<T: Tree>(tree: &mut T, bytes: &List<u8>) -> Result<(), StoreFault>
    ensures cause { HasStoreCause (T.faults tree.old) (T.faults tree.new) result }
    ensures ok { Told T.tells (OnOk result (PutsRecord bytes.now (T.files tree.old) (T.files tree.new))) }
    ensures err { Told T.tells (OnErr result (T.files tree.new ≡ T.files tree.old)) }
    ensures outside { Told T.tells (SameOutside (T.files tree.old) (T.files tree.new)) }
    ensures once { CallsOnce T.Tree tree.old tree.new result }

    // The output is what the record of these bytes names, with the store files that stand.
    ensures published { Told T.tells
        (OnOk result (Publishes bytes.now (T.files tree.old) (T.files tree.new))) }
{
    tree.replace("out/record", bytes.as_slice())?;
    Ok(())
}
