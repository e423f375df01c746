// The store files.
ghost use Rattle.std.specs.Prelude.{◌≡◌, length, string_bytes, option_map, option_and_then, IfOk, IfSome, OnOk, Some};
ghost use Rattle.std.specs.Option.{option_or};
ghost use Rattle.apt_outside.specs.Count.{Told};
ghost use Rattle.output_store.specs.Cause.{HasStoreCause};
ghost use Rattle.output_store.specs.Output.{store_path, of_length, bytes_of};
ghost use Rattle.output_store.specs.Reading.{missing_of, missing_with, stored_of, stored_with, FitNamed};

use crate::StoreFault;
use crate::named::NamedFile;
use apt_base::{List, Name, NoMemory};
use apt_outside::Tree;
use std::alloc::Global;

/// Where the store file of a number stands.
#[tactic(auto, unfolding(crate::specs::Output::store_path))]
pub(crate) fn store_path(alloc: Global, number: u32) -> Result<String, NoMemory>
    ensures { IfOk result (λ path. string_bytes path ≡ store_path number) }
{
    Ok(format!(in alloc; "out/store/{number}")?)
}

// The bytes, if they are this many.
fn of_length(length: u32, found: Option<Vec<u8>>) -> Option<List<u8>>
    ensures { result ≡ option_and_then (of_length length) (option_map (λ bytes. bytes.items) found) }
{
    match found {
        Some(bytes) if bytes.len() == length as usize => Some(List::from_vec(bytes)),
        _ => None,
    }
}

/// Reads the store file of a file that a record names. `None` comes where it is absent or of another length.
pub(crate) fn read_stored<T: Tree>(
    alloc: Global,
    tree: &mut T,
    file: &NamedFile,
) -> Result<Option<List<u8>>, StoreFault>
    ensures cause { HasStoreCause (T.faults tree.old) (T.faults tree.new) result }
    ensures same { Told T.tells (T.files tree.new ≡ T.files tree.old) }
    ensures bytes { Told T.tells (IfOk result (λ bytes. bytes ≡ bytes_of (T.files tree.old) file.now)) }
    ensures sized { IfOk result (λ found. IfSome found (λ bytes. length bytes ≡ file.now.length)) }
{
    let path = store_path(alloc, file.store)?;
    let found = tree.read(path.as_str(), file.length as usize)?;
    Ok(of_length(file.length, found))
}

/// The store files of the files that a record names.
#[derive(Drop)]
pub(crate) struct StoreFiles {
    /// The path of the first file whose store file is absent or of another length.
    pub(crate) missing: Option<Name>,
    /// Those that have their lengths, by their numbers.
    pub(crate) stored: List<(u32, List<u8>)>,
}

// Keeps the path, unless there is one from before.
fn note_missing(missing: &mut Option<Name>, path: &Name) -> Result<(), NoMemory>
    ensures { OnOk result (missing.new ≡ option_or missing.old (Some path.now)) }
{
    if missing.is_none() {
        *missing = Some(path.copy()?);
    }
    Ok(())
}

// Adds what was found of a file.
fn add_found(
    files: &mut StoreFiles,
    file: &NamedFile,
    found: Option<List<u8>>,
) -> Result<(), NoMemory>
    ensures missing { OnOk result (files.new.missing ≡ missing_with files.old.missing file.now found) }
    ensures stored { OnOk result (files.new.stored ≡ stored_with files.old.stored file.now found) }
{
    match found {
        Some(bytes) => files.stored.push((file.store, bytes)),
        None => note_missing(&mut files.missing, &file.path),
    }
}

/// Reads the store file of each of the files, in order.
pub(crate) fn read_each<T: Tree>(
    alloc: Global,
    tree: &mut T,
    named: &[NamedFile],
) -> Result<StoreFiles, StoreFault>
    ensures cause { HasStoreCause (T.faults tree.old) (T.faults tree.new) result }
    ensures same { Told T.tells (T.files tree.new ≡ T.files tree.old) }
    ensures missing { Told T.tells
        (IfOk result (λ all. all.missing ≡ missing_of (T.files tree.old) named.now)) }
    ensures stored { Told T.tells
        (IfOk result (λ all. all.stored ≡ stored_of (T.files tree.old) named.now)) }
    ensures fit { IfOk result (λ all. FitNamed named.now all.missing all.stored) }
{
    let mut files = StoreFiles {
        missing: None,
        stored: List::new(alloc),
    };
    for file in named {
        let found = read_stored(alloc, tree, file)?;
        add_found(&mut files, file, found)?;
    }
    Ok(files)
}
