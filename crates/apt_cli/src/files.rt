// Single files.
ghost use Rattle.apt_cli.specs.Failures.{IsFailureOf};

use crate::messages::Failure;
use std::alloc::{AllocError, Global};
use std::fs::{OpenFile, OpenOptions, create_dir_all, remove_file, rename};
use std::io::{Error, ErrorKind, Read, Write};
use std::rt::Files;
use std::{fs, io};

/// The name under which a file is written before it takes the place of another. No source, stub, store file or
/// published file has it: it doesn't end in `.java`, isn't a number, and has a character that no created file's name
/// may have.
const UNFINISHED: &str = "\\unfinished";

/// The folders with names that the system may not have stored yet, since a file was made there. Each path ends in a
/// slash, or is empty.
#[derive(Drop)]
pub struct Unstored {
    folders: Vec<String>,
}

impl Unstored {
    /// No file was made yet.
    pub fn new(alloc: Global) -> Self {
        Unstored {
            folders: Vec::new(alloc),
        }
    }

    /// After an error it is as it was.
    fn add(&mut self, alloc: Global, folder: &str) -> Result<(), AllocError> {
        if !self.folders.iter().any(|known| known.as_str() == folder) {
            let folder = String::from_str(alloc, folder)?;
            self.folders.push(folder)?;
        }
        Ok(())
    }

    /// Waits until the names of the files are stored. After an error some may not be, and all are tried again.
    fn store<R: Files + AllocGlobal>(&mut self, rt: &R) -> Result<(), Failure> {
        for folder in &self.folders {
            store_names(rt, folder.as_str())?;
        }
        self.folders.clear();
        Ok(())
    }
}

/// Nothing is there, or a link to nothing or in a circle.
pub fn is_absent(error: &Error) -> bool {
    matches!(
        error.kind(),
        ErrorKind::NotFound | ErrorKind::FilesystemLoop
    )
}

/// The first `limit + 1` bytes of a file at most; None where it is absent. What is there and is no regular file is an
/// error.
pub fn read_front<R: Files + AllocGlobal>(
    rt: &R,
    path: &str,
    limit: usize,
) -> Result<Option<Vec<u8>>, Failure> {
    match fs::metadata(rt, path) {
        Ok(metadata) if metadata.is_file() => {}
        Ok(_) => return Err(Error::new(ErrorKind::IsADirectory, "not a regular file").into()),
        Err(error) if is_absent(&error) => return Ok(None),
        Err(error) => return Err(error.into()),
    }
    let most = (limit as u64).saturating_add(1);
    let mut bytes = Vec::new(rt.alloc());
    fs::open(rt, path)?.take(most).read_to_end(&mut bytes)?;
    Ok(Some(bytes))
}

/// Makes a file that isn't there, and its folders, and waits until its bytes are stored. What is there is never
/// written over. The names of the file and its folders are stored before the next file is replaced.
pub fn write_new<R: Files + AllocGlobal>(
    rt: &R,
    unstored: &mut Unstored,
    path: &str,
    bytes: &[u8],
) -> Result<(), Failure> {
    let folder = folder_of(path);
    make_folders(rt, folder)?;
    unstored.add(rt.alloc(), folder)?;
    create(rt, path, bytes)?;
    Ok(())
}

/// Puts a file in the place of what is there, and makes its folders, once all files that were made are stored.
/// After an error the path is as it was.
pub fn replace<R: Files + AllocGlobal>(
    rt: &R,
    unstored: &mut Unstored,
    path: &str,
    bytes: &[u8],
) -> Result<(), Failure> {
    let folder = folder_of(path);
    let unfinished = format!(in rt.alloc(); "{folder}{UNFINISHED}")?;
    make_folders(rt, folder)?;
    let written = write_anew(rt, unfinished.as_str(), bytes);
    placed(rt.alloc(), unfinished.as_str(), written)?;
    let replaced = rename_stored(rt, unstored, unfinished.as_str(), path);
    if replaced.is_err() {
        let _ = remove_file(rt, unfinished.as_str());
    }
    replaced
}

/// Gives a file another path, once all files that were made are stored.
fn rename_stored<R: Files + AllocGlobal>(
    rt: &R,
    unstored: &mut Unstored,
    from: &str,
    to: &str,
) -> Result<(), Failure> {
    unstored.store(rt)?;
    rename(rt, from, to)?;
    // The path has changed, so it is no error where the system can't store that.
    let _ = store_names(rt, folder_of(to));
    Ok(())
}

/// Removes a file; its absence is no error.
pub fn remove<R: Files>(rt: &R, path: &str) -> io::Result<()> {
    match remove_file(rt, path) {
        Err(error) if is_absent(&error) => Ok(()),
        outcome => outcome,
    }
}

/// The outcome of a call that was made for this path.
pub fn placed<T>(alloc: Global, path: &str, outcome: io::Result<T>) -> Result<T, Failure>
    ensures { IsFailureOf outcome result }
{
    match outcome {
        Ok(value) => Ok(value),
        Err(error) => Err(Failure::at(alloc, path.as_bytes(), error)),
    }
}

/// The front of a path up to its last slash, that slash included.
fn folder_of(path: &str) -> &str {
    match path.rfind('/') {
        Some(slash) => path.get(..=slash).unwrap_or(""),
        None => "",
    }
}

/// Makes a folder and those above it, where they are absent. Its path ends in a slash, or is empty.
fn make_folders<R: Files + AllocGlobal>(rt: &R, folder: &str) -> Result<(), Failure> {
    let folder = folder.strip_suffix('/').unwrap_or(folder);
    placed(rt.alloc(), folder, create_dir_all(rt, folder))
}

/// Makes a file in the place of one that an earlier stop may have left.
fn write_anew<R: Files>(rt: &R, path: &str, bytes: &[u8]) -> io::Result<()> {
    remove(rt, path)?;
    create(rt, path, bytes)
}

/// Makes a file that isn't there. Where it can't be written whole, it is removed again.
fn create<R: Files>(rt: &R, path: &str, bytes: &[u8]) -> io::Result<()> {
    let mut file = OpenOptions::new()
        .write(true)
        .create_new(true)
        .open(rt, path)?;
    let written = write_through(&mut file, bytes);
    if written.is_err() {
        let _ = remove_file(rt, path);
    }
    written
}

/// Writes all the bytes, and waits until they are stored.
fn write_through<F: Write + OpenFile>(file: &mut F, bytes: &[u8]) -> io::Result<()> {
    file.write_all(bytes)?;
    file.sync_all()
}

/// Waits until the names in a folder are stored, and those in the folders above it but for the current one. Its path
/// ends in a slash, or is empty.
fn store_names<R: Files + AllocGlobal>(rt: &R, folder: &str) -> Result<(), Failure> {
    for (end, character) in folder.char_indices() {
        if character == '/' {
            let above = folder.get(..end).unwrap_or("");
            placed(rt.alloc(), above, sync_folder(rt, above))?;
        }
    }
    Ok(())
}

/// Waits until the names in a folder are stored. Where the system has no such call for a folder, there is nothing to
/// wait for.
fn sync_folder<R: Files>(rt: &R, folder: &str) -> io::Result<()> {
    match fs::open(rt, folder)?.sync_all() {
        Err(error)
            if matches!(
                error.kind(),
                ErrorKind::InvalidInput | ErrorKind::Unsupported
            ) => { Ok(()) }
        outcome => outcome,
    }
}
