// The files below a folder.
use crate::files::{is_absent, placed};
use crate::messages::Failure;
use crate::standard::read_some;
use std::alloc::AllocError;
use std::io::{Error, ErrorKind};
use std::rt::Files;
use std::{fs, io};

/// What a walk through folders has found so far.
#[derive(Drop)]
struct Walk {
    // folders that were found and not yet read
    folders: Vec<String>,
    files: Vec<String>,
}

/// The paths of all regular files below a folder, ascending by their bytes; none where the folder is absent.
///
/// A link to a regular file counts as a file. A link to a folder is neither entered nor listed, a link to nothing or
/// in a circle is not listed, nor is anything else that is no regular file. A name that isn't UTF-8 is an error.
pub fn files_below<R: Files + AllocGlobal>(rt: &R, folder: &str) -> Result<Vec<String>, Failure> {
    let mut walk = Walk {
        folders: vec![in rt.alloc(); String::from_str(rt.alloc(), folder)?]?,
        files: Vec::new(rt.alloc()),
    };
    for _ in 0..u64::MAX {
        let Some(folder) = walk.folders.pop() else {
            break;
        };
        read_folder(rt, folder.as_str(), &mut walk)?;
    }
    walk.files.sort()?;
    Ok(walk.files)
}

fn read_folder<R: Files + AllocGlobal>(
    rt: &R,
    folder: &str,
    walk: &mut Walk,
) -> Result<(), Failure> {
    let names = placed(rt.alloc(), folder, names_in(rt, folder))?;
    for name in names.split(|byte| *byte == 0) {
        if !matches!(name, b"" | b"." | b"..") {
            add_name(rt, folder, name, walk)?;
        }
    }
    Ok(())
}

/// The names in a folder, each ended by a 0; none where the folder is absent.
fn names_in<R: Files + AllocGlobal>(rt: &R, folder: &str) -> io::Result<Vec<u8>> {
    let mut names = Vec::new(rt.alloc());
    // The slash has a link to a folder followed.
    let path = format!(in rt.alloc(); "{folder}/")?;
    let mut opened = match rt.open_dir(path.as_str()) {
        Ok(opened) => opened,
        Err(error) if is_absent(&error) => return Ok(names),
        Err(error) => return Err(error),
    };
    // There is room for any name: the system's have at most 255 bytes.
    let mut room = [0; 4096];
    for _ in 0..u64::MAX {
        let count = read_some(&mut opened, &mut room)?;
        if count == 0 {
            break;
        }
        names.extend_from_slice(&room[..count])?;
    }
    Ok(names)
}

/// Adds what a name of a folder stands for.
fn add_name<R: Files + AllocGlobal>(
    rt: &R,
    folder: &str,
    name: &[u8],
    walk: &mut Walk,
) -> Result<(), Failure> {
    match String::from_utf8(joined(rt, folder, name)?) {
        Ok(path) => {
            let added = add_path(rt, path.as_str(), walk);
            placed(rt.alloc(), path.as_str(), added)
        }
        Err(error) => Err(Failure {
            place: Some(error.into_bytes()),
            error: Error::new(ErrorKind::InvalidFilename, "its name is not UTF-8"),
        }),
    }
}

/// The path of a name in a folder.
fn joined<R: AllocGlobal>(rt: &R, folder: &str, name: &[u8]) -> Result<Vec<u8>, AllocError> {
    let mut path = Vec::new(rt.alloc());
    path.extend_from_slice(folder.as_bytes())?;
    path.push(b'/')?;
    path.extend_from_slice(name)?;
    Ok(path)
}

fn add_path<R: Files + AllocGlobal>(rt: &R, path: &str, walk: &mut Walk) -> io::Result<()> {
    let file_type = fs::symlink_metadata(rt, path)?.file_type();
    if file_type.is_dir() {
        walk.folders.push(String::from_str(rt.alloc(), path)?)?;
    } else if file_type.is_file() || file_type.is_symlink() && leads_to_file(rt, path)? {
        walk.files.push(String::from_str(rt.alloc(), path)?)?;
    }
    Ok(())
}

fn leads_to_file<R: Files>(rt: &R, link: &str) -> io::Result<bool> {
    match fs::metadata(rt, link) {
        Ok(metadata) => Ok(metadata.is_file()),
        Err(error) if is_absent(&error) => Ok(false),
        Err(error) => Err(error),
    }
}
