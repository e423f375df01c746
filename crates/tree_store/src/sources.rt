// The sources and the stubs of a project.
ghost use Rattle.std.specs.Prelude.{◌≡◌, ◌≢◌, filter, length, IfOk, Some, Err};
ghost use Rattle.apt_outside.specs.Count.{Told};
ghost use Rattle.tree_store.specs.declared.fault.SourceReadFault.TheVariants.{Failed};
ghost use Rattle.tree_store.specs.Cause.{HasSourceCause};
ghost use Rattle.tree_store.specs.Sources.{folder_path, most_in_all, limit_in_all, is_java, is_java_text, source_of, source_at, files_at, found_at, limited, files_in, sources_of, Gives, GivesOne, IsWithin, AreShort, AreAllShort};

use crate::SourceReadFault;
use apt_base::{List, MAX_FILE_BYTES, Name, NoMemory, What};
use apt_outside::Tree;
use std::alloc::Global;

/// The most `.java` files in one folder.
const MOST_FILES: usize = 20_000;

/// A folder of Java files in the tree of a project.
#[derive(Clone, Copy, Debug, PartialEq, Eq)]
enum Folder {
    /// The sources, below `src`.
    Sources,
    /// The stubs, below `stubs`.
    Stubs,
}

impl Folder {
    // Where it stands in the tree.
    fn path(self) -> &'static str
        ensures { result.now ≡ folder_path self }
    {
        match self {
            Folder::Sources => "src",
            Folder::Stubs => "stubs",
        }
    }

    // The most bytes of all its files together.
    fn most(self) -> usize
        ensures { result ≡ most_in_all self }
    {
        match self {
            Folder::Sources => 67_108_864,
            Folder::Stubs => 16_777_216,
        }
    }

    // The limit that more bytes pass.
    fn limit(self) -> What
        ensures { result ≡ limit_in_all self }
    {
        match self {
            Folder::Sources => What::SourceBytes,
            Folder::Stubs => What::StubBytes,
        }
    }
}

/// A Java file as it stands in the tree, a source or a stub.
#[derive(Drop)]
pub struct RawSource {
    /// Its path in the tree.
    pub path: Name,
    /// Its bytes.
    pub bytes: List<u8>,
}

impl RawSource {
    /// An equal file. It fails only when memory runs out.
    pub fn copy(&self, alloc: Global) -> Result<RawSource, NoMemory>
        ensures { IfOk result (λ source. source ≡ self.now) }
    {
        Ok(RawSource {
            path: self.path.copy()?,
            bytes: List::from_vec(Vec::from_slice(alloc, self.bytes.as_slice())?),
        })
    }
}

fn copy_files(alloc: Global, files: &[RawSource]) -> Result<List<RawSource>, NoMemory>
    ensures { IfOk result (λ list. list ≡ files.now) }
{
    let mut copies = List::new(alloc);
    for each in files {
        copies.push(each.copy(alloc)?)?;
    }
    Ok(copies)
}

/// The Java files of a project, as they stand in its tree.
#[derive(Drop)]
pub struct RawSources {
    /// Those below `src`, ascending by path.
    pub sources: List<RawSource>,
    /// Those below `stubs`, ascending by path.
    pub stubs: List<RawSource>,
}

impl RawSources {
    /// Equal files. It fails only when memory runs out.
    pub fn copy(&self, alloc: Global) -> Result<RawSources, NoMemory>
        ensures { IfOk result (λ sources. sources ≡ self.now) }
    {
        Ok(RawSources {
            sources: copy_files(alloc, self.sources.as_slice())?,
            stubs: copy_files(alloc, self.stubs.as_slice())?,
        })
    }
}

fn is_java(path: &str) -> bool
    ensures { result ≡ is_java path.now }
{
    path.as_bytes().ends_with(b".java")
}

// How many of these paths are those of Java files.
fn count_java(paths: &[String]) -> usize
    ensures { result ≡ length (filter is_java_text paths.now) }
{
    paths.iter().filter(|path| is_java(path.as_str())).count()
}

// The file of this path with these bytes, unless it passes a limit.
fn sized(
    alloc: Global,
    folder: Folder,
    path: &str,
    bytes: Vec<u8>,
    left: usize,
) -> Result<Option<RawSource>, SourceReadFault>
    ensures source { GivesOne folder left (Some (source_of path.now bytes.items)) result }
    ensures within { IfOk result (IsWithin left) }
    ensures unfailed { result ≢ Err Failed }
{
    let count = bytes.len();
    if count > MAX_FILE_BYTES {
        return Err(SourceReadFault::TooLarge {
            what: What::FileBytes,
        });
    }
    if count > left {
        return Err(SourceReadFault::TooLarge {
            what: folder.limit(),
        });
    }
    Ok(Some(RawSource {
        path: Name::new(alloc, path)?,
        bytes: List::from_vec(bytes),
    }))
}

// What was found at this path, unless it passes a limit.
fn within_limits(
    alloc: Global,
    folder: Folder,
    path: &str,
    found: Option<Vec<u8>>,
    left: usize,
) -> Result<Option<RawSource>, SourceReadFault>
    ensures source { GivesOne folder left (found_at path.now found) result }
    ensures within { IfOk result (IsWithin left) }
    ensures unfailed { result ≢ Err Failed }
{
    match found {
        None => Ok(None),
        Some(bytes) => sized(alloc, folder, path, bytes, left),
    }
}

/// Reads the file if its path ends in `.java`, and otherwise gives none. `left` is how many bytes this file and all later ones
/// of its folder may have together.
fn read_source<T: Tree>(
    alloc: Global,
    tree: &mut T,
    folder: Folder,
    path: &str,
    left: usize,
) -> Result<Option<RawSource>, SourceReadFault>
    ensures cause { HasSourceCause (T.faults tree.old) (T.faults tree.new) result }
    ensures same { Told T.tells (T.files tree.new ≡ T.files tree.old) }
    ensures source { Told T.tells (GivesOne folder left (source_at (T.files tree.old) path.now) result) }
    ensures within { IfOk result (IsWithin left) }
{
    if !is_java(path) {
        return Ok(None);
    }
    let found = tree.read(path, MAX_FILE_BYTES)?;
    within_limits(alloc, folder, path, found, left)
}

/// Reads the Java files of a folder at these paths, up to the first that passes a limit.
fn read_each<T: Tree>(
    alloc: Global,
    tree: &mut T,
    folder: Folder,
    paths: &[String],
) -> Result<List<RawSource>, SourceReadFault>
    ensures cause { HasSourceCause (T.faults tree.old) (T.faults tree.new) result }
    ensures same { Told T.tells (T.files tree.new ≡ T.files tree.old) }
    ensures sources { Told T.tells (Gives (limited folder (files_at (T.files tree.old) paths.now)) result) }
    ensures short { IfOk result AreShort }
{
    let mut sources = List::new(alloc);
    let mut left = folder.most();
    for path in paths {
        if let Some(source) = read_source(alloc, tree, folder, path.as_str(), left)? {
            left -= source.bytes.len();
            sources.push(source)?;
        }
    }
    Ok(sources)
}

// The Java files of a folder, ascending by path, or the first limit that they pass.
fn read_folder<T: Tree>(
    alloc: Global,
    tree: &mut T,
    folder: Folder,
) -> Result<List<RawSource>, SourceReadFault>
    ensures cause { HasSourceCause (T.faults tree.old) (T.faults tree.new) result }
    ensures same { Told T.tells (T.files tree.new ≡ T.files tree.old) }
    ensures files { Told T.tells (Gives (files_in folder (T.files tree.old)) result) }
    ensures short { IfOk result AreShort }
{
    let paths = tree.list(folder.path())?;
    let count = count_java(paths.as_slice());
    if count > MOST_FILES {
        return Err(SourceReadFault::TooLarge { what: What::Files });
    }
    read_each(alloc, tree, folder, paths.as_slice())
}

/// The `.java` files below `src`, and those below `stubs`, each ascending by path. The sources are listed and read before the stubs
/// are listed. For each of the two the first of these holds, and the stubs count where all sources are given:
///
/// - `TooLarge` with `What::Files`: there are more than 20,000. No file of the folder is read then.
/// - `TooLarge` with `What::FileBytes`, `What::SourceBytes` or `What::StubBytes`: a file has more than 8,388,608 bytes, or it and all
///   before it in its folder have more together than its folder may, which is 67,108,864 for sources and 16,777,216 for stubs; the
///   first file that does so counts, and of its two limits the first.
/// - all are given.
///
/// `Failed` comes only where the tree's count rose, and `Memory` may come in place of each of these. The tree stays as it is.
/// Whatever it tells, no file is given that has more than 8,388,608 bytes.
pub fn read_sources<T: Tree>(alloc: Global, tree: &mut T) -> Result<RawSources, SourceReadFault>
    ensures cause { HasSourceCause (T.faults tree.old) (T.faults tree.new) result }
    ensures same { Told T.tells (T.files tree.new ≡ T.files tree.old) }
    ensures sources { Told T.tells (Gives (sources_of (T.files tree.old)) result) }
    ensures short { IfOk result AreAllShort }
{
    let sources = read_folder(alloc, tree, Folder::Sources)?;
    let stubs = read_folder(alloc, tree, Folder::Stubs)?;
    Ok(RawSources { sources, stubs })
}
