// The sources among the files that a run made.
ghost use Rattle.std.specs.Prelude.{◌≡◌, IfOk, OnOk, string_bytes};
ghost use Rattle.std.specs.FinMap as fin;
ghost use Rattle.apt_filer.specs.Filing.{content_of};
ghost use Rattle.project_units.specs.Held.{files_lent};
ghost use Rattle.project_units.specs.Creations.{is_source, creates_source, with_source, with_unread, with_file, sources_among, unread_among, files_among};

use crate::files::Files;
use apt_base::{List, Name, Names, NoMemory};
use apt_filer::path_text;
use std::alloc::Global;
use std::collections::BTreeMap;
use std::marker::Model;
use wire_frames::Creation;

/// The sources among files that were made, by their paths. What they hold stays where it lies, and contracts see the same
/// map as of files.
#[derive(Drop)]
pub(crate) struct Sources<'a> {
    lent: BTreeMap<String, &'a [u8]>,
}

impl<'a> Model for Sources<'a> {
    ghost use Rattle.apt_outside.specs.Files.{Files};
    ghost use Rattle.project_units.specs.Held.{files_code, files_lent};

    ghost Value = { Files };

    ghost coded = { files_code };

    ghost view = { λ a. files_lent a.lent };
}

impl<'a> Sources<'a> {
    fn new(alloc: Global) -> Self
        ensures { result ≡ fin.empty }
    {
        Sources {
            lent: BTreeMap::new(alloc),
        }
    }

    fn insert(&mut self, path: String, content: &'a [u8]) -> Result<(), NoMemory>
        ensures { OnOk result (self.new ≡ fin.insert self.old (string_bytes path) content.now) }
    {
        self.lent.insert(path, content)?;
        Ok(())
    }

    /// The same sources as a map, which gives them in the order of their paths.
    pub fn into_map(self) -> BTreeMap<String, &'a [u8]>
        ensures { files_lent result ≡ self.entry }
    {
        self.lent
    }
}

fn is_source(creation: &Creation) -> bool
    ensures { result ≡ is_source creation.now }
{
    match creation {
        Creation::Source { .. } => true,
        _ => false,
    }
}

/// Whether a source is among files that were made.
pub fn creates_source(made: &[Creation]) -> bool
    ensures { result ≡ creates_source made.now }
{
    made.iter().any(is_source)
}

fn add_source<'a>(
    alloc: Global,
    sources: &mut Sources<'a>,
    creation: &'a Creation,
) -> Result<(), NoMemory>
    ensures { OnOk result (sources.new ≡ with_source sources.old creation.now) }
{
    match creation {
        Creation::Source { content, .. } => {
            let path = path_text(alloc, creation)?;
            sources.insert(path, content.as_slice())
        }
        _ => Ok(()),
    }
}

/// The sources among files that were made, by their paths.
pub(crate) fn sources_among<'a>(
    alloc: Global,
    made: &'a [Creation],
) -> Result<Sources<'a>, NoMemory>
    ensures { IfOk result (λ sources. sources ≡ sources_among made.now) }
{
    let mut sources = Sources::new(alloc);
    for creation in made {
        add_source(alloc, &mut sources, creation)?;
    }
    Ok(sources)
}

fn add_unread(names: &mut Names, creation: &Creation) -> Result<(), NoMemory>
    ensures { OnOk result (names.new ≡ with_unread names.old creation.now) }
{
    match creation {
        Creation::Source { name, .. } => names.insert(name.as_str()),
        _ => Ok(()),
    }
}

/// The names of the sources among files that were made, ascending.
pub fn unread_among(alloc: Global, made: &[Creation]) -> Result<List<Name>, NoMemory>
    ensures { IfOk result (λ names. names ≡ unread_among made.now) }
{
    let mut names = Names::new(alloc);
    for creation in made {
        add_unread(&mut names, creation)?;
    }
    names.list()
}

fn into_content(creation: Creation) -> Vec<u8>
    ensures { result.items ≡ content_of creation }
{
    match creation {
        Creation::Source { content, .. } => content.into_vec(),
        Creation::Resource { content, .. } => content.into_vec(),
        Creation::Class { content, .. } => content.into_vec(),
    }
}

fn add_file(alloc: Global, files: &mut Files, creation: Creation) -> Result<(), NoMemory>
    ensures { OnOk result (files.new ≡ with_file files.old creation) }
{
    let path = path_text(alloc, &creation)?;
    files.insert(path, into_content(creation))
}

/// The files that were made, by their paths.
pub fn files_among(alloc: Global, made: List<Creation>) -> Result<Files, NoMemory>
    ensures { IfOk result (λ files. files ≡ files_among made) }
{
    let mut files = Files::new(alloc);
    for creation in made.into_vec() {
        add_file(alloc, &mut files, creation)?;
    }
    Ok(files)
}
