// What a processor did in a round.
ghost use Rattle.std.specs.Prelude.{◌≡◌, IfOk};
ghost use Rattle.apt_filer.specs.Filing.{content_of};
ghost use Rattle.apt_filer.specs.Origins.{originating};
ghost use Rattle.run_entries.specs.Outputs.{file_of, type_text};

use apt_base::{ElementRef, Kind, List, Name, NoMemory, copy_names};
use apt_filer::path_of;
use std::alloc::Global;
use wire_frames::{Creation, Message};

/// A file that a processor created (JSR 269, `Filer`), without what it holds.
#[derive(Drop)]
pub struct GeneratedFile {
    /// Its path in the output, as `CLASS_OUTPUT/x`.
    pub path: Name,
    /// The name of the type of a source; empty for a resource.
    pub type_name: Name,
    /// How many bytes it holds.
    pub length: u32,
    /// Its originating elements.
    pub origins: List<ElementRef>,
}

/// What a processor did in a round in which it was asked (JSR 269, `Processor.process`).
#[derive(Drop)]
pub struct Processed {
    /// The round's number, from 1.
    pub round: u32,
    /// The processor's number, from 0 in the order of discovery.
    pub processor: u16,
    /// What it promises of what it makes, its options counted in (`settled_kind`).
    pub kind: Kind,
    /// The names of the annotations that it was offered, ascending.
    pub offered: List<Name>,
    /// The roots of the round that carry an offered name, ascending, each with those that it carries, ascending
    /// (`annotated_roots`).
    pub annotated: List<(Name, List<Name>)>,
    /// The files that it created and that were accepted, in order.
    pub files: List<GeneratedFile>,
    /// What it printed, in order.
    pub messages: List<Message>,
    /// Whether a creation of it was answered with another answer than `Accepted`.
    pub refused: bool,
    /// Whether a question of it was beyond reach.
    pub beyond: bool,
}

/// Equal references in the same order.
pub(crate) fn copy_elements(
    alloc: Global,
    elements: &[ElementRef],
) -> Result<List<ElementRef>, NoMemory>
    ensures { IfOk result (λ list. list ≡ elements.now) }
{
    let mut copies = List::new(alloc);
    for each in elements {
        copies.push(each.copy(alloc)?)?;
    }
    Ok(copies)
}

/// Equal messages in the same order.
pub fn copy_messages(alloc: Global, messages: &[Message]) -> Result<List<Message>, NoMemory>
    ensures { IfOk result (λ list. list ≡ messages.now) }
{
    let mut copies = List::new(alloc);
    for each in messages {
        copies.push(each.copy(alloc)?)?;
    }
    Ok(copies)
}

fn copy_files(alloc: Global, files: &[GeneratedFile]) -> Result<List<GeneratedFile>, NoMemory>
    ensures { IfOk result (λ list. list ≡ files.now) }
{
    let mut copies = List::new(alloc);
    for each in files {
        copies.push(each.copy(alloc)?)?;
    }
    Ok(copies)
}

// Equal roots, each with its names.
fn copy_roots(
    alloc: Global,
    roots: &[(Name, List<Name>)],
) -> Result<List<(Name, List<Name>)>, NoMemory>
    ensures { IfOk result (λ list. list ≡ roots.now) }
{
    let mut copies = List::new(alloc);
    for root in roots {
        let names = copy_names(alloc, root.1.as_slice())?;
        copies.push((root.0.copy()?, names))?;
    }
    Ok(copies)
}

fn content_of(creation: &Creation) -> &List<u8>
    ensures { result.now ≡ content_of creation.now }
{
    match creation {
        Creation::Source { content, .. }
        | Creation::Resource { content, .. }
        | Creation::Class { content, .. } => content,
    }
}

fn origins_of(creation: &Creation) -> &List<ElementRef>
    ensures { result.now ≡ originating creation.now }
{
    match creation {
        Creation::Source { origins, .. }
        | Creation::Resource { origins, .. }
        | Creation::Class { origins, .. } => origins,
    }
}

// The name of a source's type, or the empty text.
fn type_text(alloc: Global, creation: &Creation) -> Result<Name, NoMemory>
    ensures { IfOk result (λ name. name ≡ type_text creation.now) }
{
    match creation {
        Creation::Source { name, .. } => name.copy(),
        _ => Name::new(alloc, ""),
    }
}

impl GeneratedFile {
    /// The file of a creation. A content of 2^32 bytes, which no filer accepts, is answered as out of memory too.
    pub fn of(alloc: Global, creation: &Creation) -> Result<GeneratedFile, NoMemory>
        ensures { IfOk result (λ file. file ≡ file_of creation.now) }
    {
        let length = u32::try_from(content_of(creation).len()).map_err(|_| NoMemory)?;
        Ok(GeneratedFile {
            path: path_of(alloc, creation)?,
            type_name: type_text(alloc, creation)?,
            length,
            origins: copy_elements(alloc, origins_of(creation).as_slice())?,
        })
    }

    /// An equal file.
    pub fn copy(&self, alloc: Global) -> Result<GeneratedFile, NoMemory>
        ensures { IfOk result (λ file. file ≡ self.now) }
    {
        Ok(GeneratedFile {
            path: self.path.copy()?,
            type_name: self.type_name.copy()?,
            length: self.length,
            origins: copy_elements(alloc, self.origins.as_slice())?,
        })
    }
}

impl Processed {
    /// An equal value.
    pub fn copy(&self, alloc: Global) -> Result<Processed, NoMemory>
        ensures { IfOk result (λ processed. processed ≡ self.now) }
    {
        Ok(Processed {
            round: self.round,
            processor: self.processor,
            kind: self.kind,
            offered: copy_names(alloc, self.offered.as_slice())?,
            annotated: copy_roots(alloc, self.annotated.as_slice())?,
            files: copy_files(alloc, self.files.as_slice())?,
            messages: copy_messages(alloc, self.messages.as_slice())?,
            refused: self.refused,
            beyond: self.beyond,
        })
    }
}
