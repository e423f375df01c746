// What a build leaves for the next one.
use apt_base::{ElementRef, Kind, List, Name};
use wire_frames::Hello;

/// What the next build knows of the last one.
#[derive(Drop)]
pub struct Record {
    /// What the build hung on.
    pub key: Key,
    /// What each processor said of itself, in the order of the processors.
    pub hellos: List<Hello>,
    /// The units of the sources, each by its name and its shape, ascending by name.
    pub initial: List<(Name, List<u8>)>,
    /// The rounds in order, the last one included.
    pub rounds: List<OldRound>,
    /// What the processors did, ascending by round, processor and origin.
    pub entries: List<Entry>,
    /// What stands against keeping what a processor did.
    pub notes: List<Note>,
}

/// What a build hangs on beside its sources.
#[derive(Drop)]
pub struct Key {
    /// The source level.
    pub level: u16,
    /// The options, each a key and its value, ascending by key.
    pub options: List<(Name, Name)>,
    /// The processors in the order of discovery.
    pub processors: List<KeyProcessor>,
    /// The files of the stubs, each by its path and its bytes, ascending by path.
    pub stubs: List<(Name, List<u8>)>,
}

/// A processor of a project.
#[derive(Drop)]
pub struct KeyProcessor {
    /// Its name.
    pub name: Name,
    /// The words of the command that starts its child; of a project's processor at least one.
    pub command: List<Name>,
    /// The text by which its user tells its versions apart.
    pub version: Name,
    /// What it promises of what it makes.
    pub kind: Kind,
}

/// A round of a build.
#[derive(Drop)]
pub struct OldRound {
    /// The names of its roots, ascending.
    pub roots: List<Name>,
    /// The units that entered before it, each by its name and its shape, ascending by name.
    pub entered: List<(Name, List<u8>)>,
    /// The names of the annotations that are present on its roots, ascending.
    pub present: List<Name>,
}

/// What a processor did in a round: of one root, or without an origin.
#[derive(Drop)]
pub struct Entry {
    /// The round's number, from 1.
    pub round: u32,
    /// The processor's number, from 0.
    pub processor: u16,
    /// The root of which it is, or `None` where it is of none alone.
    pub origin: Option<Name>,
    /// The annotation names that were offered, ascending.
    pub offered: List<Name>,
    /// The roots that carry an offered name, ascending.
    pub annotated: List<Name>,
    /// The files that it made, ascending by path.
    pub files: List<StoredFile>,
    /// What it printed.
    pub messages: List<StoredMessage>,
}

/// A generated file.
#[derive(Drop)]
pub struct StoredFile {
    /// Its path in the output, as `CLASS_OUTPUT/x`.
    pub path: Name,
    /// The name of the type that it declares; empty for a resource.
    pub type_name: Name,
    /// The number of its store file.
    pub store: u32,
    /// The length of its store file in bytes.
    pub length: u32,
    /// Its originating elements.
    pub origins: List<ElementRef>,
}

/// A message of a processor (JSR 269, `Messager`).
#[derive(Drop)]
pub struct StoredMessage {
    /// Its number among the messages of its entry.
    pub number: u32,
    /// 0 for an error, 1 for a warning, 2 for a mandatory warning, 3 for a note, 4 for any other kind.
    pub kind: u8,
    /// The element at which it is printed.
    pub element: Option<ElementRef>,
    /// The message.
    pub text: Name,
}

/// What stands against keeping what a processor did.
#[derive(Clone, Copy, Debug, PartialEq, Eq)]
pub enum NoteKind {
    /// It asked for what no unit of its roots leads to.
    Beyond,
    /// It declares that each output is of one root, and one was not.
    Unattributed,
    /// A creation of it was refused.
    Refused,
}

/// A note on a processor.
#[derive(Clone, Copy, Debug, PartialEq, Eq)]
pub struct Note {
    /// The processor's number, from 0.
    pub processor: u16,
    /// What is noted.
    pub kind: NoteKind,
}
