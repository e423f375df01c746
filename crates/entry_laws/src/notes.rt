// The laws on notes.
ghost use Rattle.entry_laws.specs.NoteLaws.{NotesAscend, NotesAreBelow, NotesFit};

/// The notes ascend strictly by processor and kind, so that none comes twice.
pub fn notes_ascend()
    ensures { NotesAscend }
{}

/// The number of each note's processor is below the count of processors.
pub fn notes_are_below()
    ensures { NotesAreBelow }
{}

/// The notes are a list as the form of a record asks, where there are at most 65,536 processors.
pub fn notes_fit()
    ensures { NotesFit }
{}
