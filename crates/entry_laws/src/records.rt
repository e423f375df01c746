// The laws on records with what a run left.
ghost use Rattle.entry_laws.specs.RecordLaws.{RunsAreRecorded, EntriesAreShort};

/// A record that can be read without entries and notes can be read with those of what was done, where that can be
/// recorded: so its bytes are read again as it.
pub fn runs_are_recorded()
    ensures { RunsAreRecorded }
{}

/// The entries of a record are not too many to be counted, where its bytes are no more than a record may have.
pub fn entries_are_short()
    ensures { EntriesAreShort }
{}
