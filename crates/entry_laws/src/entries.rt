// The laws on entries.
ghost use Rattle.entry_laws.specs.EntryLaws.{EntriesAscend, EntriesHaveOrder, MessagesAreNumbered, FilesAreKept, PathsAreDistinct, StoresAreDistinct, EntriesAreNumbered, EntriesFit};

/// The entries of what was done in order ascend strictly by round, processor and origin; an absent origin comes first.
pub fn entries_ascend()
    ensures { EntriesAscend }
{}

/// Within each entry the names that were offered, the roots that carry one, and the files by their paths ascend
/// strictly, where no two files have one path.
pub fn entries_have_order()
    ensures { EntriesHaveOrder }
{}

/// The numbers of the messages of each entry ascend.
pub fn messages_are_numbered()
    ensures { MessagesAreNumbered }
{}

/// The files of the entries are those that processors created: each stands in exactly one entry, once, and no other
/// file does.
pub fn files_are_kept()
    ensures { FilesAreKept }
{}

/// No path comes twice in the entries, where no two files were created at one.
pub fn paths_are_distinct()
    ensures { PathsAreDistinct }
{}

/// The numbers of the store files in the entries are distinct, where no two created files have one number.
pub fn stores_are_distinct()
    ensures { StoresAreDistinct }
{}

/// The numbers of processors in the entries are below the count of processors, and those of rounds from 1 to the count
/// of rounds, where they are so in what was done.
pub fn entries_are_numbered()
    ensures { EntriesAreNumbered }
{}

/// The entries are a list of entries as the form of a record asks, where what was done has the fields of one.
pub fn entries_fit()
    ensures { EntriesFit }
{}
