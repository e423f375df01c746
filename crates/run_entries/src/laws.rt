// What holds of every record with the entries and notes of a run.
ghost use Rattle.run_entries.specs.Stands.{EntriesStand};

/// A record that has what a run left, with the entries and notes that come of it, stands for the run where the store
/// has the files of its entries. The numbers of store files play no part.
pub fn entries_stand()
    ensures { EntriesStand }
{}
