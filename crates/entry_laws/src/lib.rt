//! The laws on the entries and notes that a run leaves: a record that has them can be written and read again.
//!
//! `specs/Asked` says what is asked of what processors did: that it stands in order, that no two files have one path,
//! and that its numbers and texts are such as the fields of a record take. `specs/EntryLaws` and `specs/NoteLaws` say
//! what then holds of the entries and notes that come of it (`run_entries`), in the words of the forms of a record
//! (`record_forms`) and of what is asked of it beside them (`origin_record`). `specs/RecordLaws` puts them together: a
//! record that can be read without entries and notes can be read with these. Each law is carried by a function that
//! does nothing.
//!
//! Not promised: that a run keeps to what is asked here.
#![tactic(auto)]

mod entries;
mod notes;
mod records;

pub use entries::{
    entries_are_numbered, entries_ascend, entries_fit, entries_have_order, files_are_kept,
    messages_are_numbered, paths_are_distinct, stores_are_distinct,
};
pub use notes::{notes_are_below, notes_ascend, notes_fit};
pub use records::{entries_are_short, runs_are_recorded};
