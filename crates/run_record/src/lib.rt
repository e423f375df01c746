//! The record that a finished run leaves for the next build.
//!
//! `specs/Shapes` says which units a record has, each by its name and its shape, and which rounds; `specs/Next` which record
//! it is; and `specs/Stands` when a record stands with a store: the run of its key over its own units has the Hellos, the
//! rounds, the entries and the notes of the record, and the store has the files of the run. `record_of` makes the record of a
//! finished run, which stands where the run has no error. `specs/Asked` says of which questions there are notes.
//!
//! The shapes of the types of one file take bytes in the square of their number, since each has what its file imports and all
//! names of its file. So a record that has too many bytes by its shapes alone is refused before it is made.
//!
//! Not promised: that memory is there.
#![tactic(auto)]

mod laws;
mod next;
mod rounds;
mod shapes;

pub use laws::beyond_is_asked;
pub use next::record_of;
