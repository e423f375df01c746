//! The texts of types over a table, as `toString` of a `TypeMirror` of `javax.lang.model.type` gives them.
//!
//! `specs/Print` has the text of a type, and `specs/Spelling` the same piece by piece, in the order in which it
//! is written.
//!
//! The work is one look-up for each class type and variable, and for the canonical name of a package without a
//! unit a look at each unit of the table.
//!
//! Not promised: that memory is there.
#![tactic(auto)]

mod printing;

pub use printing::text_of;
