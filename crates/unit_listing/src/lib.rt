//! The listing of a unit: a line for each of its elements, with what the language adds to what is written
//! (JSR 269, `javax.lang.model.element`).
//!
//! `specs/Listing` has the text of a unit over a table, and `specs/Words` the words for kinds and modifiers.
//! The places of a unit are those of `decl_elements`, the types those of `type_elements`, and their texts those
//! of `type_texts`.
//!
//! The work is one look-up for each name that is written in the type of a field, a method or a constructor,
//! and a step down the path of each element.
//!
//! Not promised: that memory is there.
#![tactic(auto)]

mod listing;
mod type_words;
mod words;

pub use listing::list_unit;
