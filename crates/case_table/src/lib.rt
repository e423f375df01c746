//! A table of texts and numbers, such as the reserved words of a language or the tags of a format, that finds either by the other.
//!
//! A table is made only of rows whose texts differ and whose numbers differ (`IsTable`), so each text has one number and each
//! number one text. A look-up compares the word with the texts that begin with the same byte, and with no other row; a number's text
//! is found in one step. Nothing is allocated.
#![tactic(auto)]

mod cases;

pub use cases::Cases;
