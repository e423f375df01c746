//! The record of a build in bytes: its one spelling, and how it is read.
//!
//! `specs/RecordTable` is the table of its forms, each one line: a form says how a value is spelled, which values have a spelling, and which value stands next at the front of bytes (`specs/Forms`). `specs/Records` says which bytes spell a record. `record_bytes` spells a record, and `read_record` reads one. What more is asked of a record than the forms of its fields is for the crates above.
//!
//! Reading takes time and memory for the bytes that are there, whatever they claim: a list grows with each item that was read, and each item has a byte at least.
//!
//! Not promised: that memory is there.
#![tactic(auto)]

mod entries;
mod in_record;
mod keys;
mod lists;
mod record;
mod rounds;
mod whole;

pub use record::{
    Entry, Key, KeyProcessor, Note, NoteKind, OldRound, Record, StoredFile, StoredMessage,
};
pub use whole::{read_record, record_bytes};
