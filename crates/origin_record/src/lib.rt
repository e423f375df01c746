//! The record of a build: what the next build knows of it, in bytes and as a value.
//!
//! `specs/RecordReadings` says which bytes have a reading as a record, and which record that is; `specs/Conditions` has what is asked of it sentence by sentence, and `record_forms` its one spelling. `encode_record` writes that spelling. `decode_record` gives a record exactly for the bytes that have a reading. `specs/OldTables` has the types of a recorded build, which `old_table` gives round by round.
//!
//! Reading takes time and memory for the bytes that are there, whatever they claim.
//!
//! Not promised: that the record is that of a build.
#![tactic(auto)]

mod conditions;
mod decoding;
mod distinct;
mod encoding;
mod fault;
mod tables;

pub use decoding::decode_record;
pub use encoding::{MAX_RECORD, encode_record};
pub use fault::RecordFault;
pub use record_forms::{
    Entry, Key, KeyProcessor, Note, NoteKind, OldRound, Record, StoredFile, StoredMessage,
};
pub use tables::old_table;
