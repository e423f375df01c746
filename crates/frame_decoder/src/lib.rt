//! Reads the frames that the host and a child send each other.
//!
//! `decode` gives the frame whose tag and fields are bytes, by the table of all frames (`frame_forms`): what it gives is the frame of the table, and it gives none only where the table has none.
//!
//! `specs/PartReadings`, `specs/QuestionReadings` and `specs/HostReadings` have what stands next at the front of bytes, and `specs/Decodings` what is decoded.
//!
//! What the values of a frame may take of memory is bounded by its bytes (`quota`); no clause says how much that is.
//!
//! Not promised: that a name that a frame holds is one of the language, or that an element is there.
#![tactic(auto)]

mod counted_reading;
mod decoding;
mod host_reading;
mod mirror_reading;
mod question_reading;
mod quota;
mod reply_reading;
mod value_reading;

pub use decoding::decode;
