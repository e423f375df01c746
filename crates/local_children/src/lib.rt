//! Children with the processors that the program has itself, as bytes: what they say, and a child over a source and a sink.
//!
//! `specs/Streams` says what such a child has written once it has read bytes of its host (`says`), byte by byte: a frame that is whole
//! is answered, and a bad byte or a frame that may not come ends the session. A `Conversation` hears the bytes of its host in any pieces;
//! `serve` is a child over a source and a sink. What the processors answer to a frame is of the crate below (`local_procs`).
//!
//! Not promised: that memory is there.
#![tactic(auto)]

pub mod conversation;
pub mod hearing;
mod laws;
mod names;
mod serving;

pub use laws::says_laws_hold;
pub use names::{local_in, local_named};
pub use serving::{ServeFault, serve};
