//! Reads the frames of a stream.
//!
//! `Reader` is fed the bytes, in whatever pieces they came, one by one or a piece at a time, and gives each frame of the table of all frames (`frame_forms`) with its last byte. `specs/Streams` says what the reader answers to a byte and to a piece, and `specs/StreamLaws` that the frame at the front of bytes is the one that is spelled there.
//!
//! Not promised: that memory is there. When it is out of memory, the reader is as it was after the bytes that it took, and the rest can be fed again.
#![tactic(auto)]

mod laws;
mod reader;
mod taking;

pub use laws::stream_laws_hold;
pub use reader::{Progress, ReadFault, Reader};
