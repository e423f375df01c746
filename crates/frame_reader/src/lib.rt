//! Finds frames in a stream of bytes that comes in pieces, and never reads a frame again from its beginning.
//!
//! `specs/Nodes` says which form of the grammar each node of the tables is, and `specs/Rests` what is still to come of a frame's fields, as the reading of the bytes from here on. `specs/Steps` has what has to follow the first byte of a node, and `specs/Follows` how one byte changes what is kept.
//!
//! Not promised: what the fields of a frame mean.
#![tactic(auto)]

mod beginning;
mod fields;
mod found;
mod node;
mod scanner;
mod stack;
mod stage;
mod task;

pub use found::{Found, Interrupted};
pub use scanner::FrameScanner;
