//! How a peer's bytes leave the protocol: they end before a frame does, one of them is bad, or a frame has a tag
//! that may not come where it stands.
//!
//! `specs/Breaches` says what stands at a place of a stream: the frame that is there by the table of all frames
//! (`frame_forms`), or the breach. Which tags may come where, the crates above say.
#![tactic(auto)]

mod breach;
mod tags;

pub use breach::Breach;
pub use tags::stray;
