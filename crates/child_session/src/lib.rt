//! A session with one child: frames are sent to it, and what it answers is read frame by frame. In a round it creates
//! files, prints messages and asks about the elements and types of the round, until it is done.
//!
//! The contracts speak of what a child says to the frames that it was sent, and not of pieces of
//! bytes: what stands at a place of a child's stream, a frame or how its bytes leave the protocol there,
//! is `specs/Breaches` of `frame_breaches`. `specs/Replies` has the reply to each request, `specs/Acts` what a round
//! comes to: the list of its exchanges and its last turn, of which all else is a function. What a question names, by
//! which its reach is known, says `named_units`.
#![tactic(auto)]

mod beginning;
mod fault;
mod laws;
mod noted;
mod receiving;
mod request;
mod round;
mod serving;

pub use beginning::begin;
pub use child_answers::Answering;
pub use fault::SessionFault;
pub use laws::{files_are_made, free_acts_hold};
pub use receiving::exchange;
pub use request::{Request, Turn};
pub use round::{Answer, Showing, show_round};
