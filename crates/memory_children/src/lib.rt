//! Children in memory with the processors that the program has itself.
//!
//! `LocalChildren` meet the trait `Children` of `apt_outside` and tell all that they are sent and say (`specs/Kept`): a
//! child says what one of these processors has written for the bytes that it was sent (`says` of `local_children`).
//!
//! Not promised: that memory is there.
#![tactic(auto)]

mod call;
mod children;
mod local_child;

pub use children::LocalChildren;
