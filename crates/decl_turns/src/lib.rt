//! How an expression goes on (JLS 15): where a reader of one stands, what the next symbol chooses there, and which parts begin where.
//!
//! `next_of` and `first_next` are the table of the grammar as functions: `proofs/Chosen` says that reading the rest of an expression is
//! reading the form that they choose, so that a reader goes by their answer alone.
#![tactic(auto)]

mod first_turns;
mod part_starts;
mod states;
mod turns;

pub use first_turns::{first_leave, first_next};
pub use part_starts::{begins_part, pass_one};
pub use states::{Before, Leave, Next, Piece, Place, Turn};
pub use turns::{is_valued, leave_behind, next_of};
