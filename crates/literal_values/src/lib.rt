//! The values of literals, each by its text alone (JLS 3.10).
//!
//! `specs/Numerals` has integer literals with the limits of their types, `specs/Floating` floating-point
//! literals, `specs/Quoted` the characters of character and string literals, and `specs/Literals` the value
//! of each literal, and of one behind a `-`.
//!
//! Nothing is converted to a type that is wanted. A text that is no literal has no value, and is kept. The
//! work is a few steps for each character.
//!
//! Not promised: that memory is there.
#![tactic(auto)]

mod floating;
mod literals;
mod numerals;
mod quoted;

pub use literals::{literal_value, negated_value};
