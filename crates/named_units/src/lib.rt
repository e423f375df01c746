//! What a child's question names: the units of its elements, those in mirrors included, and of a type that is asked for by
//! its name the text with its prefixes. Whether a question is beyond the reach of the roots goes by that.
//!
//! `specs/Named` says which units a question names, whether it reaches over a whole package (`is_wide`), and whether over
//! all roots (`gathers`). None of it depends on the reply.
//!
//! Not promised: that memory is there. Only `add_named` takes any.
#![tactic(auto)]

mod mirrors;
mod named;

pub use named::{add_named, gathers, is_wide};
