//! Type mirrors by their outermost layer, and whether two of them are the same type.
//!
//! `specs/Layers` has the layer of a mirror, which is the mirror again, and what is defined of all mirrors by one step on a layer; `proofs/LayerLaws` that both lead back, that such a definition goes by the layer, and the induction by layers; `proofs/BaseLayers` the same base by base. `specs/Same` says which mirrors are equal and which are the same type, and the clauses of `is_equal` that this is equality.
//!
//! Not promised: that an element that a mirror names is there.
#![tactic(auto)]

mod equality;

pub use equality::{is_equal, is_same};
