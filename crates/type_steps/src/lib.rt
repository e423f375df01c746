//! Erasures and direct supertypes of types that go by their numbers (JLS 4.6, 4.8, 4.10), so that a search over types asks what is next without a copy of a type as a tree.
//!
//! What a type has is as `type_relations` defines it of the mirror with that number: `erasure`, `direct` and `is_raw`. `specs/Supertypes` says what the numbers of several types stand for where these may be open, `specs/Arrays` has arrays of arrays, and `specs/Entries` what a class type puts in the place of type parameters.
//!
//! A call adds the types that it gives, and those on the way to them, to the types of `type_numbers`; each number that was given before still has the same type. The work is that of the header of a class type, or of the bounds of a type variable, and of a substitution, which looks once at each different type. Arrays are gone through in a loop.
//!
//! Not promised: that memory is there, and that an element that a type names is of the kind that it is named as.
#![tactic(auto)]

mod adding;
mod arrays;
mod entries;
mod erasing;
mod raw;
mod supertypes;

pub use entries::replaced_in;
pub use erasing::erasure_of;
pub use raw::is_raw;
pub use supertypes::{direct_of, direct_with};
