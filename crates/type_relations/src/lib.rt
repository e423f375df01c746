//! What types are made of over a table, and how they stand to each other: type parameters and bounds of elements, boxes, erasures and direct supertypes (JLS 4.4, 4.6, 4.8, 4.10, 5.1.7).
//!
//! `specs/Elements` says what is read of an element, `specs/Named` which types are named or written there, `specs/Boxed` the boxes, `specs/Erasure` the erasure within a number of steps, `specs/RawTypes` which types are raw and what a class type puts in the place of type parameters, and `specs/Direct` the direct supertypes. `specs/Closed` has values that are open where the steps do not suffice.
//!
//! The work of an erasure is one look-up of a bound for each step, that of the direct supertypes one look-up of each type that the header of a class type writes, and what is given has at most the size of the written header times that of the type.
//!
//! Not promised: that memory is there, and that an element that a type names is of the kind that it is named as.
#![tactic(auto)]

mod boxing;
mod erasing;
mod headers;
mod named;
mod parameter_bounds;
mod parts;
mod places;
mod replacing;
mod supertypes;

pub use boxing::{box_of, boxed_kind, primitive_of};
pub use erasing::erasure_within;
pub use headers::{declared_supertypes, declared_supertypes_with, header_types, header_types_with};
pub use named::named_type;
pub use parameter_bounds::{bounds, written_types, written_types_with};
pub use parts::{array_of, class_type, executable};
pub use places::{
    around_of, canonical_name, child, has_type_parameters, is_there, parameter_count,
    parameter_name, place_of, type_name, type_parameters,
};
pub use replacing::has_entry;
pub use supertypes::direct;
