//! Readers of members behind their modifiers (JLS 8.1.7, 9.1.5, 9.6.1), but nested types, of the constants of enums (JLS 8.9.1) and of the supertypes in the
//! heading of a type (JLS 8.1.4, 8.1.5, 9.1.3); and what is made of what was read.
//!
//! The contract of each function that reads names its form (`Gives` of `decl_grammar`). The function returns the value and the
//! symbols after it; or the symbols from the first fault on; or those from the first symbol on at which the nesting is too
//! deep; or it is out of memory. `room` is how many lists of type arguments and values may still be opened.
#![tactic(auto)]

mod enums;
mod made_members;
mod members;
mod supertypes;

pub use enums::{constant_in, constants_of, starts_constant};
pub use made_members::{add_members, type_at};
pub use members::{generic_member_of, named_member_of, primitive_member_of, void_method_of};
pub use supertypes::{extended_of, implemented_of, superclass_of};
