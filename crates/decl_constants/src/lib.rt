//! Constants (JLS 15.28): what the symbols of an expression mean, and readers of primitive types and of the constant forms that hold no other value.
//!
//! Each reader says that what it returns is what reading its form gives (`Gives` of `decl_grammar`): the value and
//! the symbols behind it, or the symbols from the first fault on, or out of memory. Each takes time linear in what it reads.
#![tactic(auto)]

mod constants;
mod plain_constants;
mod primitives;
mod token_texts;

pub use plain_constants::{meaning_of, plain_value_of};
pub use primitives::primitive_type_of;
pub use token_texts::joined_text;
