//! Whether two units of declarations are equal, without their shapes: two trees side by side.
//!
//! Two units are equal exactly where their shapes are (`decl_syntax`), so the imports, the names of the types of the file, annotations and doc comments count, and the order of all of them; bodies and lines, which no unit has, do not. Nothing here takes memory. The steps are at most those of the smaller unit, and what nests is bounded by what is legal.
#![tactic(auto)]

mod annotations;
mod members;
mod parameters;
mod texts;
mod types;
mod units;

pub use types::is_same_type;
pub use units::is_equal;
