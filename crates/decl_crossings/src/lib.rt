//! How many fields of one declaration begin within some symbols (JLS 8.3), wherever these end.
//!
//! A field begins at its name: with a `;` behind the name the declaration is whole (`specs/Crossings`). So while `A < B, C, D` may still be a
//! comparison and two fields behind it these count, whatever follows. A walk goes over the fields and the parts of their initialisers, once for
//! each symbol. Only the arguments of a type with its `::` are looked at once more, as a comparison, and only where they have more
//! commas than there may be fields.
#![tactic(auto)]

mod brackets;
mod field_steps;
mod parts;
mod rest_steps;
mod spots;
mod walk;

pub use walk::fields_cross;
