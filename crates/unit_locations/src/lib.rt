//! A type table with what is known of each unit beside its declarations: the path of the file that gave it, and the line of each of its elements.
//!
//! `LocatedTable` of `specs/LocatedTable` is a table and a map from names to locations. A unit and its location enter by one call, so that both
//! have the same names. All that speaks of types borrows the table and knows nothing of locations.
//!
//! Not promised: that a location is that of the unit. It is what the caller has from the reading of the file.
#![tactic(auto)]

mod lines;
mod located;
mod location;
mod locations;

pub use lines::line_at;
pub use located::{LocatedTable, Location, locations_stay};
pub use location::UnitLocation;
