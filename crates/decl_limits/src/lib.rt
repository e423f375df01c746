//! The limits of a file of declarations (JLS 6.7, 7.3 to 9.6): which units it gives, how long its names may be, how many children
//! an element may have, and that the units of a file within these limits are legal.
//!
//! `specs/Units` has the units and lines that a file gives, `Names` which names are short enough, `Children` when a child list
//! is too long, `Separators` which symbols stand between its items and how many stand within the same braces, and `Texts` which symbols are those of a text. The laws on them stand
//! in `specs/Limits`. No function here reads a file.
#![tactic(auto)]

mod counting;
mod laws;
mod scanning;

pub use counting::count_separators;
pub use laws::{few_are_not_crowded, symbols_are_texts, units_are_legal};
pub use scanning::most_separators;
