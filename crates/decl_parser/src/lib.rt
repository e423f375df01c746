//! The reader of files of declarations (JLS 7.3, 7.4.1): `parse` gives the units of a file, or the place of its first fault, or the limit that it passes first, exactly, and `line_of` the line of
//! an element of these units.
//!
//! The grammar and its laws are those of `decl_grammar`, and the readers of what types and their members are made of those of `decl_values`, `decl_types` and `decl_members`. What a file comes to is
//! `AnswersFile` of `specs/Parsed`. Which names are too long and which child lists are is in `decl_limits`, and the lines of elements are in `specs/Lines`.
//!
//! Depth is tested as the symbols are read. Children are counted behind that, over the symbols before the fault (`decl_children`), and names last, in a file that has a reading.
//!
//! A file is read part by part. Where the symbols so far pass the limit of depth or of children, the rest of
//! the file can't change that, and is read for a fault of its tokens alone, which would come first.
#![tactic(auto)]

mod bodies;
mod declarations;
mod file;
mod fronts;
mod info;
mod info_file;
mod laws;
mod lines;
mod naming;
mod parsing;
mod placing;
mod top_types;
mod units;

pub use decl_grammar::{Lines, Symbol, fronts_begin, one_reading, symbols};
pub use laws::one_answer;
pub use lines::line_of;
pub use parsing::{FileFault as ParseFault, Parsed, parse};
