//! Whether a child list is too long in symbols that begin a file.
//!
//! Where few symbols within the same braces are separators, no child list is too long, by a law of `decl_limits`. Otherwise the code walks over the symbols, list by list, up to the first list that is too long, the end of the file or its first fault.
#![tactic(auto)]

mod file;
mod headings;
mod items;
mod lists;
mod members;
mod params;
mod results;
mod steps;
mod types;
mod walks;

pub use file::is_crowded;
