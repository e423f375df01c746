//! The output of a build in its tree: the store of what was made, and the record that publishes it.
//!
//! The record stands at `out/record` and names files, each by its path, the number of its store file and its length. The
//! published output (`output_of` of `specs/Output`) has at each of these paths the bytes of the store file, where that
//! stands in its length. A build reads the output (`read_output`), adds store files (`put_files`) and then replaces the
//! record (`commit`), which is the one step that publishes. `clean` removes all of it, `export` puts a copy of the output
//! elsewhere, and `why_of` says what a file came from.
//!
//! What is promised of the content of a tree is promised where the tree tells it. That what is given keeps to a record that
//! can be read is promised whatever it tells.
//!
//! Not promised: that the bytes of a store file are those that a build made.
#![tactic(auto)]

mod exporting;
mod fault;
mod named;
mod output;
mod publishing;
mod recorded;
mod removing;
mod stored;
mod why;

pub use exporting::export;
pub use fault::StoreFault;
pub use named::{NamedFile, named_files, numbers_of};
pub use output::{RawOutput, read_output};
pub use publishing::{commit, put_files};
pub use recorded::read_record;
pub use removing::clean;
pub use why::why_of;
