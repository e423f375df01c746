//! Readers of names, imports (JLS 7.5) and doc comments, of what stands between brackets, and of annotations that are passed over.
//!
//! Each reader says that what it returns is what reading its form gives (`Gives` of `decl_grammar`): the value and
//! the symbols behind it, or the symbols from the first fault on, or out of memory. None of these forms holds another of its own
//! kind, so each takes time linear in what it reads.
#![tactic(auto)]

mod annotations_over;
mod docs;
mod imports;
mod names;
mod skipping;
mod sorts;
mod steps;

pub use annotations_over::annotated_start_of;
pub use docs::doc_before;
pub use imports::imports_of;
pub use names::{is_name_sort, read_chain, read_name, read_name_at, starts_name};
pub use skipping::read_over;
pub use sorts::{
    is_at, is_literal_sort, is_plain, is_primitive, is_square_or_at, starts_annotation,
    starts_constant, starts_primitive, starts_type,
};
pub use steps::{begin, is_next, one, shut};
