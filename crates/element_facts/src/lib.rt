//! What is asked of the elements of a table by themselves (JSR 269, `Elements` and `Element`): types and
//! packages by their canonical names, what an element is and encloses, its package and its doc comment.
//!
//! `specs/NamedTypes` says which type and which package has a name, `specs/ElementInfo` what an element is,
//! and `specs/ElementFacts` what else is said of it. What is around an element is a call of `Table`, its type
//! parameters are one of `type_relations`, and the parameters of a method or a constructor one of
//! `type_elements`.
//!
//! A call looks up one or two elements, but for `type_element`, which looks up each prefix of the name, and
//! `enclosed_elements`, which makes a reference for each element that it gives.
//!
//! Not promised: that memory is there.
#![tactic(auto)]

mod around;
mod comments;
mod element_info;
mod named;

pub use around::{enclosed_elements, package_of};
pub use comments::doc_comment;
pub use element_info::{ElementInfo, info, is_varargs, kind_number};
pub use named::{package_element, type_element};
