//! What questions on types and members read of an element of a table: its type, what it goes by as a member, its access, what is around it and what it encloses (JSR 269, `javax.lang.model.element`).
//!
//! `specs/TypeOf` says which type an element has, and `specs/MemberElements` what is read of a member; `specs/ShownNames` says how contracts see a `MemberName`. All of it goes by what stands at the element, by its modifiers, written and implied, by the number of its children and by the package of its unit.
//!
//! The work of `type_of_element` is one look-up for each name that is written in the element. Any other call looks up one or two elements, but for `is_in_parameterized`, which looks up each element around one, and `enclosed`, which makes a reference for each child. What takes no allocator takes no memory.
//!
//! Not promised: that memory is there, and that an element is of the kind that it is asked about as. What is not there has no name, no modifiers, no package and no children, and its type is that of nothing.
#![tactic(auto)]

mod access;
mod class_types;
mod element_types;
mod names;
mod nesting;

pub use access::{is_private, is_static, package_allows};
pub use class_types::{class_element, class_elements, same_class};
pub use element_types::{type_of_element, type_of_element_with};
pub use names::{MemberName, are_namesakes, is_constructor, is_method, member_name};
pub use nesting::{enclosed, is_in_parameterized};
