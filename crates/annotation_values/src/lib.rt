//! What annotations say, and the constants of fields, over a table (JLS 4.12.4, 9.6, 9.7; JSR 269,
//! `AnnotationMirror`).
//!
//! `specs/Values` has the values of constant forms where they are written and which names are constants, and
//! `specs/ElementValues` what is asked of an element. `specs/Remembered` says what is remembered. Which
//! annotations an element has says the crate `annotation_presence`, what a name means as a value
//! `expression_names`, and what a literal is worth `literal_values`.
//!
//! Nothing is converted to the type that is wanted, access is not tested, and no value is computed but by
//! joining texts. Where nothing stands at an element there is nothing to give.
//!
//! An `ElementValues` serves any number of calls over one table, and a free call is one over a new value. What
//! names mean is remembered, and what the initialiser of a field is worth is learned once for each number of
//! names that are left. Where a call finds more than 65,536 such values remembered, or more than 67,108,864
//! bytes of them, they are forgotten and learned anew.
//!
//! Out of memory comes also beyond 131,072 such values, so that each call may learn 65,536 of its own, where a
//! constant is nested deeper than 1,024, and where the joined texts and the copies of constants of one call
//! would take more than 67,108,864 bytes.
//!
//! Not promised: that a value fits the element whose value it is, or that memory is there.
#![tactic(auto)]

mod annotations;
mod calls;
mod constants;
mod element_values;
mod elements;
mod field_values;
mod forms;
mod learning;
mod sizes;
mod texts;
mod values;

pub use calls::{all_mirrors, constant_of, default_of, mirrors, values_with_defaults};
pub use element_values::ElementValues;
