//! Subtypes and contained type arguments over one table, of which what was found out is remembered: the types by numbers, the direct supertypes of each type that a search came to, and the answers.
//!
//! `specs/Known` has the types of a table by their numbers, which are only added, and `specs/Remembered` what is remembered of them. What a question is answered is as `type_subtypes` defines it, whatever was asked before.
//!
//! The header of a type is looked up once, however many questions come to it, and a question that was answered is one look-up by its two numbers. At most 1,048,576 answers are remembered; the questions that come later are searched for each time.
//!
//! `KnownTypes` and the relation `KnownSubtypes` of them are for the crates above that search for something else than subtypes.
//!
//! Not promised: that memory is there, which is also said to be wanted where the questions of a search would name more than 65,536 arguments and supertypes, and beyond the budgets of `type_numbers`, which count the types of all questions.
#![tactic(auto)]

mod known_types;
mod relation;
mod subtypes;

pub use known_types::KnownTypes;
pub use relation::KnownSubtypes;
pub use subtypes::RememberedSubtypes;
