//! Which types are subtypes of others over a table, which type arguments contain others, which types are assignable, and which methods have a subsignature of another (JLS 4.10, 4.5.1, 5.2, 8.4.2): each within 64 steps, answered yes, no or open.
//!
//! `specs/Subtypes` says what two types decide by themselves, and what a question about them asks next; `specs/Assignable` which raw types are reached, and which types are assignable; `specs/Subsignature` when the parameters of two methods agree. `specs/Numbers` has the types of one call by their numbers, as the search of `type_levels` sees them.
//!
//! The work of a question is that of the search: nearly linear in the different questions that it leads to, each of which takes the direct supertypes of a type once. `assignable` makes up to four searches, and `subsignature` looks up a bound for each step of an erasure.
//!
//! Not promised: that memory is there, which is also said to be wanted where the questions of a search would name more than 65,536 arguments and supertypes, as in legal Java they can, and beyond the budgets of `type_numbers`. Direct supertypes are made by numbers (`type_steps`), so that headers which double a type at each step cost what they write.
#![tactic(auto)]

mod assigning;
mod raw;
mod relation;
mod searching;
mod signatures;

pub use assigning::assignable;
pub use relation::Subtypes;
pub use searching::{contained, subtype};
pub use signatures::subsignature;
