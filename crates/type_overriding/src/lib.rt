//! Which methods override others in a type over a table (JLS 8.4.8.1, 9.4.1.1): each within 64 steps, answered yes, no or open.
//!
//! `specs/Overrides` says when a method overrides another one, and `specs/ByElements` which types are subtypes of others by their elements alone. `specs/ByNumbers` has signatures by the numbers of types, and `specs/Methods` what is remembered of the methods of one type.
//!
//! What the methods themselves settle takes no memory and looks at no type. Else the work is that of two searches over subtypes, of the types of the two methods as members of the type, and of a comparison of their parameters, each of which is replaced and erased once. The types go by their numbers, so that the parameters of a method far up a chain that doubles a type at each step cost what they write.
//!
//! `Methods` are for many questions about one type: each signature is resolved once, the header of a type is looked up once, and a comparison is then that of the numbers of parameters. `effort_of_comparisons` bounds what all comparisons take.
//!
//! Not promised: that memory is there, which is also said to be wanted where a search would name more than 65,536 arguments and supertypes, beyond the budgets of `type_numbers`, and where the comparisons of a call take more than 1,048,576 steps.
#![tactic(auto)]

mod by_elements;
mod effort;
mod known_methods;
mod methods;
mod overriding;
mod signatures;

pub use effort::effort_of_comparisons;
pub use methods::Methods;
pub use overriding::{has_subsignature, may_override, overrides};
