//! Questions on the types of a table, as `Types` and `Elements` of `javax.lang.model.util` ask them: whether types are the same, the type of an element, the text of a type, the boxes of primitive types, erasures and direct supertypes, and which types are subtypes of others, contain them, are assignable to them, or have a subsignature of them; the type of a member as a member of a type, which methods override others, and which members a type has. `Questions` asks the two on subtypes and contained arguments over one table, and remembers what was found out for those before.
//!
//! `specs/Questions` has one definition for each call: which elements have to be there, which kinds are wanted, and the answer; `specs/MemberQuestion` has that of `as_member_of`, `specs/OverridingQuestions` that of `overrides`, and `specs/MemberLists` that of `all_members`; `specs/AddedTypes` says which types `Questions` takes, and what their numbers stand for. `type_texts` has the texts of types, and `type_layers` when types are the same; `type_elements` has the types of elements, `type_relations` has the boxes, erasures and direct supertypes, `type_subtypes` subtypes, contained arguments, assignable types and subsignatures, `type_members` the types of members, `type_overriding` when a method overrides another one, `type_listing` the members of types, and `type_memory` the types of one table with what is remembered of them. They read the table by the look-ups of `type_relations`, `type_resolve`, `name_resolve` and `element_table` alone.
//!
//! The work of `is_same` is one step for each mirror that both hold, after a look-up of each element that they name; that of `print` one look-up for each class type and variable, and for the canonical name of a package without a unit a look at each unit of the table. `type_of` looks up each name that is written in the element, `boxed` one name and `unboxed` up to eight. `erasure` looks up one bound for each step, and `direct_supertypes` each type that the header writes. `is_subtype` and `contains` take the direct supertypes of each type that the search comes to, nearly linear in the different questions on the way; `is_assignable` makes up to four such searches, and `is_subsignature` takes the erasures of the parameters. `as_member_of` takes the direct supertypes of each different type up to the one that declares the member. `overrides` makes two searches, looks for the two methods among the supertypes of the type, and compares their parameters. `all_members` lists each supertype once, and asks about overriding between members of one name alone.
//!
//! With `Questions` a type is added once, and each question goes by the numbers of two. A question that was answered is one look-up, and any other one takes the direct supertypes of those types alone that no search came to before. What a question is answered does not depend on those before: it is what `is_subtype` and `contains` give, exactly. A caller that adds a second type has the first one still, by `proofs/AddedTypesLaws`, whose rules `there` close what `is_subtype` and `contains` ask of the two numbers.
//!
//! Not promised: that memory is there, which is also said to be wanted where a search would name more than 65,536 arguments and supertypes, where a list of members takes more than 1,048,576 steps, and where all questions of one value of `Questions` come to more than 1,048,576 types, and that Java's compiler says the same where `docs/DECISIONS.md` tells a difference.
#![tactic(auto)]

mod calls;
mod comparing;
mod fault;
mod kinds;
mod member_lists;
mod member_type;
mod overriding;
mod questions;
mod there;

pub use calls::{boxed, direct_supertypes, erasure, is_same, print, type_of, unboxed};
pub use comparing::{contains, is_assignable, is_subsignature, is_subtype};
pub use fault::QueryFault;
pub use kinds::{is_executable, is_package, is_type};
pub use member_lists::all_members;
pub use member_type::{as_member_of, is_member_of, type_of_member};
pub use overriding::overrides;
pub use questions::Questions;
pub use there::{all_there, are_there, each_is_there};
