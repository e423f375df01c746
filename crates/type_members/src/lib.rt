//! Members of types over a table (JLS 4.5.2, 4.8): the type of a member as a member of a type, and which types are reached from a type by direct supertypes.
//!
//! `specs/MemberOf` says which supertype declares a member, and what its type is there within a number of steps; `specs/Reached` which types are reached by any number of steps. `specs/MemberNumbers` has the first of these by the numbers of `type_numbers`; `specs/NearestLevels` and `specs/Once` say why a level of supertypes may keep each type once, and `specs/Gathered` how what is reached is gathered.
//!
//! The work for a member is that of the direct supertypes of each different type of a level, of at most 64 levels, and of one substitution or erasure. Each type that is reached is looked at once.
//!
//! Not promised: that memory is there, which is also said to be wanted beyond the budgets of `type_numbers`, and where more than 65,536 types are reached.
#![tactic(auto)]

mod levels;
mod member_types;
mod reaching;

pub use member_types::{member_of, member_with, number_of, number_with};
pub use reaching::is_reached;
