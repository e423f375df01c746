//! The members of a type over a table: its own and those that it inherits (JLS 8.2, 8.4.8, 9.2, 9.4.1), as `getAllMembers` of `javax.lang.model.util.Elements` lists them.
//!
//! `specs/Members` says which members are inherited, which of them another member hides or overrides, and in what order they are listed, within a number of levels of supertypes. `specs/MemberLaws` has that a closed list stays with more levels. `specs/Namesakes` tells the members of one name, of which alone one can displace another, `specs/Listings` has a list with the places of those of each name, and `specs/Remembered` the members of types that are remembered.
//!
//! Each type is listed once, and a member that is inherited is looked up by its name and compared with the members of that name alone, up to the first one that displaces it. Its signature in the type is resolved once. So the work is that of the lists of all supertypes, of one look-up for each name that is written in a method which is compared, and of comparing numbers.
//!
//! Not promised: that memory is there. Out of memory comes also where the lists take more than 1,048,576 steps: two for each own member, four for each member of a supertype, two for each other one of its name that may displace it, and for each comparison of two signatures three and one for each layer of the second one.
#![tactic(auto)]

mod displacing;
mod known;
mod laws;
mod listing;
mod members;
mod names;
mod remembered;

pub use laws::more_levels_keep;
pub use members::all_members;
pub use type_overriding::overrides;
