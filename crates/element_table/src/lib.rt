//! The type table: the units of a project and of its stubs, by the canonical names of their types.
//!
//! `specs/TypeTable` says what a table is: two finite maps from names to units, one for each part, with no name in both. Contracts see a `Table` as these two maps. `specs/UnitNames` has the name of a unit, `specs/TypeCounts` the number of its types, `specs/TableElements` the elements of a table, `specs/PackageTypes` the types of a package, and `specs/MemberTypes` where the member types of a type stand among its children.
//!
//! Looking a name up takes logarithmic time, and entering a unit the time of one look-up and of the unit's own types. An element takes one look-up and a step for each number of its path; a step to a child that no source has looks through the members of its type. A package, also one that has no unit `package-info`, is found by one look-up of its name, and its types are listed in the time of one look-up and of a step for each. So is where the member types of a name stand found by one look-up, however many members their type has.
//!
//! Not promised: that memory is there.
#![tactic(auto)]

mod answer;
mod child_range;
mod counting;
mod elements;
mod fault;
mod indexed;
mod listed;
mod member_index;
mod member_rows;
mod naming;
mod packages;
mod part;
mod table;
mod units;

pub use child_range::ChildRange;
pub use decl_elements::Element;
pub use fault::EnterFault;
pub use naming::{in_package, unit_name};
pub use part::Part;
pub use table::Table;
