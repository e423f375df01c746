//! What a name means as a value where it is written (JLS 6.5.6): a field or an enum constant.
//!
//! `specs/Fields` has the meaning. A simple name is looked for in the types around the place, from the
//! innermost outwards, then among static single imports, then among static imports on demand; of a longer
//! name the names in front of the last one mean a type. Inherited fields count, through 64 levels of
//! supertypes. Neither access nor `static` is tested. `specs/Remembered` says what is remembered.
//!
//! A type is asked for the fields of a name once for each number of levels that are left, so that types that
//! are reached along many ways cost no more than these. The fields of a type with more than 32 members are found by
//! their names in an ordered map, which is made when the type is asked again: each name then takes the time of a
//! look-up.
//!
//! Not promised: that memory is there.
#![tactic(auto)]

mod answers;
mod declared;
mod field_rows;
mod fields;
mod known_rows;
mod meanings;

pub use fields::Fields;
