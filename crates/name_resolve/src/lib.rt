//! What the name of a type means in a unit of a table (JLS 6.4, 6.5).
//!
//! `specs/Meaning` has the meaning: the places where a name is looked for, in their order, what is found at
//! each, and the first place that finds anything. `specs/Finds` says what is found at one place,
//! `specs/Supertypes` from which types member types are inherited, `specs/Mirrors` which mirror a type text
//! means, and `specs/Annotations` which annotation interface the name of an annotation means.
//! `proofs/Agreement` has the law that the crates above build on: where two tables agree on the names that a
//! look-up asks for, it finds the same in both.
//!
//! `name_meaning` looks a name up where it is written, and `Looks` looks up several of them over one table. A
//! look-up asks the places in their order, none behind the first that finds anything. It remembers which
//! member types are inherited, so that a type is asked once for each name. A question gets its answers with
//! no level of supertypes, with one level and so on, until it and all that it asks for change no more, and
//! these then serve for all further levels (`proofs/Settled` has the law): so circles of look-ups end there.
//! The work is polynomial in the table, and what one look-up may take is bounded. What the other calls answer
//! is of one place or of one type, and asks each child or supertype of it once.
//!
//! The crate `type_resolve` has the calls that give mirrors and annotation interfaces. Not promised: that
//! memory is there.
#![tactic(auto)]

mod calls;
mod children;
mod declared;
mod effort;
mod finds;
mod gathering;
mod headers;
mod import_targets;
mod imports;
mod looks;
mod meanings;
mod member_types;
mod memory;
mod names;
mod qualified;
mod scoped;
mod search;
mod tops;
mod wholes;

pub use calls::name_meaning;
pub use children::{declared_parameters, declared_types};
pub use finds::{Finds, Found, both, is_same};
pub use headers::{Supertype, interfaces_at, superclass_at, supertypes, type_at};
pub use looks::Looks;
pub use memory::{copied, copied_finds};
pub use names::{longer, part_names, split};
pub use scoped::is_there;
pub use tops::top_level;
