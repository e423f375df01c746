//! The elements of a unit (JSR 269, `javax.lang.model.element`): what stands at each place of its tree, with
//! the children and the modifiers that the language adds to what is written.
//!
//! `specs/Nodes` has the child lists and what stands at a path, `specs/Modifiers` the modifiers,
//! `specs/Canonical` the names of types, `specs/SimpleNames` the simple names of all elements,
//! `specs/Written` what is written at each place, and `specs/Walk` all places in the order of their paths.
//! `specs/Shown` says how contracts see an `Element` and a `Place`.
//!
//! A step down takes constant time, but for a step to a child that no source has, which looks through the
//! members of its type. No path, however deep, makes a call nest.
//!
//! Not promised: that the declarations fit together. A unit that comes from no file, as an interface with a
//! constructor, has the elements that its tree says.
#![tactic(auto)]

mod canonical;
mod counting;
mod element;
mod modifiers;
mod place;
mod walking;
mod written;

pub use canonical::canonical_below;
pub use element::Element;
pub use place::{Place, place_at};
pub use walking::{Visitor, walk};
