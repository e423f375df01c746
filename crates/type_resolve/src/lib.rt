//! What types, annotations and the headers of types mean where they are written in elements of a table (JLS 4.3, 6.5, 8.1.4, 8.1.5, 9.7).
//!
//! `specs/Scopes` leads from an element to the place where a look-up begins; the crate `name_resolve` has the meanings there. `specs/Spelling` has the text of a type, which is what is left of a name that means nothing, and `specs/MirrorParts` words for parts of a mirror.
//!
//! A name is looked up anew each time it stands in a type, and names in front of others only where type arguments are written on them or before them. Which member types are inherited is remembered by a `Resolver` from one call to the next; the calls without one forget it.
//!
//! Not promised: that memory is there.
#![tactic(auto)]

mod annotations;
mod calls;
mod known_headers;
mod known_texts;
mod mirrors;
mod packages;
mod pairs;
mod resolver;
mod scopes;
mod spelling;

pub use annotations::{found_annotation, reference, resolve_annotation};
pub use calls::{header_types, interfaces, is_type, mirror_at, resolve_type, superclass};
pub use resolver::Resolver;
pub use scopes::found_in;
