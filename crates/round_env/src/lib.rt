//! The environment of a round (JSR 269, `RoundEnvironment`): which annotations are present on its roots and on
//! all that they enclose, and on which elements.
//!
//! `specs/Presence` says which names are present. It goes by the canonical names of annotation interfaces; when
//! an annotation is present on an element, `annotation_presence` says. A package encloses no types here.
//!
//! Not promised: that memory is there.
#![tactic(auto)]

mod environment;
mod presence;

pub use environment::RoundEnv;
pub use presence::{annotated_with, present, present_on};
