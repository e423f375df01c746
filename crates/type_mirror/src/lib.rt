//! Types, values of annotation elements and annotations as processors see them (`javax.lang.model.type` and `AnnotationMirror` of JSR 269), as plain data.
//!
//! Mirrors are plain data for contracts, so that `≡` compares two of them, and each type has `copy`, which gives an equal value. `specs/Substitution` says what a mirror is after variables of it were replaced, and `specs/Nesting` how deep mirrors and values are nested.
//!
//! Not promised: that an element that a mirror names is there, that it has as many type parameters as the mirror has arguments, or that a value fits the element whose value it is.
#![tactic(auto)]

mod mirror;
mod nesting;
mod substitution;
mod value;

pub use apt_base::Around;
pub use mirror::{BaseMirror, DeclaredMirror, ExecutableMirror, Mirror, PrimitiveKind};
pub use nesting::{annotation_depth, depth, value_depth};
pub use substitution::{are_distinct, substitute};
pub use value::{Annotation, NamedValue, Value, WholeKind};
