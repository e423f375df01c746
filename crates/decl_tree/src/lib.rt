//! The declarations of a compilation unit as a tree of texts (JLS 7.3 to 9.7): what a file declares, without the bodies of its members and with nothing resolved.
//!
//! Trees are plain data for contracts, so that `≡` compares two of them, and each type that is not `Copy` has `copy`, which gives an equal value or `NoMemory`. Each list is in the order of the source. `specs/Legal` says which units are legal; each `Unit` is, by its type.
//!
//! Not promised: that a legal unit comes from a file, or that its texts are identifiers.
#![tactic(auto)]

mod annotation;
mod compilation;
mod declaration;
mod member;
mod shared;
mod type_text;

pub use annotation::{AnnotationText, ElementValuePair, ValueText};
pub use apt_base::Around;
pub use compilation::{Body, Import, ImportKind, Unit, UnitText};
pub use declaration::{Member, TypeDecl, TypeKind};
pub use member::{ConstantDecl, ConstructorDecl, FieldDecl, MethodDecl, Param, TypeParam};
pub use shared::Shared;
pub use type_text::{BaseType, NamedPart, PrimitiveKind, TypeText};
