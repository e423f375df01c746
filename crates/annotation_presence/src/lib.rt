//! Which annotations an element of a table has: those that are directly present on it, and those that a class
//! inherits (JLS 9.6.4.3; JSR 269, `Elements.getAllAnnotationMirrors`).
//!
//! `specs/Carried` says when an annotation is present. Its name is looked up where it is written, and only one
//! that means an annotation interface of the table counts, `java.lang.annotation.Inherited` too. `specs/Shown`
//! says how contracts see a `Carried`.
//!
//! A name is looked up once for each type in which it is written, and once more on each element that declares a
//! type parameter of that name.
//!
//! Not promised: that memory is there.
#![tactic(auto)]

mod carried;
mod meanings;
mod presence;
mod superclasses;

pub use carried::Carried;
pub use presence::Presence;
