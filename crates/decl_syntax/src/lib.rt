//! The one spelling of each unit of declarations in bytes, its shape, both ways.
//!
//! `specs/Shape` spells each form by cases, and `specs/Shapes` says what a shape is; the tree and what is legal of it stand in `decl_tree`, the fields in `apt_base`, and both are handed on here. `shape` and `parse_shape` are inverse on all units, with no premise, since each `Unit` is legal by its type.
//!
//! Any number of brackets and wildcards is read and written without recursion; what nests is bounded by what is legal.
//!
//! Not promised: that memory is there.
#![tactic(auto)]

mod annotation_reading;
mod annotation_writing;
mod import;
mod in_unit;
mod member_reading;
mod member_writing;
mod parameter;
mod type_reading;
mod type_writing;
mod unit_reading;
mod unit_writing;

pub use apt_base::{
    Boxed, Claim, ElementRef, FieldReader, FieldWriter, FormFault as ShapeFault, Kind, List, Name,
    NoMemory, What, is_dotted, is_identifier, is_pattern,
};
pub use decl_tree::{
    AnnotationText, Around, BaseType, Body, ConstantDecl, ConstructorDecl, ElementValuePair,
    FieldDecl, Import, ImportKind, Member, MethodDecl, NamedPart, Param, PrimitiveKind, TypeDecl,
    TypeKind, TypeParam, TypeText, Unit, UnitText, ValueText,
};
pub use unit_reading::parse_shape;
pub use unit_writing::shape;
