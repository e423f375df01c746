// Types with their members, and units.
ghost use Rattle.std.specs.Prelude.{◌≡◌, ◌↔◌, IsTrue};
ghost use Rattle.decl_syntax.specs.Shape.{unit_form};

use crate::annotations::are_same_annotations;
use crate::members::{is_same_constructor, is_same_enum_constant, is_same_field, is_same_method};
use crate::parameters::are_same_type_params;
use crate::texts::{are_same_names, is_same_doc, is_same_name};
use crate::types::{are_same_types, is_same_superclass};
use decl_tree::{Body, Import, ImportKind, Member, TypeDecl, TypeKind, Unit, UnitText};

fn is_same_kind(one: &TypeKind, other: &TypeKind) -> bool
    ensures { IsTrue result ↔ one.now ≡ other.now }
{
    *one == *other
}

fn is_same_number(one: u16, other: u16) -> bool
    ensures { IsTrue result ↔ one ≡ other }
{
    one == other
}

#[cycle(declarations)]
fn is_same_declaration(one: &TypeDecl, other: &TypeDecl) -> bool
    ensures { IsTrue result ↔ one.now ≡ other.now }
{
    if !is_same_kind(&one.kind, &other.kind) {
        return false;
    }
    if !is_same_name(&one.name, &other.name) {
        return false;
    }
    if !is_same_number(one.modifiers, other.modifiers) {
        return false;
    }
    if !are_same_annotations(one.annotations.as_slice(), other.annotations.as_slice()) {
        return false;
    }
    if !is_same_doc(&one.doc, &other.doc) {
        return false;
    }
    if !are_same_type_params(one.parameters.as_slice(), other.parameters.as_slice()) {
        return false;
    }
    if !is_same_superclass(&one.superclass, &other.superclass) {
        return false;
    }
    if !are_same_types(one.interfaces.as_slice(), other.interfaces.as_slice()) {
        return false;
    }
    are_same_members(one.members.as_slice(), other.members.as_slice())
}

#[cycle(declarations)]
fn are_same_members(ones: &[Member], others: &[Member]) -> bool
    ensures { IsTrue result ↔ ones.now ≡ others.now }
{
    if ones.len() != others.len() {
        return false;
    }
    for at in 0..ones.len() {
        if !is_same_member(&ones[at], &others[at]) {
            return false;
        }
    }
    true
}

#[cycle(declarations)]
fn is_same_member(one: &Member, other: &Member) -> bool
    ensures { IsTrue result ↔ one.now ≡ other.now }
{
    match one {
        Member::Field(field) => match other {
            Member::Field(other) => is_same_field(field, other),
            _ => false,
        },
        Member::Method(method) => match other {
            Member::Method(other) => is_same_method(method, other),
            _ => false,
        },
        Member::Constructor(constructor) => match other {
            Member::Constructor(other) => is_same_constructor(constructor, other),
            _ => false,
        },
        Member::Constant(constant) => match other {
            Member::Constant(other) => is_same_enum_constant(constant, other),
            _ => false,
        },
        Member::Nested(declaration) => match other {
            Member::Nested(other) => is_same_declaration(declaration, other),
            _ => false,
        },
    }
}

fn is_same_import_kind(one: &ImportKind, other: &ImportKind) -> bool
    ensures { IsTrue result ↔ one.now ≡ other.now }
{
    *one == *other
}

fn is_same_import(one: &Import, other: &Import) -> bool
    ensures { IsTrue result ↔ one.now ≡ other.now }
{
    is_same_import_kind(&one.kind, &other.kind) && is_same_name(&one.name, &other.name)
}

fn are_same_imports(ones: &[Import], others: &[Import]) -> bool
    ensures { IsTrue result ↔ ones.now ≡ others.now }
{
    if ones.len() != others.len() {
        return false;
    }
    for at in 0..ones.len() {
        if !is_same_import(&ones[at], &others[at]) {
            return false;
        }
    }
    true
}

fn is_same_body(one: &Body, other: &Body) -> bool
    ensures { IsTrue result ↔ one.now ≡ other.now }
{
    match one {
        Body::Declared(declaration) => match other {
            Body::Declared(other) => is_same_declaration(declaration, other),
            _ => false,
        },
        Body::Info(annotations, doc) => match other {
            Body::Info(others, other) => {
                are_same_annotations(annotations.as_slice(), others.as_slice())
                    && is_same_doc(doc, other)
            }
            _ => false,
        },
    }
}

fn is_same_text(one: &UnitText, other: &UnitText) -> bool
    ensures { IsTrue result ↔ one.now ≡ other.now }
{
    is_same_name(&one.package, &other.package)
        && are_same_imports(one.imports.get().as_slice(), other.imports.get().as_slice())
        && are_same_names(
            one.siblings.get().as_slice(),
            other.siblings.get().as_slice(),
        )
        && is_same_body(&one.body, &other.body)
}

/// Whether the two units are equal, and so whether their shapes are. It takes no memory.
pub fn is_equal(one: &Unit, other: &Unit) -> bool
    ensures exact { IsTrue result ↔ one.now ≡ other.now }
    ensures shapes { IsTrue result ↔ unit_form one.now ≡ unit_form other.now }
{
    is_same_text(one.text(), other.text())
}
