// Types as they are written.
ghost use Rattle.std.specs.Prelude.{◌≡◌, ◌↔◌, IsTrue};

use crate::texts::is_same_name;
use apt_base::is_same_around;
use decl_tree::{BaseType, NamedPart, PrimitiveKind, TypeText};

fn is_same_kind(one: &PrimitiveKind, other: &PrimitiveKind) -> bool
    ensures { IsTrue result ↔ one.now ≡ other.now }
{
    *one == *other
}

/// The same type, letter by letter: nothing is resolved.
#[cycle(types)]
pub fn is_same_type(one: &TypeText, other: &TypeText) -> bool
    ensures { IsTrue result ↔ one.now ≡ other.now }
{
    is_same_around(one.around.as_slice(), other.around.as_slice())
        && is_same_base(&one.base, &other.base)
}

#[cycle(types)]
fn is_same_base(one: &BaseType, other: &BaseType) -> bool
    ensures { IsTrue result ↔ one.now ≡ other.now }
{
    match one {
        BaseType::Primitive(kind) => match other {
            BaseType::Primitive(other) => is_same_kind(kind, other),
            _ => false,
        },
        BaseType::Named(parts) => match other {
            BaseType::Named(others) => are_same_parts(parts.as_slice(), others.as_slice()),
            _ => false,
        },
        BaseType::Wildcard => matches!(other, BaseType::Wildcard),
    }
}

#[cycle(types)]
fn are_same_parts(ones: &[NamedPart], others: &[NamedPart]) -> bool
    ensures { IsTrue result ↔ ones.now ≡ others.now }
{
    if ones.len() != others.len() {
        return false;
    }
    for at in 0..ones.len() {
        if !is_same_part(&ones[at], &others[at]) {
            return false;
        }
    }
    true
}

#[cycle(types)]
fn is_same_part(one: &NamedPart, other: &NamedPart) -> bool
    ensures { IsTrue result ↔ one.now ≡ other.now }
{
    if !is_same_name(&one.name, &other.name) {
        return false;
    }
    match &one.arguments {
        None => other.arguments.is_none(),
        Some(ones) => match &other.arguments {
            None => false,
            Some(others) => are_same_types(ones.as_slice(), others.as_slice()),
        },
    }
}

#[cycle(types)]
pub(crate) fn are_same_types(ones: &[TypeText], others: &[TypeText]) -> bool
    ensures { IsTrue result ↔ ones.now ≡ others.now }
{
    if ones.len() != others.len() {
        return false;
    }
    for at in 0..ones.len() {
        if !is_same_type(&ones[at], &others[at]) {
            return false;
        }
    }
    true
}

/// The same superclass, or none.
pub(crate) fn is_same_superclass(one: &Option<TypeText>, other: &Option<TypeText>) -> bool
    ensures { IsTrue result ↔ one.now ≡ other.now }
{
    match one {
        None => other.is_none(),
        Some(one) => match other {
            None => false,
            Some(other) => is_same_type(one, other),
        },
    }
}
