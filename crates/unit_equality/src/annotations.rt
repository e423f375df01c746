// Annotations and their values, as they are written.
ghost use Rattle.std.specs.Prelude.{◌≡◌, ◌↔◌, IsTrue};

use crate::texts::is_same_name;
use crate::types::is_same_type;
use decl_tree::{AnnotationText, ElementValuePair, ValueText};

#[cycle(values)]
fn is_same_annotation(one: &AnnotationText, other: &AnnotationText) -> bool
    ensures { IsTrue result ↔ one.now ≡ other.now }
{
    if !is_same_name(&one.name, &other.name) {
        return false;
    }
    are_same_pairs(one.values.as_slice(), other.values.as_slice())
}

#[cycle(values)]
fn are_same_pairs(ones: &[ElementValuePair], others: &[ElementValuePair]) -> bool
    ensures { IsTrue result ↔ ones.now ≡ others.now }
{
    if ones.len() != others.len() {
        return false;
    }
    for at in 0..ones.len() {
        if !is_same_pair(&ones[at], &others[at]) {
            return false;
        }
    }
    true
}

#[cycle(values)]
fn is_same_pair(one: &ElementValuePair, other: &ElementValuePair) -> bool
    ensures { IsTrue result ↔ one.now ≡ other.now }
{
    is_same_name(&one.name, &other.name) && is_same_value(&one.value, &other.value)
}

#[cycle(values)]
fn are_same_values(ones: &[ValueText], others: &[ValueText]) -> bool
    ensures { IsTrue result ↔ ones.now ≡ others.now }
{
    if ones.len() != others.len() {
        return false;
    }
    for at in 0..ones.len() {
        if !is_same_value(&ones[at], &others[at]) {
            return false;
        }
    }
    true
}

#[cycle(values)]
fn is_same_value(one: &ValueText, other: &ValueText) -> bool
    ensures { IsTrue result ↔ one.now ≡ other.now }
{
    match one {
        ValueText::Literal(text) => match other {
            ValueText::Literal(other) => is_same_name(text, other),
            _ => false,
        },
        ValueText::Negated(text) => match other {
            ValueText::Negated(other) => is_same_name(text, other),
            _ => false,
        },
        ValueText::Joined(items) => match other {
            ValueText::Joined(others) => are_same_values(items.as_slice(), others.as_slice()),
            _ => false,
        },
        ValueText::Class(of) => match other {
            ValueText::Class(other) => is_same_type(of, other),
            _ => false,
        },
        ValueText::Chain(text) => match other {
            ValueText::Chain(other) => is_same_name(text, other),
            _ => false,
        },
        ValueText::Array(items) => match other {
            ValueText::Array(others) => are_same_values(items.as_slice(), others.as_slice()),
            _ => false,
        },
        ValueText::Nested(annotation) => match other {
            ValueText::Nested(other) => is_same_annotation(annotation, other),
            _ => false,
        },
        ValueText::Other(text) => match other {
            ValueText::Other(other) => is_same_name(text, other),
            _ => false,
        },
    }
}

/// The same annotations, in the same order.
pub(crate) fn are_same_annotations(ones: &[AnnotationText], others: &[AnnotationText]) -> bool
    ensures { IsTrue result ↔ ones.now ≡ others.now }
{
    if ones.len() != others.len() {
        return false;
    }
    for at in 0..ones.len() {
        if !is_same_annotation(&ones[at], &others[at]) {
            return false;
        }
    }
    true
}

/// The same constant or default, or none.
pub(crate) fn is_same_constant(one: &Option<ValueText>, other: &Option<ValueText>) -> bool
    ensures { IsTrue result ↔ one.now ≡ other.now }
{
    match one {
        None => other.is_none(),
        Some(one) => match other {
            None => false,
            Some(other) => is_same_value(one, other),
        },
    }
}
