// Type parameters and parameters.
ghost use Rattle.std.specs.Prelude.{◌≡◌, ◌↔◌, IsTrue};

use crate::annotations::are_same_annotations;
use crate::texts::is_same_name;
use crate::types::{are_same_types, is_same_type};
use decl_tree::{Param, TypeParam};

fn is_same_type_param(one: &TypeParam, other: &TypeParam) -> bool
    ensures { IsTrue result ↔ one.now ≡ other.now }
{
    is_same_name(&one.name, &other.name)
        && are_same_annotations(one.annotations.as_slice(), other.annotations.as_slice())
        && are_same_types(one.bounds.as_slice(), other.bounds.as_slice())
}

/// The same type parameters, in the same order.
pub(crate) fn are_same_type_params(ones: &[TypeParam], others: &[TypeParam]) -> bool
    ensures { IsTrue result ↔ ones.now ≡ others.now }
{
    if ones.len() != others.len() {
        return false;
    }
    for at in 0..ones.len() {
        if !is_same_type_param(&ones[at], &others[at]) {
            return false;
        }
    }
    true
}

fn is_same_param(one: &Param, other: &Param) -> bool
    ensures { IsTrue result ↔ one.now ≡ other.now }
{
    is_same_name(&one.name, &other.name)
        && one.modifiers == other.modifiers
        && are_same_annotations(one.annotations.as_slice(), other.annotations.as_slice())
        && is_same_type(&one.of, &other.of)
}

/// The same parameters, in the same order.
pub(crate) fn are_same_params(ones: &[Param], others: &[Param]) -> bool
    ensures { IsTrue result ↔ ones.now ≡ others.now }
{
    if ones.len() != others.len() {
        return false;
    }
    for at in 0..ones.len() {
        if !is_same_param(&ones[at], &others[at]) {
            return false;
        }
    }
    true
}
