// Members that are no types.
ghost use Rattle.std.specs.Prelude.{◌≡◌, ◌↔◌, IsTrue};

use crate::annotations::{are_same_annotations, is_same_constant};
use crate::parameters::{are_same_params, are_same_type_params};
use crate::texts::{is_same_doc, is_same_name};
use crate::types::{are_same_types, is_same_type};
use decl_tree::{ConstantDecl, ConstructorDecl, FieldDecl, MethodDecl};

pub(crate) fn is_same_field(one: &FieldDecl, other: &FieldDecl) -> bool
    ensures { IsTrue result ↔ one.now ≡ other.now }
{
    is_same_name(&one.name, &other.name)
        && one.modifiers == other.modifiers
        && are_same_annotations(one.annotations.as_slice(), other.annotations.as_slice())
        && is_same_doc(&one.doc, &other.doc)
        && is_same_type(&one.of, &other.of)
        && is_same_constant(&one.constant, &other.constant)
}

pub(crate) fn is_same_method(one: &MethodDecl, other: &MethodDecl) -> bool
    ensures { IsTrue result ↔ one.now ≡ other.now }
{
    is_same_name(&one.name, &other.name)
        && one.modifiers == other.modifiers
        && are_same_annotations(one.annotations.as_slice(), other.annotations.as_slice())
        && is_same_doc(&one.doc, &other.doc)
        && are_same_type_params(one.parameters.as_slice(), other.parameters.as_slice())
        && is_same_type(&one.result, &other.result)
        && are_same_params(one.arguments.as_slice(), other.arguments.as_slice())
        && one.varargs == other.varargs
        && are_same_types(one.thrown.as_slice(), other.thrown.as_slice())
        && is_same_constant(&one.default, &other.default)
}

pub(crate) fn is_same_constructor(one: &ConstructorDecl, other: &ConstructorDecl) -> bool
    ensures { IsTrue result ↔ one.now ≡ other.now }
{
    one.modifiers == other.modifiers
        && are_same_annotations(one.annotations.as_slice(), other.annotations.as_slice())
        && is_same_doc(&one.doc, &other.doc)
        && are_same_type_params(one.parameters.as_slice(), other.parameters.as_slice())
        && are_same_params(one.arguments.as_slice(), other.arguments.as_slice())
        && one.varargs == other.varargs
        && are_same_types(one.thrown.as_slice(), other.thrown.as_slice())
}

pub(crate) fn is_same_enum_constant(one: &ConstantDecl, other: &ConstantDecl) -> bool
    ensures { IsTrue result ↔ one.now ≡ other.now }
{
    is_same_name(&one.name, &other.name)
        && are_same_annotations(one.annotations.as_slice(), other.annotations.as_slice())
        && is_same_doc(&one.doc, &other.doc)
        && one.body == other.body
}
