// Constants of fields, and defaults of methods.
ghost use Rattle.std.specs.Prelude.{◌≡◌, Some, IfOk};
ghost use Rattle.decl_elements.specs.Shown.{node_of};
ghost use Rattle.name_resolve.specs.Meaning.{Within};
ghost use Rattle.name_resolve.specs.Mirrors.{type_meaning};
ghost use Rattle.name_resolve.specs.Placed.{IsPlaced};
ghost use Rattle.name_resolve.specs.Shown.{find_of};
ghost use Rattle.type_layers.specs.Layers.{layer};
ghost use Rattle.type_mirror.specs.declared.value.Value.{out-Value};
ghost use Rattle.type_relations.specs.Direct.{is_primitive};
ghost use Rattle.annotation_values.specs.ElementValues as elements;

use crate::elements::located;
use crate::texts::is_final;
use crate::values::Values;
use apt_base::{ElementRef, NoMemory};
use decl_elements::{Place, place_at};
use decl_tree::{FieldDecl, TypeText, ValueText};
use element_table::Table;
use name_resolve::Found;
use std::alloc::Global;
use type_mirror::{Around, BaseMirror, Mirror, Value};
use type_texts::text_of;

// ---- kinds of values and types

fn is_constant_kind(value: &Value) -> bool
    ensures { result ≡ elements.is_constant_kind (out-Value value.now) }
{
    match value {
        Value::Truth(_) => true,
        Value::Whole(_, _) => true,
        Value::Character(_) => true,
        Value::Text(_) => true,
        Value::Class(_) => false,
        Value::Constant(_) => false,
        Value::Array(_) => false,
        Value::Nested(_) => false,
        Value::Other(_) => false,
        Value::Floating(_) => true,
    }
}

fn constant_or_none(value: Value) -> Option<Value>
    ensures { result ≡ elements.constant_or_none value }
{
    if is_constant_kind(&value) {
        return Some(value);
    }
    None
}

#[tactic(auto, unfolding(type_layers::specs::Layers::layer))]
fn is_primitive(mirror: &Mirror) -> bool
    ensures { result ≡ is_primitive (layer mirror.now) }
{
    match mirror.around.as_slice() {
        [] => matches!(mirror.base, BaseMirror::Primitive(_)),
        [Around::Array, ..] => false,
        [Around::Extends, ..] => false,
        [Around::Super, ..] => false,
    }
}

fn is_text_type(text: &str) -> bool
    ensures { result ≡ elements.is_text_type text.now }
{
    text == "java.lang.String" || text == "String"
}

fn is_constant_type(alloc: Global, table: &Table, of: &Mirror) -> Result<bool, NoMemory>
    ensures { IfOk result (λ answer. answer ≡ elements.is_constant_type table.now of.now) }
{
    if is_primitive(of) {
        return Ok(true);
    }
    let text = text_of(alloc, table, of)?;
    Ok(is_text_type(text.as_str()))
}

// The same of a type as it is written there.
fn has_constant_type<'a>(
    values: &mut Values<'a>,
    at: &Found<'a>,
    of: &TypeText,
) -> Result<bool, NoMemory>
    requires placed { IsPlaced values.old (find_of at.now) }
    ensures value { IfOk result (λ answer. answer
        ≡ elements.is_constant_type values.old (type_meaning values.old (Within (find_of at.now)) of.now)) }
    ensures kept { values.new ≡ values.old }
{
    let mirror = values.written_type(at, of)?;
    let answer = is_constant_type(values.alloc, values.table(), &mirror);
    drop(mirror);
    answer
}

// ---- constants

fn constant_value<'a>(
    values: &mut Values<'a>,
    at: &Found<'a>,
    form: &ValueText,
) -> Result<Option<Value>, NoMemory>
    requires placed { IsPlaced values.old (find_of at.now) }
    ensures value { IfOk result (λ v. v ≡ elements.constant_value values.old (find_of at.now) form.now) }
    ensures kept { values.new ≡ values.old }
{
    let value = values.written_value(at, form)?;
    Ok(constant_or_none(value))
}

fn typed_constant<'a>(
    values: &mut Values<'a>,
    at: &Found<'a>,
    field: &FieldDecl,
) -> Result<Option<Value>, NoMemory>
    requires placed { IsPlaced values.old (find_of at.now) }
    ensures value { IfOk result
        (λ v. v ≡ elements.typed_constant values.old (find_of at.now) field.now) }
    ensures kept { values.new ≡ values.old }
{
    if !has_constant_type(values, at, &field.of)? {
        return Ok(None);
    }
    match &field.constant {
        None => Ok(None),
        Some(form) => {
            let value = constant_value(values, at, form)?;
            Ok(value)
        }
    }
}

fn constant_at<'a>(
    values: &mut Values<'a>,
    at: &Found<'a>,
    place: Place<'a>,
) -> Result<Option<Value>, NoMemory>
    requires placed { IsPlaced values.old (find_of at.now) }
    ensures value { IfOk result
        (λ v. v ≡ elements.constant_at values.old (find_of at.now) (node_of place.entry)) }
    ensures kept { values.new ≡ values.old }
{
    if !is_final(place) {
        return Ok(None);
    }
    match place.field() {
        None => Ok(None),
        Some(field) => {
            let value = typed_constant(values, at, field)?;
            Ok(value)
        }
    }
}

/// The value of a constant variable.
#[tactic(auto, using(crate::proofs::ElementLemmas::constants))]
pub(crate) fn constant_of(
    values: &mut Values<'_>,
    at: &ElementRef,
) -> Result<Option<Value>, NoMemory>
    ensures value { IfOk result (λ value. value ≡ elements.constant_of values.old at.now) }
    ensures kept { values.new ≡ values.old }
{
    match located(values, at)? {
        None => Ok(None),
        Some(found) => match place_at(found.unit, found.path.as_slice()) {
            None => Ok(None),
            Some(place) => {
                let value = constant_at(values, &found, place)?;
                Ok(value)
            }
        },
    }
}

// ---- defaults

/// The default that is written at this place.
pub(crate) fn default_at<'a>(
    values: &mut Values<'a>,
    at: &Found<'a>,
    place: Place<'a>,
) -> Result<Option<Value>, NoMemory>
    requires placed { IsPlaced values.old (find_of at.now) }
    ensures value { IfOk result
        (λ v. v ≡ elements.default_at values.old (find_of at.now) (Some (node_of place.entry))) }
    ensures kept { values.new ≡ values.old }
{
    match place.default() {
        None => Ok(None),
        Some(form) => {
            let value = values.written_value(at, form)?;
            Ok(Some(value))
        }
    }
}

/// The default of a method.
#[tactic(auto, using(crate::proofs::ElementLemmas::method_defaults))]
pub(crate) fn default_of(
    values: &mut Values<'_>,
    at: &ElementRef,
) -> Result<Option<Value>, NoMemory>
    ensures value { IfOk result (λ value. value ≡ elements.default_of values.old at.now) }
    ensures kept { values.new ≡ values.old }
{
    match located(values, at)? {
        None => Ok(None),
        Some(found) => match place_at(found.unit, found.path.as_slice()) {
            None => Ok(None),
            Some(place) => {
                let value = default_at(values, &found, place)?;
                Ok(value)
            }
        },
    }
}
