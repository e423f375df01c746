// Boxing and unboxing.
ghost use Rattle.std.specs.Prelude.{◌≡◌, [], IfOk};
ghost use Rattle.type_layers.specs.Layers.{layer_in};
ghost use Rattle.type_relations.specs.Boxed as boxes;
ghost use Rattle.type_relations.specs.Boxed.{box_name, box_of, primitive_in, primitive_of, boxed_kind};

use crate::named::named_type;
use apt_base::NoMemory;
use element_table::{Part, Table};
use std::alloc::Global;
use type_layers::is_same;
use type_mirror::{Around, BaseMirror, Mirror, PrimitiveKind};

fn box_name(kind: PrimitiveKind) -> &'static str
    ensures { result.now ≡ box_name kind }
{
    match kind {
        PrimitiveKind::Boolean => "java.lang.Boolean",
        PrimitiveKind::Byte => "java.lang.Byte",
        PrimitiveKind::Short => "java.lang.Short",
        PrimitiveKind::Int => "java.lang.Integer",
        PrimitiveKind::Long => "java.lang.Long",
        PrimitiveKind::Char => "java.lang.Character",
        PrimitiveKind::Float => "java.lang.Float",
        PrimitiveKind::Double => "java.lang.Double",
    }
}

/// The box of a primitive type, or the error type with its name.
pub fn box_of(alloc: Global, table: &Table, kind: PrimitiveKind) -> Result<Mirror, NoMemory>
    ensures { IfOk result (λ m. m ≡ box_of table.now kind) }
{
    named_type(alloc, table, Part::Source, box_name(kind))
}

// ---- primitive types

fn primitive_base(base: &BaseMirror) -> Option<PrimitiveKind>
    ensures { result ≡ primitive_in (layer_in [] base.now) }
{
    match base {
        BaseMirror::Primitive(kind) => Some(*kind),
        _ => None,
    }
}

/// Which primitive type it is, if it is one. It takes no memory.
#[tactic(auto, unfolding(type_layers::specs::Layers::layer))]
pub fn primitive_of(of: &Mirror) -> Option<PrimitiveKind>
    ensures { result ≡ primitive_of of.now }
{
    match of.around.as_slice() {
        [Around::Array, ..] => None,
        [Around::Extends, ..] => None,
        [Around::Super, ..] => None,
        [] => primitive_base(&of.base),
    }
}

// ---- boxes

fn is_box(alloc: Global, table: &Table, of: &Mirror, kind: PrimitiveKind) -> Result<bool, NoMemory>
    ensures { IfOk result (λ is. is ≡ boxes.is_box table.now of.now kind) }
{
    let one = box_of(alloc, table, kind)?;
    Ok(is_same(&one, of))
}

/// The primitive type of which it is the box, if it is one.
#[tactic(auto, using(crate::proofs::BoxesOfTypes::finding))]
pub fn boxed_kind(
    alloc: Global,
    table: &Table,
    of: &Mirror,
) -> Result<Option<PrimitiveKind>, NoMemory>
    ensures { IfOk result (λ kind. kind ≡ boxed_kind table.now of.now) }
{
    if is_box(alloc, table, of, PrimitiveKind::Boolean)? {
        return Ok(Some(PrimitiveKind::Boolean));
    }
    if is_box(alloc, table, of, PrimitiveKind::Byte)? {
        return Ok(Some(PrimitiveKind::Byte));
    }
    if is_box(alloc, table, of, PrimitiveKind::Short)? {
        return Ok(Some(PrimitiveKind::Short));
    }
    if is_box(alloc, table, of, PrimitiveKind::Int)? {
        return Ok(Some(PrimitiveKind::Int));
    }
    if is_box(alloc, table, of, PrimitiveKind::Long)? {
        return Ok(Some(PrimitiveKind::Long));
    }
    if is_box(alloc, table, of, PrimitiveKind::Char)? {
        return Ok(Some(PrimitiveKind::Char));
    }
    if is_box(alloc, table, of, PrimitiveKind::Float)? {
        return Ok(Some(PrimitiveKind::Float));
    }
    if is_box(alloc, table, of, PrimitiveKind::Double)? {
        return Ok(Some(PrimitiveKind::Double));
    }
    Ok(None)
}
