// Direct supertypes.
ghost use Rattle.std.specs.Prelude.{◌≡◌, ◌∷◌, [], Some, map, IfOk};
ghost use Rattle.type_mirror.specs.Parts.{plain};
ghost use Rattle.type_layers.specs.Layers as layers;
ghost use Rattle.type_layers.specs.Layers.{layer_in, mirror_of};
ghost use Rattle.type_relations.specs.Direct as directs;
ghost use Rattle.type_relations.specs.Direct.{of_array, of_layer, declared_direct, direct_in};
ghost use Rattle.type_relations.specs.Named.{bounds};
ghost use Rattle.type_relations.specs.RawTypes.{is_raw_with};

use crate::erasing::erasures;
use crate::headers::declared_supertypes;
use crate::named::{named_type, object};
use crate::parameter_bounds::bounds;
use crate::parts::array_of;
use crate::places::has_type_parameters;
use crate::replacing::replaced_by;
use apt_base::{ElementRef, List, MAX_TYPE_STEPS, NoMemory};
use element_table::{Part, Table};
use std::alloc::Global;
use type_mirror::{Around, BaseMirror, DeclaredMirror, Mirror, PrimitiveKind};

// ---- primitive types

#[tactic(auto, unfolding(type_layers::specs::Layers::mirror_of))]
fn only_primitive(alloc: Global, kind: PrimitiveKind) -> Result<List<Mirror>, NoMemory>
    ensures { IfOk result (λ list. list ≡ mirror_of (layers.Primitive kind) ∷ []) }
{
    let mut list = List::new(alloc);
    list.push(Mirror::plain(alloc, BaseMirror::Primitive(kind)))?;
    Ok(list)
}

fn wider_types(alloc: Global, kind: PrimitiveKind) -> Result<List<Mirror>, NoMemory>
    ensures { IfOk result (λ list. list ≡ directs.wider_types kind) }
{
    match kind {
        PrimitiveKind::Byte => only_primitive(alloc, PrimitiveKind::Short),
        PrimitiveKind::Short => only_primitive(alloc, PrimitiveKind::Int),
        PrimitiveKind::Char => only_primitive(alloc, PrimitiveKind::Int),
        PrimitiveKind::Int => only_primitive(alloc, PrimitiveKind::Long),
        PrimitiveKind::Long => only_primitive(alloc, PrimitiveKind::Float),
        PrimitiveKind::Float => only_primitive(alloc, PrimitiveKind::Double),
        PrimitiveKind::Double => Ok(List::new(alloc)),
        PrimitiveKind::Boolean => Ok(List::new(alloc)),
    }
}

fn of_primitive(alloc: Global, kind: PrimitiveKind) -> Result<Option<List<Mirror>>, NoMemory>
    ensures { IfOk result (λ list. list ≡ Some (directs.wider_types kind)) }
{
    let types = wider_types(alloc, kind)?;
    Ok(Some(types))
}

// ---- class types and type variables

fn is_raw(table: &Table, at: &ElementRef, arguments: &[Mirror]) -> bool
    ensures { result ≡ is_raw_with table.now at.now arguments.now }
{
    match arguments {
        [] => has_type_parameters(table, at),
        [_, ..] => false,
    }
}

fn of_declared(
    alloc: Global,
    table: &Table,
    of: &DeclaredMirror,
) -> Result<Option<List<Mirror>>, NoMemory>
    ensures { IfOk result (λ list. list ≡ declared_direct table.now of.now) }
{
    let types = declared_supertypes(alloc, table, &of.element)?;
    if is_raw(table, &of.element, of.arguments.as_slice()) {
        return erasures(alloc, table, MAX_TYPE_STEPS, types.as_slice());
    }
    let replaced = replaced_by(alloc, table, types.as_slice(), of)?;
    Ok(Some(replaced))
}

fn of_variable(
    alloc: Global,
    table: &Table,
    at: &ElementRef,
) -> Result<Option<List<Mirror>>, NoMemory>
    ensures { IfOk result (λ list. list ≡ Some (bounds table.now at.now)) }
{
    let types = bounds(alloc, table, at)?;
    Ok(Some(types))
}

// ---- arrays

fn three<T: Drop>(alloc: Global, one: T, two: T, three: T) -> Result<List<T>, NoMemory>
    ensures { IfOk result (λ list. list ≡ one ∷ two ∷ three ∷ []) }
{
    let mut list = List::new(alloc);
    list.push(one)?;
    list.push(two)?;
    list.push(three)?;
    Ok(list)
}

fn all_arrays_have(alloc: Global, table: &Table) -> Result<List<Mirror>, NoMemory>
    ensures { IfOk result (λ list. list ≡ directs.all_arrays_have table.now) }
{
    let object = object(alloc, table)?;
    let cloneable = named_type(alloc, table, Part::Source, "java.lang.Cloneable")?;
    let serializable = named_type(alloc, table, Part::Source, "java.io.Serializable")?;
    three(alloc, object, cloneable, serializable)
}

fn arrays_of(alloc: Global, items: &[Mirror]) -> Result<List<Mirror>, NoMemory>
    ensures { IfOk result (λ list. list ≡ map layers.array_of items.now) }
{
    let mut list = List::new(alloc);
    for each in items {
        let item = each.copy(alloc)?;
        let array = array_of(alloc, item)?;
        list.push(array)?;
    }
    Ok(list)
}

fn arrays_or(alloc: Global, table: &Table, items: &[Mirror]) -> Result<List<Mirror>, NoMemory>
    ensures { IfOk result (λ list. list ≡ directs.arrays_or (directs.all_arrays_have table.now) items.now) }
{
    match items {
        [] => all_arrays_have(alloc, table),
        [_, ..] => arrays_of(alloc, items),
    }
}

fn of_array(
    alloc: Global,
    table: &Table,
    is_primitive: bool,
    items: Option<List<Mirror>>,
) -> Result<Option<List<Mirror>>, NoMemory>
    ensures { IfOk result (λ list. list ≡ of_array table.now is_primitive items) }
{
    if is_primitive {
        let all = all_arrays_have(alloc, table)?;
        return Ok(Some(all));
    }
    match items {
        None => Ok(None),
        Some(items) => {
            let arrays = arrays_or(alloc, table, items.as_slice())?;
            Ok(Some(arrays))
        }
    }
}

fn is_primitive(around: &[Around], base: &BaseMirror) -> bool
    ensures { result ≡ directs.is_primitive (layer_in around.now base.now) }
{
    match around {
        [] => matches!(base, BaseMirror::Primitive(_)),
        [Around::Array, ..] => false,
        [Around::Extends, ..] => false,
        [Around::Super, ..] => false,
    }
}

// ---- all types

fn none(alloc: Global) -> Result<Option<List<Mirror>>, NoMemory>
    ensures { IfOk result (λ list. list ≡ Some []) }
{
    Ok(Some(List::new(alloc)))
}

#[tactic(auto, using(crate::proofs::DirectTypes::based))]
fn of_base(
    alloc: Global,
    table: &Table,
    base: &BaseMirror,
) -> Result<Option<List<Mirror>>, NoMemory>
    ensures { IfOk result (λ list. list ≡ of_layer table.now (plain base.now) (layer_in [] base.now)) }
{
    match base {
        BaseMirror::Primitive(kind) => of_primitive(alloc, *kind),
        BaseMirror::Declared(declared) => of_declared(alloc, table, declared),
        BaseMirror::Error(_) => none(alloc),
        BaseMirror::Variable(at) => of_variable(alloc, table, at),
        BaseMirror::Wildcard => none(alloc),
        BaseMirror::Executable(_) => none(alloc),
        BaseMirror::Nothing => none(alloc),
        BaseMirror::Void => none(alloc),
        BaseMirror::Null => none(alloc),
        BaseMirror::Package(_) => none(alloc),
    }
}

fn direct_in(
    alloc: Global,
    table: &Table,
    around: &[Around],
    base: &BaseMirror,
) -> Result<Option<List<Mirror>>, NoMemory>
    ensures { IfOk result (λ list. list ≡ direct_in table.now around.now base.now) }
{
    match around {
        [] => of_base(alloc, table, base),
        [Around::Array, more @ ..] => {
            let items = direct_in(alloc, table, more, base)?;
            of_array(alloc, table, is_primitive(more, base), items)
        }
        [Around::Extends, ..] => none(alloc),
        [Around::Super, ..] => none(alloc),
    }
}

/// The direct supertypes of a type (JLS 4.10.1 to 4.10.3), the superclass before the interfaces; `None` where those of a raw type have no erasure within 64 steps. The work is one look-up for each type in the header, and what is given has at most the size of the header times that of the type.
#[tactic(auto, unfolding(crate::specs::Direct::direct))]
pub fn direct(alloc: Global, table: &Table, of: &Mirror) -> Result<Option<List<Mirror>>, NoMemory>
    ensures { IfOk result (λ list. list ≡ directs.direct table.now of.now) }
{
    direct_in(alloc, table, of.around.as_slice(), &of.base)
}
