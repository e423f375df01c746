// The supertypes of a declaration as its header has them.
ghost use Rattle.std.specs.Prelude.{◌≡◌, ◌∷◌, ◌++◌, IfOk};
ghost use Rattle.decl_elements.specs.Shown.{node_of};
ghost use Rattle.decl_elements.specs.Written.{declaration_of};
ghost use Rattle.type_layers.specs.Layers.{layer};
ghost use Rattle.type_relations.specs.Elements as elements;
ghost use Rattle.type_relations.specs.Named as named;
ghost use Rattle.type_relations.specs.Named.{unless_nothing, or_object, header_types};

use crate::parameter_bounds::only_object;
use crate::places::place_of;
use apt_base::{ElementRef, List, NoMemory};
use decl_elements::Place;
use decl_tree::{Member, TypeKind};
use element_table::Table;
use std::alloc::Global;
use type_mirror::{BaseMirror, Mirror};
use type_resolve::{Resolver, is_type};

// ---- interfaces

fn is_interface_kind(kind: TypeKind) -> bool
    ensures { result ≡ elements.is_interface_kind kind }
{
    match kind {
        TypeKind::Interface => true,
        TypeKind::Class => false,
        TypeKind::Enum => false,
        TypeKind::AnnotationType => false,
    }
}

fn declares_interface(place: Place<'_>) -> bool
    ensures { result ≡ elements.declares_interface (declaration_of (node_of place.entry)) }
{
    match place {
        Place::Top(declaration) => is_interface_kind(declaration.kind),
        Place::Inside(_, member) => match member {
            Member::Nested(declaration) => is_interface_kind(declaration.kind),
            _ => false,
        },
        _ => false,
    }
}

fn is_interface(table: &Table, at: &ElementRef) -> bool
    ensures { result ≡ elements.is_interface table.now at.now }
{
    match place_of(table, at) {
        None => false,
        Some(place) => declares_interface(place),
    }
}

// ---- headers

#[tactic(auto, unfolding(type_layers::specs::Layers::layer))]
fn is_nothing(of: &Mirror) -> bool
    ensures { result ≡ named.is_nothing (layer of.now) }
{
    of.around.is_empty() && matches!(&of.base, BaseMirror::Nothing)
}

fn put_first<T: Drop>(first: T, others: List<T>) -> Result<List<T>, NoMemory>
    ensures { IfOk result (λ list. list ≡ first ∷ others) }
{
    let mut all = others.into_vec();
    all.insert(0, first)?;
    Ok(List::from_vec(all))
}

fn with_superclass(superclass: Mirror, interfaces: List<Mirror>) -> Result<List<Mirror>, NoMemory>
    ensures { IfOk result (λ list. list ≡ unless_nothing superclass ++ interfaces) }
{
    if is_nothing(&superclass) {
        return Ok(interfaces);
    }
    put_first(superclass, interfaces)
}

/// The superclass and the interfaces of a type, as `header_types` gives them.
#[tactic(auto, unfolding(crate::specs::Named::header_types))]
pub fn header_types_with(
    alloc: Global,
    resolver: &mut Resolver<'_>,
    at: &ElementRef,
) -> Result<List<Mirror>, NoMemory>
    ensures value { IfOk result (λ list. list ≡ header_types resolver.old at.now) }
    ensures kept { resolver.new ≡ resolver.old }
{
    if !is_type(resolver.table(), at) {
        return Ok(List::new(alloc));
    }
    let superclass = resolver.superclass(at)?;
    let interfaces = resolver.interfaces(at)?;
    with_superclass(superclass, interfaces)
}

/// The superclass of a type in the table, if it has one, and then its interfaces in order, as they are written or implied. `java.lang.Object` is none of an interface; what is no type has none.
pub fn header_types(alloc: Global, table: &Table, at: &ElementRef) -> Result<List<Mirror>, NoMemory>
    ensures { IfOk result (λ list. list ≡ header_types table.now at.now) }
{
    let mut resolver = Resolver::new(alloc, table);
    header_types_with(alloc, &mut resolver, at)
}

fn object_of_interface(
    alloc: Global,
    table: &Table,
    at: &ElementRef,
) -> Result<List<Mirror>, NoMemory>
    ensures { IfOk result (λ list. list ≡ named.object_of_interface table.now at.now) }
{
    if is_interface(table, at) {
        return only_object(alloc, table, at);
    }
    Ok(List::new(alloc))
}

fn or_object(
    alloc: Global,
    table: &Table,
    at: &ElementRef,
    types: List<Mirror>,
) -> Result<List<Mirror>, NoMemory>
    ensures { IfOk result (λ list. list ≡ or_object table.now at.now types) }
{
    if types.is_empty() {
        return object_of_interface(alloc, table, at);
    }
    Ok(types)
}

/// The supertypes of a type, as `declared_supertypes` gives them.
#[tactic(auto, unfolding(crate::specs::Named::declared_supertypes))]
pub fn declared_supertypes_with(
    alloc: Global,
    resolver: &mut Resolver<'_>,
    at: &ElementRef,
) -> Result<List<Mirror>, NoMemory>
    ensures value { IfOk result (λ list. list ≡ named.declared_supertypes resolver.old at.now) }
    ensures kept { resolver.new ≡ resolver.old }
{
    let types = header_types_with(alloc, resolver, at)?;
    or_object(alloc, resolver.table(), at, types)
}

/// The supertypes of a type in the table as its header has them, the superclass before the interfaces. An interface without any has `java.lang.Object`; what is no type has none.
pub fn declared_supertypes(
    alloc: Global,
    table: &Table,
    at: &ElementRef,
) -> Result<List<Mirror>, NoMemory>
    ensures { IfOk result (λ list. list ≡ named.declared_supertypes table.now at.now) }
{
    let mut resolver = Resolver::new(alloc, table);
    declared_supertypes_with(alloc, &mut resolver, at)
}
