// The bounds of type parameters.
ghost use Rattle.std.specs.Prelude.{◌≡◌, Some, IfOk};
ghost use Rattle.decl_elements.specs.Shown.{node_of};
ghost use Rattle.type_relations.specs.Named as named;
ghost use Rattle.type_relations.specs.Named.{written_bounds, bounds_or_object, object_at};
ghost use Rattle.type_resolve.specs.Scopes.{IsElement};

use crate::named::object_at;
use crate::places::place_of;
use apt_base::{ElementRef, List, NoMemory};
use decl_elements::Place;
use decl_tree::TypeText;
use element_table::Table;
use std::alloc::Global;
use type_mirror::Mirror;
use type_resolve::{Resolver, resolve_type};

/// The types that several texts mean in an element, as `written_types` gives them.
pub fn written_types_with(
    alloc: Global,
    resolver: &mut Resolver<'_>,
    at: &ElementRef,
    texts: &[TypeText],
) -> Result<List<Mirror>, NoMemory>
    requires { IsElement resolver.old at.now }
    ensures value { IfOk result (λ list. list ≡ named.written_types resolver.old at.now texts.now) }
    ensures kept { resolver.new ≡ resolver.old }
{
    let mut list = List::new(alloc);
    for each in texts {
        let one = resolver.resolve_type(at, each)?;
        list.push(one)?;
    }
    Ok(list)
}

/// The types that several texts mean in an element of the table, which it is as a condition.
pub fn written_types(
    alloc: Global,
    table: &Table,
    at: &ElementRef,
    texts: &[TypeText],
) -> Result<List<Mirror>, NoMemory>
    requires { IsElement table.now at.now }
    ensures { IfOk result (λ list. list ≡ named.written_types table.now at.now texts.now) }
{
    let mut resolver = Resolver::new(alloc, table);
    written_types_with(alloc, &mut resolver, at, texts)
}

fn bounds_of<'a>(place: Place<'a>) -> &'a [TypeText]
    ensures { result.now ≡ written_bounds (Some (node_of place.entry)) }
{
    match place {
        Place::TypeParameter(parameter) => parameter.bounds.as_slice(),
        _ => &[],
    }
}

/// `java.lang.Object` alone, as the unit of an element meets it.
pub(crate) fn only_object(
    alloc: Global,
    table: &Table,
    at: &ElementRef,
) -> Result<List<Mirror>, NoMemory>
    ensures { IfOk result (λ list. list ≡ named.only_object table.now at.now) }
{
    let object = object_at(alloc, table, at)?;
    let mut list = List::new(alloc);
    list.push(object)?;
    Ok(list)
}

fn bounds_or_object(
    alloc: Global,
    table: &Table,
    at: &ElementRef,
    texts: &[TypeText],
) -> Result<List<Mirror>, NoMemory>
    requires { IsElement table.now at.now }
    ensures { IfOk result (λ list. list ≡ bounds_or_object table.now at.now texts.now) }
{
    match texts {
        [] => only_object(alloc, table, at),
        [_, ..] => written_types(alloc, table, at, texts),
    }
}

/// The bounds of the type parameter `at` in the order in which they are written (JLS 4.4): where none is written, or no
/// type parameter is there, `java.lang.Object` alone, or its error type where the table has no such class. Out of memory
/// where the list could not be made.
#[tactic(auto, using(crate::proofs::BoundsOfElements::bounds_found))]
pub fn bounds(alloc: Global, table: &Table, at: &ElementRef) -> Result<List<Mirror>, NoMemory>
    ensures { IfOk result (λ list. list ≡ named.bounds table.now at.now) }
{
    match place_of(table, at) {
        None => only_object(alloc, table, at),
        Some(place) => bounds_or_object(alloc, table, at, bounds_of(place)),
    }
}

fn first_of(
    alloc: Global,
    table: &Table,
    at: &ElementRef,
    texts: &[TypeText],
) -> Result<Mirror, NoMemory>
    requires { IsElement table.now at.now }
    ensures { IfOk result (λ m. m ≡ named.first_of table.now at.now texts.now) }
{
    match texts {
        [] => object_at(alloc, table, at),
        [first, ..] => resolve_type(alloc, table, at, first),
    }
}

/// The first bound of a type parameter.
#[tactic(auto, using(crate::proofs::BoundsOfElements::bounds_found))]
pub(crate) fn first_bound(alloc: Global, table: &Table, at: &ElementRef) -> Result<Mirror, NoMemory>
    ensures { IfOk result (λ m. m ≡ named.first_bound table.now at.now) }
{
    match place_of(table, at) {
        None => object_at(alloc, table, at),
        Some(place) => first_of(alloc, table, at, bounds_of(place)),
    }
}
