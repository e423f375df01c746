// Direct supertypes by numbers.
ghost use Rattle.std.specs.Prelude.{◌≡◌, [], Some, unwrap_or, IfOk};
ghost use Rattle.type_numbers.specs.Numbers.{IsKnown, AreKnown, AllStand, Grows};
ghost use Rattle.type_relations.specs.Direct as directs;
ghost use Rattle.type_numbers.specs.Replaced.{AreKnownIn, all_replaced};
ghost use Rattle.type_steps.specs.Arrays.{array_types};
ghost use Rattle.type_steps.specs.Supertypes.{AllMayStand, direct_at, item_at, header_at, in_array};

use crate::adding::{add_all, add_each};
use crate::arrays::{is_primitive, item_of};
use crate::entries::replacements;
use crate::raw::is_raw_with;
use apt_base::{ElementRef, List, NoMemory};
use element_table::Table;
use std::alloc::Global;
use type_mirror::{BaseMirror, Mirror, PrimitiveKind};
use type_numbers::{Node, Types, substitute};
use type_relations::{array_of, class_type, declared_supertypes_with, direct};
use type_resolve::Resolver;

// Of a type that is small as a tree.
fn of_mirror(
    alloc: Global,
    table: &Table,
    types: &mut Types,
    of: &Mirror,
) -> Result<Option<List<usize>>, NoMemory>
    ensures stands { IfOk result (λ n. AllMayStand types.new n (directs.direct table.now of.now)) }
    ensures grows { Grows types.old types.new }
{
    let mirrors = direct(alloc, table, of)?;
    add_all(alloc, types, &mirrors)
}

// ---- class types

fn substitute_each(
    alloc: Global,
    types: &mut Types,
    by: &[(ElementRef, usize)],
    numbers: &[usize],
) -> Result<List<usize>, NoMemory>
    requires known { AreKnown types.old numbers.now }
    requires by { AreKnownIn types.old by.now }
    ensures stands { IfOk result (λ n. AllStand types.new n (all_replaced types.old by.now numbers.now)) }
    ensures grows { Grows types.old types.new }
{
    let mut list = List::new(alloc);
    for number in numbers {
        let one = substitute(alloc, types, by, *number)?;
        list.push(one)?;
    }
    Ok(list)
}

// What the header has, with what the class type puts in the place of type parameters.
fn of_header(
    alloc: Global,
    resolver: &mut Resolver<'_>,
    types: &mut Types,
    element: ElementRef,
    number: usize,
) -> Result<List<usize>, NoMemory>
    requires { IsKnown types.old number }
    ensures stands { IfOk result (λ n. AllStand types.new n (header_at resolver.old types.old element number)) }
    ensures grows { Grows types.old types.new }
    ensures kept { resolver.new ≡ resolver.old }
{
    let table = resolver.table();
    let header = declared_supertypes_with(alloc, resolver, &element)?;
    let by = replacements(alloc, table, types, number)?;
    let numbers = add_each(alloc, types, header.as_slice())?;
    substitute_each(alloc, types, by.as_slice(), numbers.as_slice())
}

// ---- arrays

// What all arrays have, as one of a primitive type has it.
fn of_all_arrays(
    alloc: Global,
    table: &Table,
    types: &mut Types,
) -> Result<Option<List<usize>>, NoMemory>
    ensures stands { IfOk result (λ n. AllMayStand types.new n (Some (directs.all_arrays_have table.now))) }
    ensures grows { Grows types.old types.new }
{
    let item = Mirror::plain(alloc, BaseMirror::Primitive(PrimitiveKind::Boolean));
    let array = array_of(alloc, item)?;
    of_mirror(alloc, table, types, &array)
}

fn arrays_of(alloc: Global, types: &mut Types, items: &[usize]) -> Result<List<usize>, NoMemory>
    requires { AreKnown types.old items.now }
    ensures stands { IfOk result (λ n. AllStand types.new n (array_types types.old items.now)) }
    ensures grows { Grows types.old types.new }
{
    let mut list = List::new(alloc);
    for item in items {
        let one = types.intern(Node::Array(*item))?;
        list.push(one)?;
    }
    Ok(list)
}

// By whether the item is primitive, and by all that the item has.
fn of_array(
    alloc: Global,
    table: &Table,
    types: &mut Types,
    primitive: bool,
    all: Option<List<usize>>,
) -> Result<Option<List<usize>>, NoMemory>
    requires { AreKnown types.old (unwrap_or all []) }
    ensures stands { IfOk result (λ n. AllMayStand types.new n (in_array table.now types.old primitive all)) }
    ensures grows { Grows types.old types.new }
{
    if primitive {
        return of_all_arrays(alloc, table, types);
    }
    match all {
        None => Ok(None),
        Some(items) => {
            if items.is_empty() {
                return of_all_arrays(alloc, table, types);
            }
            let arrays = arrays_of(alloc, types, items.as_slice())?;
            Ok(Some(arrays))
        }
    }
}

// ---- all types

// Of what is no array.
fn of_item(
    alloc: Global,
    resolver: &mut Resolver<'_>,
    types: &mut Types,
    number: usize,
) -> Result<Option<List<usize>>, NoMemory>
    requires { IsKnown types.old number }
    ensures stands { IfOk result (λ n. AllMayStand types.new n (item_at resolver.old types.old number)) }
    ensures grows { Grows types.old types.new }
    ensures kept { resolver.new ≡ resolver.old }
{
    let table = resolver.table();
    let node = types.node(number).copy(alloc)?;
    match node {
        Node::Primitive(kind) => {
            let mirror = Mirror::plain(alloc, BaseMirror::Primitive(kind));
            of_mirror(alloc, table, types, &mirror)
        }
        Node::Variable(element) => {
            let mirror = Mirror::plain(alloc, BaseMirror::Variable(element));
            of_mirror(alloc, table, types, &mirror)
        }
        Node::Declared(element, _, arguments) => {
            if is_raw_with(table, &element, arguments.as_slice()) {
                let mirror = class_type(alloc, element, List::new(alloc));
                return of_mirror(alloc, table, types, &mirror);
            }
            let supertypes = of_header(alloc, resolver, types, element, number)?;
            Ok(Some(supertypes))
        }
        _ => Ok(Some(List::new(alloc))),
    }
}

/// The numbers of the direct supertypes of the type with this number, as `direct_of` gives them.
pub fn direct_with(
    alloc: Global,
    resolver: &mut Resolver<'_>,
    types: &mut Types,
    number: usize,
) -> Result<Option<List<usize>>, NoMemory>
    requires { IsKnown types.old number }
    ensures stands { IfOk result (λ n. AllMayStand types.new n (direct_at resolver.old types.old number)) }
    ensures grows { Grows types.old types.new }
    ensures kept { resolver.new ≡ resolver.old }
{
    let table = resolver.table();
    let (around, item) = item_of(types, number);
    let mut primitive = is_primitive(types, item);
    let mut all = of_item(alloc, resolver, types, item)?;
    for _ in 0..around {
        all = of_array(alloc, table, types, primitive, all)?;
        primitive = false;
    }
    Ok(all)
}

/// The numbers of the direct supertypes of the type with this number (JLS 4.10.1 to 4.10.3), the superclass before the interfaces; `None` where those of a raw type have no erasure within 64 steps. Each is added where it is not there, and each number that was given before still has the same type.
pub fn direct_of(
    alloc: Global,
    table: &Table,
    types: &mut Types,
    number: usize,
) -> Result<Option<List<usize>>, NoMemory>
    requires { IsKnown types.old number }
    ensures stands { IfOk result (λ n. AllMayStand types.new n (direct_at table.now types.old number)) }
    ensures grows { Grows types.old types.new }
{
    let mut resolver = Resolver::new(alloc, table);
    direct_with(alloc, &mut resolver, types, number)
}
