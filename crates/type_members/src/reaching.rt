// Whether a type is reached from another one by direct supertypes, as elements: each type that is reached is looked at once.
ghost use Rattle.std.specs.Prelude.{◌≡◌, ◌∷◌, [], ◌↔◌, None, IsTrue, IfOk, OnOk};
ghost use Rattle.type_elements.specs.MemberElements.{class_element};
ghost use Rattle.type_layers.specs.Layers.{declared_mirror};
ghost use Rattle.type_numbers.specs.Numbers.{at, IsKnown, AreKnown, Stands, AllStand, Grows};
ghost use Rattle.type_members.specs.Gathered.{Adds, AddsEach, AddsSteps};
ghost use Rattle.type_members.specs.Reached.{types_from, IsReached, is_reached};

use crate::levels::Level;
use crate::member_types::{is_of, number_of};
use apt_base::{ElementRef, List, NoMemory};
use element_table::Table;
use std::alloc::Global;
use type_numbers::{Node, Types};
use type_resolve::is_type;
use type_steps::direct_of;

// How many types are looked at.
const MOST_REACHED: usize = 65536;

// The element of a class type.
fn class_element(
    alloc: Global,
    types: &Types,
    number: usize,
) -> Result<Option<ElementRef>, NoMemory>
    requires { IsKnown types.now number }
    ensures { IfOk result (λ element. element ≡ class_element (at types.now number)) }
{
    match types.node(number) {
        Node::Declared(element, _, _) => Ok(Some(element.copy(alloc)?)),
        _ => Ok(None),
    }
}

// A class type of an element, the same one for each element.
#[tactic(auto, unfolding(type_layers::specs::Layers::mirror_of))]
fn bare_class(alloc: Global, types: &mut Types, element: ElementRef) -> Result<usize, NoMemory>
    ensures stands { IfOk result (λ n. Stands types.new n (declared_mirror element None [])) }
    ensures grows { Grows types.old types.new }
{
    types.intern(Node::Declared(element, None, List::new(alloc)))
}

// The direct supertypes of the type of a type.
fn types_from(
    alloc: Global,
    table: &Table,
    types: &mut Types,
    at: &ElementRef,
) -> Result<List<usize>, NoMemory>
    ensures stands { IfOk result (λ n. AllStand types.new n (types_from table.now at.now)) }
    ensures grows { Grows types.old types.new }
{
    if !is_type(table, at) {
        return Ok(List::new(alloc));
    }
    let own = number_of(alloc, table, types, at)?;
    match direct_of(alloc, table, types, own)? {
        None => Ok(List::new(alloc)),
        Some(supertypes) => Ok(supertypes),
    }
}

// Adds the element of a type to those that are reached.
fn add_type(
    alloc: Global,
    types: &mut Types,
    reached: &mut Level,
    number: usize,
) -> Result<(), NoMemory>
    requires reached { AreKnown types.old reached.old }
    requires known { IsKnown types.old number }
    ensures adds { OnOk result (Adds types.old types.new reached.old reached.new (at types.old number ∷ [])) }
    ensures grows { Grows types.old types.new }
{
    match class_element(alloc, types, number)? {
        None => Ok(()),
        Some(element) => {
            let class = bare_class(alloc, types, element)?;
            reached.add(class)
        }
    }
}

// Adds the elements of several types.
fn add_types(
    alloc: Global,
    types: &mut Types,
    reached: &mut Level,
    numbers: &[usize],
) -> Result<(), NoMemory>
    requires reached { AreKnown types.old reached.old }
    requires known { AreKnown types.old numbers.now }
    ensures adds { OnOk result (AddsEach types.old types.new reached.old reached.new numbers.now) }
    ensures grows { Grows types.old types.new }
{
    for number in numbers {
        add_type(alloc, types, reached, *number)?;
    }
    Ok(())
}

// Adds the elements to which one step leads from the element of this type.
fn add_steps(
    alloc: Global,
    table: &Table,
    types: &mut Types,
    reached: &mut Level,
    number: usize,
) -> Result<(), NoMemory>
    requires reached { AreKnown types.old reached.old }
    requires known { IsKnown types.old number }
    ensures adds { OnOk result (AddsSteps table.now types.old types.new reached.old reached.new number) }
    ensures grows { Grows types.old types.new }
{
    match class_element(alloc, types, number)? {
        None => Ok(()),
        Some(element) => {
            let next = types_from(alloc, table, types, &element)?;
            add_types(alloc, types, reached, next.as_slice())
        }
    }
}

/// Whether the second type is reached from the first one by any number of direct supertypes, as elements, none included. Each type on the way is looked at once.
///
/// Out of memory comes also where it is not among the first 65,536 types that are reached, nearest first, and there are more.
pub fn is_reached(
    alloc: Global,
    table: &Table,
    from: &ElementRef,
    to: &ElementRef,
) -> Result<bool, NoMemory>
    ensures reached { IfOk result (λ r. IsTrue r ↔ IsReached table.now from.now to.now) }
    ensures test { IfOk result (λ r. r ≡ is_reached table.now from.now to.now) }
{
    let mut types = Types::new(alloc);
    let first = bare_class(alloc, &mut types, from.copy(alloc)?)?;
    let mut reached = Level::of(alloc, first)?;
    for done in 0..MOST_REACHED {
        if done >= reached.len() {
            return Ok(false);
        }
        let number = reached.at(done);
        if is_of(&types, to, number) {
            return Ok(true);
        }
        add_steps(alloc, table, &mut types, &mut reached, number)?;
    }
    Err(NoMemory)
}
