// The type of a member as a member of a type.
ghost use Rattle.std.specs.Prelude.{◌≡◌, IfOk};
ghost use Rattle.type_numbers.specs.Numbers.{at, IsKnown, AreKnown, Stands, OptionStands, Grows};
ghost use Rattle.type_elements.specs.TypeOf as elements;
ghost use Rattle.type_members.specs.MemberNumbers.{first_at, NearestStands, SeenStands, MemberStands};
ghost use Rattle.type_members.specs.MemberOf as members;

use crate::levels::{Level, further};
use apt_base::{ElementRef, MAX_TYPE_STEPS, NoMemory};
use element_table::Table;
use std::alloc::Global;
use type_elements::{is_in_parameterized, is_static, type_of_element_with};
use type_numbers::{Node, Types};
use type_relations::around_of;
use type_resolve::Resolver;
use type_steps::{erasure_of, is_raw, replaced_in};

/// The number of the type of an element, as `number_of` gives it.
pub fn number_with(
    alloc: Global,
    resolver: &mut Resolver<'_>,
    types: &mut Types,
    at: &ElementRef,
) -> Result<usize, NoMemory>
    ensures stands { IfOk result (λ n. Stands types.new n (elements.type_of resolver.old at.now)) }
    ensures grows { Grows types.old types.new }
    ensures kept { resolver.new ≡ resolver.old }
{
    let mirror = type_of_element_with(alloc, resolver, at)?;
    types.add(&mirror)
}

/// The number of the type of an element, as its `asType` gives it. It is added where it is not there, and each number that was given before still has the same type.
pub fn number_of(
    alloc: Global,
    table: &Table,
    types: &mut Types,
    at: &ElementRef,
) -> Result<usize, NoMemory>
    ensures stands { IfOk result (λ n. Stands types.new n (elements.type_of table.now at.now)) }
    ensures grows { Grows types.old types.new }
{
    let mut resolver = Resolver::new(alloc, table);
    number_with(alloc, &mut resolver, types, at)
}

/// Whether it is a class type of this element.
pub(crate) fn is_of(types: &Types, element: &ElementRef, number: usize) -> bool
    requires { IsKnown types.now number }
    ensures { result ≡ members.is_of element.now (at types.now number) }
{
    match types.node(number) {
        Node::Declared(other, _, _) => element.is_equal(other),
        _ => false,
    }
}

// The first one of a level that is of this element.
fn first_of(types: &Types, at: &ElementRef, level: &[usize]) -> Option<usize>
    requires { AreKnown types.now level.now }
    ensures { OptionStands types.now result (first_at types.now at.now level.now) }
{
    for number in level {
        if is_of(types, at, *number) {
            return Some(*number);
        }
    }
    None
}

// The first one of this element: in a level, or else further on within this many steps.
fn nearest(
    alloc: Global,
    resolver: &mut Resolver<'_>,
    types: &mut Types,
    at: &ElementRef,
    steps: u32,
    level: &[usize],
) -> Result<Option<usize>, NoMemory>
    requires known { AreKnown types.old level.now }
    ensures stands { IfOk result (λ n. NearestStands resolver.old types.old types.new at.now steps level.now n) }
    ensures grows { Grows types.old types.new }
    ensures kept { resolver.new ≡ resolver.old }
{
    if let Some(found) = first_of(types, at, level) {
        return Ok(Some(found));
    }
    if steps == 0 {
        return Ok(None);
    }
    match further(alloc, resolver, types, level)? {
        None => Ok(None),
        Some(next) => nearest(alloc, resolver, types, at, steps - 1, next.as_slice()),
    }
}

// The type of a member as it is seen in the supertype that declares it.
fn seen_in(
    alloc: Global,
    resolver: &mut Resolver<'_>,
    types: &mut Types,
    at: &ElementRef,
    declaring: usize,
) -> Result<Option<usize>, NoMemory>
    requires known { IsKnown types.old declaring }
    ensures stands { IfOk result (λ n. SeenStands resolver.old types.old types.new at.now declaring n) }
    ensures grows { Grows types.old types.new }
    ensures kept { resolver.new ≡ resolver.old }
{
    let own = number_with(alloc, resolver, types, at)?;
    if is_raw(resolver.table(), types, declaring) {
        return erasure_of(alloc, resolver.table(), types, own);
    }
    let seen = replaced_in(alloc, resolver.table(), types, declaring, own)?;
    Ok(Some(seen))
}

fn is_fixed(alloc: Global, table: &Table, at: &ElementRef) -> Result<bool, NoMemory>
    ensures { IfOk result (λ r. r ≡ members.is_fixed table.now at.now) }
{
    if is_static(table, at) {
        return Ok(true);
    }
    let inside = is_in_parameterized(alloc, table, at)?;
    Ok(!inside)
}

/// The number of the type of a member as a member of the type with this number, as `member_of` gives it.
#[tactic(auto, unfolding(crate::specs::MemberOf::member_of))]
pub fn member_with(
    alloc: Global,
    resolver: &mut Resolver<'_>,
    types: &mut Types,
    container: usize,
    at: &ElementRef,
) -> Result<Option<usize>, NoMemory>
    requires known { IsKnown types.old container }
    ensures stands { IfOk result (λ n. MemberStands resolver.old types.old types.new container at.now n) }
    ensures grows { Grows types.old types.new }
    ensures kept { resolver.new ≡ resolver.old }
{
    if is_fixed(alloc, resolver.table(), at)? {
        let own = number_with(alloc, resolver, types, at)?;
        return Ok(Some(own));
    }
    let around = around_of(alloc, resolver.table(), at)?;
    let level = Level::of(alloc, container)?;
    match nearest(
        alloc,
        resolver,
        types,
        &around,
        MAX_TYPE_STEPS,
        level.as_slice(),
    )? {
        None => Ok(None),
        Some(declaring) => seen_in(alloc, resolver, types, at, declaring),
    }
}

/// The number of the type of a member as a member of the type with this number (JLS 4.5.2, 4.8): its own type where it is static, or where nothing around it has type parameters; else that in the supertype which declares it, the one with the fewest steps. `None` where no such supertype is within 64 steps, or where the erasure in a raw one is open. It is added where it is not there, and each number that was given before still has the same type.
pub fn member_of(
    alloc: Global,
    table: &Table,
    types: &mut Types,
    container: usize,
    at: &ElementRef,
) -> Result<Option<usize>, NoMemory>
    requires known { IsKnown types.old container }
    ensures stands { IfOk result (λ n. MemberStands table.now types.old types.new container at.now n) }
    ensures grows { Grows types.old types.new }
{
    let mut resolver = Resolver::new(alloc, table);
    member_with(alloc, &mut resolver, types, container, at)
}
