// Erasures by numbers.
ghost use Rattle.std.specs.Prelude.{◌≡◌, ◌<◌, [], None, Some, false, IfOk};
ghost use Rattle.std.specs.List.{AllByRecursion};
ghost use Rattle.apt_base.specs.Limits.{max_type_steps};
ghost use Rattle.type_layers.specs.Layers.{layer, declared_mirror};
ghost use Rattle.type_numbers.specs.Numbers.{at, IsKnown, OptionStands, Grows};
ghost use Rattle.type_relations.specs.Erasure.{erasure};
ghost use Rattle.type_steps.specs.Arrays.{has_item};
ghost use Rattle.type_steps.specs.Supertypes.{AllMayStand, erasure_at, erasures_at};

use crate::adding::add_optional;
use crate::arrays::{all_in_arrays, erased_item};
use apt_base::{ElementRef, List, MAX_TYPE_STEPS, NoMemory};
use element_table::Table;
use std::alloc::Global;
use type_mirror::{BaseMirror, Mirror};
use type_numbers::{Node, Types};
use type_relations::erasure_within;

// Of a type that is small as a tree.
fn of_mirror(
    alloc: Global,
    table: &Table,
    types: &mut Types,
    of: &Mirror,
) -> Result<Option<usize>, NoMemory>
    ensures stands { IfOk result (λ n. OptionStands types.new n (erasure table.now max_type_steps of.now)) }
    ensures grows { Grows types.old types.new }
{
    let mirror = erasure_within(alloc, table, MAX_TYPE_STEPS, of)?;
    add_optional(types, &mirror)
}

// The class type without arguments and enclosing type.
#[tactic(auto, unfolding(type_layers::specs::Layers::mirror_of))]
fn bare_class(
    alloc: Global,
    types: &mut Types,
    element: ElementRef,
) -> Result<Option<usize>, NoMemory>
    ensures stands { IfOk result (λ n. OptionStands types.new n (Some (declared_mirror element None []))) }
    ensures grows { Grows types.old types.new }
{
    let number = types.intern(Node::Declared(element, None, List::new(alloc)))?;
    Ok(Some(number))
}

/// The number of the erasure of the type with this number (JLS 4.6) within 64 steps, each of which goes from a type variable to its first bound; `None` where it is open. The erasure is added where it is not there, and each number that was given before still has the same type.
#[cycle(erasing)]
pub fn erasure_of(
    alloc: Global,
    table: &Table,
    types: &mut Types,
    number: usize,
) -> Result<Option<usize>, NoMemory>
    requires { IsKnown types.old number }
    ensures stands { IfOk result (λ n. OptionStands types.new n (erasure_at table.now types.old number)) }
    ensures grows { Grows types.old types.new }
{
    let (around, item) = erased_item(types, number);
    let erased = of_item(alloc, table, types, item)?;
    all_in_arrays(types, around, erased)
}

// Of what is neither an array nor `? extends` with a bound.
#[cycle(erasing)]
fn of_item(
    alloc: Global,
    table: &Table,
    types: &mut Types,
    number: usize,
) -> Result<Option<usize>, NoMemory>
    requires known { IsKnown types.old number }
    requires item { has_item (layer (at types.old number)) ≡ false }
    ensures stands { IfOk result (λ n. OptionStands types.new n (erasure_at table.now types.old number)) }
    ensures grows { Grows types.old types.new }
{
    let node = types.node(number).copy(alloc)?;
    match node {
        Node::Declared(element, _, _) => bare_class(alloc, types, element),
        Node::Variable(element) => {
            let mirror = Mirror::plain(alloc, BaseMirror::Variable(element));
            of_mirror(alloc, table, types, &mirror)
        }
        Node::Unbounded => of_mirror(
            alloc,
            table,
            types,
            &Mirror::plain(alloc, BaseMirror::Wildcard),
        ),
        Node::Super(_) => of_mirror(
            alloc,
            table,
            types,
            &Mirror::plain(alloc, BaseMirror::Wildcard),
        ),
        Node::Executable(_, parameters, outcome, thrown) => {
            let parameters = erasures(alloc, table, types, number, parameters.as_slice())?;
            let Some(parameters) = parameters else {
                return Ok(None);
            };
            let Some(outcome) = erasure_of(alloc, table, types, outcome)? else {
                return Ok(None);
            };
            let thrown = erasures(alloc, table, types, number, thrown.as_slice())?;
            let Some(thrown) = thrown else {
                return Ok(None);
            };
            let whole = Node::Executable(List::new(alloc), parameters, outcome, thrown);
            Ok(Some(types.intern(whole)?))
        }
        _ => Ok(Some(number)),
    }
}

// Of several types, in order, whose numbers are below `below`; open where one of them is.
#[cycle(erasing)]
fn erasures(
    alloc: Global,
    table: &Table,
    types: &mut Types,
    below: usize,
    parts: &[usize],
) -> Result<Option<List<usize>>, NoMemory>
    requires known { IsKnown types.old below }
    requires fall { AllByRecursion (λ part. part < below) parts.now }
    ensures stands { IfOk result (λ n. AllMayStand types.new n (erasures_at table.now types.old parts.now)) }
    ensures grows { Grows types.old types.new }
{
    let mut list = List::new(alloc);
    for part in parts {
        match erasure_of(alloc, table, types, *part)? {
            None => return Ok(None),
            Some(one) => list.push(one)?,
        }
    }
    Ok(Some(list))
}
