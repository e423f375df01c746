// What a class type with a number puts in the place of type parameters, by numbers.
ghost use Rattle.std.specs.Prelude.{◌≡◌, ◌<◌, OnOk, IfOk, IfSome};
ghost use Rattle.std.specs.List.{zip};
ghost use Rattle.type_numbers.specs.Numbers.{IsKnown, Stands, Grows};
ghost use Rattle.type_numbers.specs.Replaced.{AreKnownIn};
ghost use Rattle.type_steps.specs.Entries.{has_number, with_number, with_numbers, LeavesEntries, Replaces, in_class};

use apt_base::{ElementRef, List, NoMemory};
use element_table::Table;
use std::alloc::Global;
use type_numbers::{Node, Types, substitute};
use type_relations::type_parameters;

fn has_entry(by: &[(ElementRef, usize)], element: &ElementRef) -> bool
    ensures { result ≡ has_number by.now element.now }
{
    for pair in by {
        if pair.0.is_equal(element) {
            return true;
        }
    }
    false
}

// The first entry for a variable counts.
#[tactic(auto, using(crate::proofs::NumberedEntries::numbering))]
fn add_entry(
    alloc: Global,
    by: &mut List<(ElementRef, usize)>,
    element: &ElementRef,
    number: usize,
) -> Result<(), NoMemory>
    ensures { OnOk result (by.new ≡ with_number by.old (element.now, number)) }
{
    if has_entry(by.as_slice(), element) {
        return Ok(());
    }
    let element = element.copy(alloc)?;
    by.push((element, number))
}

fn add_own(
    alloc: Global,
    by: &mut List<(ElementRef, usize)>,
    parameters: &[ElementRef],
    arguments: &[usize],
) -> Result<(), NoMemory>
    ensures { OnOk result (by.new ≡ with_numbers by.old (zip parameters.now arguments.now)) }
{
    for place in 0..parameters.len() {
        if place >= arguments.len() {
            return Ok(());
        }
        add_entry(alloc, by, &parameters[place], arguments[place])?;
    }
    Ok(())
}

// Those of the class type itself. What it gives is the enclosing type, whose entries are left.
fn add_class(
    alloc: Global,
    table: &Table,
    types: &Types,
    by: &mut List<(ElementRef, usize)>,
    number: usize,
) -> Result<Option<usize>, NoMemory>
    requires known { IsKnown types.now number }
    requires by { AreKnownIn types.now by.old }
    ensures known { OnOk result (AreKnownIn types.now by.new) }
    ensures falls { IfOk result (λ outer. IfSome outer (λ o. o < number)) }
    ensures left { IfOk result (λ outer. LeavesEntries table.now types.now by.old by.new number outer) }
{
    match types.node(number) {
        Node::Declared(element, enclosing, arguments) => {
            let parameters = type_parameters(alloc, table, element)?;
            add_own(alloc, by, parameters.as_slice(), arguments.as_slice())?;
            Ok(*enclosing)
        }
        _ => Ok(None),
    }
}

/// What a class type puts in the place of type parameters, its enclosing types included, each variable once.
pub(crate) fn replacements(
    alloc: Global,
    table: &Table,
    types: &Types,
    number: usize,
) -> Result<List<(ElementRef, usize)>, NoMemory>
    requires { IsKnown types.now number }
    ensures known { IfOk result (λ by. AreKnownIn types.now by) }
    ensures exact { IfOk result (λ by. Replaces table.now types.now by number) }
{
    let mut by = List::new(alloc);
    let mut left = Some(number);
    while let Some(of) = left {
        left = add_class(alloc, table, types, &mut by, of)?;
    }
    Ok(by)
}

/// The number of a type with what a class type puts in the place of type parameters (JLS 4.10.2), its enclosing types included. It is added where it is not there, and each number that was given before still has the same type.
pub fn replaced_in(
    alloc: Global,
    table: &Table,
    types: &mut Types,
    owner: usize,
    number: usize,
) -> Result<usize, NoMemory>
    requires owner { IsKnown types.old owner }
    requires known { IsKnown types.old number }
    ensures stands { IfOk result (λ n. Stands types.new n (in_class table.now types.old owner number)) }
    ensures grows { Grows types.old types.new }
{
    let by = replacements(alloc, table, types, owner)?;
    substitute(alloc, types, by.as_slice(), number)
}
