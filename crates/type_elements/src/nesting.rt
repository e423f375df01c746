// What is around an element, and what it encloses.
ghost use Rattle.std.specs.Prelude.{◌≡◌, IfOk};
ghost use Rattle.type_elements.specs.MemberElements as elements;

use apt_base::{ElementRef, List, NoMemory};
use element_table::Table;
use std::alloc::Global;
use type_relations::{child, has_type_parameters, parameter_count};

/// Whether something around an element has type parameters: for a member the type that declares it, or a type around that one. Its own don't count.
pub fn is_in_parameterized(alloc: Global, table: &Table, at: &ElementRef) -> Result<bool, NoMemory>
    ensures { IfOk result (λ r. r ≡ elements.is_in_parameterized table.now at.now) }
{
    let mut around = ElementRef {
        unit: at.unit.copy()?,
        path: List::new(alloc),
    };
    for step in at.path.as_slice() {
        if has_type_parameters(table, &around) {
            return Ok(true);
        }
        around.path.push(*step)?;
    }
    Ok(false)
}

// The children from one number on, up to a count.
fn children_from(
    alloc: Global,
    at: &ElementRef,
    first: u16,
    count: u16,
) -> Result<List<ElementRef>, NoMemory>
    ensures { IfOk result (λ list. list ≡ elements.children_from at.now first count) }
{
    let mut list = List::new(alloc);
    for number in first..count {
        let one = child(alloc, at, number)?;
        list.push(one)?;
    }
    Ok(list)
}

/// The elements that it encloses, without its type parameters: of a type its members, what the language adds to them included, and of a method or a constructor its parameters.
#[tactic(auto, unfolding(crate::specs::MemberElements::enclosed))]
pub fn enclosed(alloc: Global, table: &Table, at: &ElementRef) -> Result<List<ElementRef>, NoMemory>
    ensures { IfOk result (λ list. list ≡ elements.enclosed table.now at.now) }
{
    let count = table.children(at).unwrap_or(0);
    children_from(alloc, at, parameter_count(table, at), count)
}
