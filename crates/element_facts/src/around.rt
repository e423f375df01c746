// What an element encloses, and the package that it is in.
ghost use Rattle.std.specs.Prelude.{◌≡◌, map, IfOk};
ghost use Rattle.decl_elements.specs.Shown.{shown_element};
ghost use Rattle.element_facts.specs.ElementFacts as facts;

use crate::named::info_reference;
use apt_base::{ElementRef, List, Name, NoMemory};
use element_table::{Element, Table};
use std::alloc::Global;
use type_elements::enclosed;
use type_relations::canonical_name;

// Top-level types by their names.
fn top_types(alloc: Global, names: &[Name]) -> Result<List<ElementRef>, NoMemory>
    ensures { IfOk result (λ list. list ≡ map facts.top_type names.now) }
{
    let mut list = List::new(alloc);
    for name in names {
        let unit = name.copy()?;
        let path = List::new(alloc);
        list.push(ElementRef { unit, path })?;
    }
    Ok(list)
}

// The top-level types of the package of this name.
fn types_of_package(
    alloc: Global,
    table: &Table,
    at: &ElementRef,
) -> Result<List<ElementRef>, NoMemory>
    ensures { IfOk result (λ list. list ≡ facts.package_enclosed table.now at.now) }
{
    let package = canonical_name(alloc, table, at)?;
    let names = table.package_types(alloc, &package)?;
    top_types(alloc, names.as_slice())
}

fn enclosed_by(
    alloc: Global,
    table: &Table,
    at: &ElementRef,
    element: Element<'_>,
) -> Result<List<ElementRef>, NoMemory>
    ensures { IfOk result (λ list. list ≡ facts.enclosed_by table.now at.now (shown_element element.entry)) }
{
    match element {
        Element::Package(_) => types_of_package(alloc, table, at),
        Element::Enum(_) | Element::Class(_) => enclosed(alloc, table, at),
        Element::AnnotationType(_) | Element::Interface(_) => enclosed(alloc, table, at),
        _ => Ok(List::new(alloc)),
    }
}

/// What the element encloses: of a type its members, those that the language adds too, of a package its
/// top-level types (JLS 7.3), of sources and of stubs, ascending by the bytes of their names, and of any
/// other element, and where nothing stands, none.
#[tactic(auto, unfolding(crate::specs::ElementFacts::enclosed_at))]
pub fn enclosed_elements(
    alloc: Global,
    table: &Table,
    at: &ElementRef,
) -> Result<List<ElementRef>, NoMemory>
    ensures { IfOk result (λ list. list ≡ facts.enclosed_at table.now at.now) }
{
    match table.element(at) {
        None => Ok(List::new(alloc)),
        Some(element) => enclosed_by(alloc, table, at, element),
    }
}

/// The package of the unit in which the element is; of a package itself.
#[tactic(auto, unfolding(crate::specs::ElementFacts::package_at))]
pub fn package_of(alloc: Global, table: &Table, at: &ElementRef) -> Result<ElementRef, NoMemory>
    ensures { IfOk result (λ around. around ≡ facts.package_at table.now at.now) }
{
    match table.find(&at.unit) {
        None => at.copy(alloc),
        Some(unit) => info_reference(alloc, unit.text().package.as_str()),
    }
}
