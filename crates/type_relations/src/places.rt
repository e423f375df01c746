// What stands at an element of a table, and what a question reads of it.
ghost use Rattle.std.specs.Prelude.{◌≡◌, ◌≤◌, [], length, option_map, unwrap_or, IfOk, IfSome};
ghost use Rattle.apt_base.specs.Limits.{max_children};
ghost use Rattle.decl_tree.specs.declared.declaration.Member.{out-Member};
ghost use Rattle.decl_elements.specs.Nodes.{children};
ghost use Rattle.decl_elements.specs.Shown.{node_of};
ghost use Rattle.element_table.specs.TableElements.{node_at};
ghost use Rattle.type_relations.specs.Elements as elements;
ghost use Rattle.type_relations.specs.Elements.{name_by, canonical_name, declared_parameters, parameters_of, first_children};

use apt_base::{ElementRef, List, Name, NoMemory};
use decl_elements::{Place, place_at};
use decl_tree::Member;
use element_table::Table;
use std::alloc::Global;

/// What stands there.
pub fn place_of<'a>(table: &'a Table, at: &ElementRef) -> Option<Place<'a>>
    ensures value { option_map node_of result ≡ node_at table.now at.now }
    ensures few { IfSome result (λ place. length (children (node_of place)) ≤ max_children) }
{
    match table.find(&at.unit) {
        Some(unit) => place_at(unit, at.path.as_slice()),
        None => match table.element(at) {
            Some(_) => Some(Place::Package(None)),
            None => None,
        },
    }
}

/// Whether something stands there. It takes no memory.
pub fn is_there(table: &Table, at: &ElementRef) -> bool
    ensures { result ≡ elements.is_there table.now at.now }
{
    place_of(table, at).is_some()
}

// ---- names

fn declared_name<'a>(place: Place<'a>) -> &'a str
    ensures { result.now ≡ unwrap_or (elements.type_name (node_of place.entry)) [] }
{
    match place {
        Place::Top(declaration) => declaration.name.as_str(),
        Place::Inside(_, member) => match member {
            Member::Nested(declaration) => declaration.name.as_str(),
            _ => "",
        },
        _ => "",
    }
}

/// The simple name of a type, or the empty text.
pub fn type_name<'a>(table: &'a Table, at: &ElementRef) -> &'a str
    ensures { result.now ≡ name_by table.now elements.type_name at.now }
{
    match place_of(table, at) {
        Some(place) => declared_name(place),
        None => "",
    }
}

fn variable_name<'a>(place: Place<'a>) -> &'a str
    ensures { result.now ≡ unwrap_or (elements.parameter_name (node_of place.entry)) [] }
{
    match place {
        Place::TypeParameter(parameter) => parameter.name.as_str(),
        _ => "",
    }
}

/// The name of a type parameter, or the empty text.
pub fn parameter_name<'a>(table: &'a Table, at: &ElementRef) -> &'a str
    ensures { result.now ≡ name_by table.now elements.parameter_name at.now }
{
    match place_of(table, at) {
        Some(place) => variable_name(place),
        None => "",
    }
}

/// The canonical name of a type or a package, or the empty text.
pub fn canonical_name(alloc: Global, table: &Table, at: &ElementRef) -> Result<Name, NoMemory>
    ensures { IfOk result (λ name. name ≡ canonical_name table.now at.now) }
{
    match table.canonical(alloc, at)? {
        Some(name) => Ok(name),
        None => Name::new(alloc, ""),
    }
}

// ---- type parameters

fn member_parameters(member: &Member) -> usize
    ensures { result ≡ length (elements.member_parameters (out-Member member.now)) }
{
    match member {
        Member::Field(_) => 0,
        Member::Method(method) => method.parameters.len(),
        Member::Constructor(constructor) => constructor.parameters.len(),
        Member::Constant(_) => 0,
        Member::Nested(declaration) => declaration.parameters.len(),
    }
}

fn declared_parameters(place: Place<'_>) -> usize
    ensures { result ≡ length (declared_parameters (node_of place.entry)) }
{
    match place {
        Place::Top(declaration) => declaration.parameters.len(),
        Place::Inside(_, member) => member_parameters(member),
        _ => 0,
    }
}

/// How many type parameters a type, a method or a constructor declares; 0 for what is none of these.
pub fn parameter_count(table: &Table, at: &ElementRef) -> u16
    ensures { result ≡ length (parameters_of (node_at table.now at.now)) }
{
    match place_of(table, at) {
        Some(place) => declared_parameters(place) as u16,
        None => 0,
    }
}

/// Whether an element declares type parameters.
pub fn has_type_parameters(table: &Table, at: &ElementRef) -> bool
    ensures { result ≡ elements.has_type_parameters table.now at.now }
{
    parameter_count(table, at) != 0
}

/// The child of an element that has this number, whether something stands there or not.
pub fn child(alloc: Global, at: &ElementRef, number: u16) -> Result<ElementRef, NoMemory>
    ensures { IfOk result (λ element. element ≡ elements.child at.now number) }
{
    let unit = at.unit.copy()?;
    let mut path = Vec::from_slice(alloc, at.path.as_slice())?;
    path.push(number)?;
    Ok(ElementRef {
        unit,
        path: List::from_vec(path),
    })
}

fn first_children(alloc: Global, at: &ElementRef, count: u16) -> Result<List<ElementRef>, NoMemory>
    ensures { IfOk result (λ list. list ≡ first_children at.now count) }
{
    let mut list = List::new(alloc);
    for number in 0..count {
        let one = child(alloc, at, number)?;
        list.push(one)?;
    }
    Ok(list)
}

/// The type parameters that a type, a method or a constructor declares.
#[tactic(auto, unfolding(crate::specs::Elements::type_parameters))]
pub fn type_parameters(
    alloc: Global,
    table: &Table,
    at: &ElementRef,
) -> Result<List<ElementRef>, NoMemory>
    ensures { IfOk result (λ list. list ≡ elements.type_parameters table.now at.now) }
{
    first_children(alloc, at, parameter_count(table, at))
}

/// The element around it, or itself where there is none.
pub fn around_of(alloc: Global, table: &Table, at: &ElementRef) -> Result<ElementRef, NoMemory>
    ensures { IfOk result (λ around. around ≡ elements.around_of table.now at.now) }
{
    match table.enclosing(alloc, at)? {
        Some(around) => Ok(around),
        None => at.copy(alloc),
    }
}
