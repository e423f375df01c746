// What a type declares.
ghost use Rattle.std.specs.Prelude.{◌≡◌, ◌≤◌, ◌∷◌, length, IfOk};
ghost use Rattle.apt_base.specs.Limits.{max_children};
ghost use Rattle.decl_elements.specs.Nodes.{children};
ghost use Rattle.decl_elements.specs.Shown.{node_of};
ghost use Rattle.decl_elements.specs.Walk.{place_of};
ghost use Rattle.name_resolve.specs.Finds.{one_if, children_where};
ghost use Rattle.name_resolve.specs.Mirrors.{superclass, interfaces};
ghost use Rattle.name_resolve.specs.Placed.{IsPlaced};
ghost use Rattle.name_resolve.specs.Shown.{find_of, finds_of, child_of};
ghost use Rattle.type_elements.specs.MemberElements.{class_elements};
ghost use Rattle.expression_names.specs.Fields.{is_field_named, declared_fields};

use apt_base::{ElementRef, List, NoMemory};
use decl_elements::{Place, place_at};
use decl_tree::Member;
use element_table::Table;
use name_resolve::{Finds, Found, both};
use std::alloc::Global;
use type_elements::class_elements;
use type_resolve::header_types;

/// How many members of a type are compared one by one: up to about as many a look-up takes longer.
const MOST_COMPARED: usize = 32;

// ---- fields

fn is_field_named(name: &str, place: Place<'_>) -> bool
    ensures { result ≡ is_field_named name.now (node_of place.entry) }
{
    match place {
        Place::Inside(_, Member::Field(field)) => name == field.name.as_str(),
        Place::Inside(_, Member::Constant(constant)) => name == constant.name.as_str(),
        _ => false,
    }
}

// The child with that number, if it passes a test.
fn one_if<'a>(alloc: Global, passes: bool, of: &Found<'a>, at: u16) -> Result<Finds<'a>, NoMemory>
    ensures { IfOk result (λ f. finds_of f ≡ one_if passes (child_of (find_of of.now) at)) }
{
    if !passes {
        return Ok(Finds::Nothing);
    }
    let mut path = Vec::from_slice(alloc, of.path.as_slice())?;
    path.push(at)?;
    Ok(Finds::One(Found {
        part: of.part,
        unit: of.unit,
        path,
    }))
}

fn fields_at<'a>(
    alloc: Global,
    of: &Found<'a>,
    place: Place<'a>,
    name: &str,
) -> Result<Finds<'a>, NoMemory>
    requires { length (children (node_of place)) ≤ max_children }
    ensures { IfOk result (λ f. finds_of f ≡ children_where (is_field_named name.now)
        of.now.part of.now.unit.now (place_of of.now.path.items (node_of place.entry))) }
{
    let mut finds = Finds::Nothing;
    for number in 0..place.children() {
        match place.child(number) {
            None => return Ok(finds),
            Some(child) => {
                let more = one_if(alloc, is_field_named(name, child), of, number)?;
                finds = both(finds, more);
            }
        }
    }
    Ok(finds)
}

/// Whether few children stand there, so that they are compared one by one.
pub(crate) fn has_few_children(of: &Found<'_>) -> bool {
    let Some(place) = place_at(of.unit, of.path.as_slice()) else {
        return true;
    };
    match place.declaration() {
        Some(declaration) => declaration.members.len() <= MOST_COMPARED,
        None => true,
    }
}

/// The fields and enum constants of this name that a type declares (JLS 8.3, 8.9.1, 9.3), by a comparison of all
/// its children.
pub(crate) fn declared_fields<'a>(
    alloc: Global,
    of: &Found<'a>,
    name: &str,
) -> Result<Finds<'a>, NoMemory>
    ensures { IfOk result (λ f. finds_of f ≡ declared_fields (find_of of.now) name.now) }
{
    match place_at(of.unit, of.path.as_slice()) {
        None => Ok(Finds::Nothing),
        Some(place) => fields_at(alloc, of, place, name),
    }
}

// ---- headers

/// The class or interface types of a header, the superclass before the interfaces.
pub(crate) fn supertypes(
    alloc: Global,
    table: &Table,
    of: &Found<'_>,
) -> Result<List<ElementRef>, NoMemory>
    requires placed { IsPlaced table.now (find_of of.now) }
    ensures { IfOk result (λ list. list ≡ class_elements
        (superclass table.now (find_of of.now) ∷ interfaces table.now (find_of of.now))) }
{
    let types = header_types(alloc, table, of)?;
    class_elements(alloc, types.as_slice())
}
