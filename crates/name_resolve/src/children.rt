// What is declared at a place.
ghost use Rattle.std.specs.Prelude.{◌≡◌, ◌≤◌, length, IfOk};
ghost use Rattle.apt_base.specs.Limits.{max_children};
ghost use Rattle.decl_elements.specs.Nodes.{children};
ghost use Rattle.decl_elements.specs.Shown.{node_of};
ghost use Rattle.name_resolve.specs.ChildTypes.{is_parameter};
ghost use Rattle.name_resolve.specs.Finds.{is_type_named, is_parameter_named, one_if, declared_types};
ghost use Rattle.name_resolve.specs.Parts.{declared_parameters};
ghost use Rattle.name_resolve.specs.Shown.{find_of, finds_of, child_of, types_here, params_here};

use crate::finds::{Finds, Found, both};
use apt_base::NoMemory;
use decl_elements::{Place, place_at};
use std::alloc::Global;

/// Whether this is a type of this name.
pub(crate) fn is_type_named(name: &str, place: Place<'_>) -> bool
    ensures { result ≡ is_type_named name.now (node_of place.entry) }
{
    match place.declaration() {
        None => false,
        Some(declaration) => declaration.name.as_str() == name,
    }
}

/// The child with that number, if it passes a test.
pub(crate) fn one_if<'a>(
    alloc: Global,
    passes: bool,
    of: &Found<'a>,
    at: u16,
) -> Result<Finds<'a>, NoMemory>
    ensures { IfOk result (λ f. finds_of f ≡ one_if passes (child_of (find_of of.now) at)) }
{
    if !passes {
        return Ok(Finds::Nothing);
    }
    let mut path = Vec::from_slice(alloc, of.path.as_slice())?;
    path.push(at)?;
    Ok(Finds::One(Found {
        part: of.part,
        unit: of.unit,
        path,
    }))
}

fn types_at<'a>(
    alloc: Global,
    of: &Found<'a>,
    place: Place<'a>,
    name: &str,
) -> Result<Finds<'a>, NoMemory>
    requires { length (children (node_of place)) ≤ max_children }
    ensures { IfOk result (λ f. finds_of f ≡ types_here (find_of of.now) name.now (node_of place.entry)) }
{
    let mut finds = Finds::Nothing;
    for at in 0..place.children() {
        match place.child(at) {
            None => return Ok(finds),
            Some(child) => {
                let more = one_if(alloc, is_type_named(name, child), of, at)?;
                finds = both(finds, more);
            }
        }
    }
    Ok(finds)
}

/// How many children an element has; none where there is none. It takes no memory.
pub(crate) fn children_count(of: &Found<'_>) -> usize {
    match place_at(of.unit, of.path.as_slice()) {
        None => 0,
        Some(place) => usize::from(place.children()),
    }
}

/// The member types of this name that a type declares (JLS 8.5, 9.5), inherited ones aside.
pub fn declared_types<'a>(alloc: Global, of: &Found<'a>, name: &str) -> Result<Finds<'a>, NoMemory>
    ensures { IfOk result (λ f. finds_of f ≡ declared_types (find_of of.now) name.now) }
{
    match place_at(of.unit, of.path.as_slice()) {
        None => Ok(Finds::Nothing),
        Some(place) => types_at(alloc, of, place, name),
    }
}

fn is_parameter_named(name: &str, place: Place<'_>) -> bool
    ensures { result ≡ is_parameter_named name.now (node_of place.entry) }
{
    match place {
        Place::TypeParameter(parameter) => parameter.name.as_str() == name,
        _ => false,
    }
}

fn is_parameter(place: Place<'_>) -> bool
    ensures { result ≡ is_parameter (node_of place.entry) }
{
    matches!(place, Place::TypeParameter(_))
}

// Those in front: all other children stand behind them.
fn parameters_at<'a>(
    alloc: Global,
    of: &Found<'a>,
    place: Place<'a>,
    name: &str,
) -> Result<Finds<'a>, NoMemory>
    requires { length (children (node_of place)) ≤ max_children }
    ensures { IfOk result (λ f. finds_of f ≡ params_here (find_of of.now) name.now (node_of place.entry)) }
{
    let mut finds = Finds::Nothing;
    for number in 0..u16::MAX {
        match place.child(number) {
            None => return Ok(finds),
            Some(child) => {
                if !is_parameter(child) {
                    return Ok(finds);
                }
                let more = one_if(alloc, is_parameter_named(name, child), of, number)?;
                finds = both(finds, more);
            }
        }
    }
    Ok(finds)
}

/// The type parameters of this name that an element declares (JLS 8.1.2, 8.4.4, 8.8.4, 9.1.2).
pub fn declared_parameters<'a>(
    alloc: Global,
    of: &Found<'a>,
    name: &str,
) -> Result<Finds<'a>, NoMemory>
    ensures { IfOk result (λ f. finds_of f ≡ declared_parameters (find_of of.now) name.now) }
{
    match place_at(of.unit, of.path.as_slice()) {
        None => Ok(Finds::Nothing),
        Some(place) => parameters_at(alloc, of, place, name),
    }
}
