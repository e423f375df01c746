// Annotations with their values.
ghost use Rattle.std.specs.Prelude.{◌≡◌, ◌≤◌, ◌++◌, length, filter, map, not, slice_get, Some, option_map};
ghost use Rattle.std.specs.Prelude.{IfOk, OnOk};
ghost use Rattle.std.specs.Option.{option_to_list};
ghost use Rattle.apt_base.specs.Limits.{max_children};
ghost use Rattle.decl_elements.specs.Nodes.{children};
ghost use Rattle.decl_elements.specs.Shown.{node_of};
ghost use Rattle.decl_elements.specs.SimpleNames.{simple_name};
ghost use Rattle.name_resolve.specs.Finds.{find_at};
ghost use Rattle.name_resolve.specs.Placed.{IsPlaced};
ghost use Rattle.name_resolve.specs.Shown.{find_of};
ghost use Rattle.annotation_presence.specs.Shown.{carried_of, carried_in};
ghost use Rattle.annotation_values.specs.ElementValues as elements;
ghost use Rattle.annotation_values.specs.Remembered.{ArePlacedAt};

use crate::constants::default_at;
use crate::elements::located;
use crate::values::Values;
use annotation_presence::Carried;
use apt_base::{ElementRef, List, Name, NoMemory};
use decl_elements::{Place, place_at};
use name_resolve::{Found, copied};
use std::alloc::Global;
use type_mirror::{Annotation, Value};

// ---- mirrors

/// These annotations with the values that are written in them.
pub(crate) fn mirrors_of<'a>(
    alloc: Global,
    values: &mut Values<'a>,
    list: &[Carried<'a>],
) -> Result<List<Annotation>, NoMemory>
    requires placed { ArePlacedAt values.old (carried_in list.now) }
    ensures value { IfOk result
        (λ mirrors. mirrors ≡ map (elements.mirror_of values.old) (carried_in list.now)) }
    ensures kept { values.new ≡ values.old }
{
    let mut mirrors = List::new(alloc);
    for each in list {
        let mirror = values.written_annotation(&each.at, each.text)?;
        mirrors.push(mirror)?;
    }
    Ok(mirrors)
}

// ---- defaults

// The child of this number.
fn child_of<'a>(alloc: Global, of: &Found<'a>, number: u16) -> Result<Found<'a>, NoMemory>
    ensures { IfOk result
        (λ f. find_of f ≡ find_at of.now.part of.now.unit.now of.now.path.items number) }
{
    let mut child = copied(alloc, of)?;
    child.path.push(number)?;
    Ok(child)
}

// A value under this name.
fn named(alloc: Global, name: &str, value: Option<Value>) -> Result<Option<(Name, Value)>, NoMemory>
    ensures { IfOk result (λ named. named ≡ option_map (λ v. (name.now, v)) value) }
{
    let Some(value) = value else {
        return Ok(None);
    };
    match Name::new(alloc, name) {
        Ok(name) => Ok(Some((name, value))),
        Err(fault) => {
            drop(value);
            Err(fault)
        }
    }
}

// The default that is written at this place, under its name.
fn named_default<'a>(
    alloc: Global,
    values: &mut Values<'a>,
    at: &Found<'a>,
    place: Place<'a>,
) -> Result<Option<(Name, Value)>, NoMemory>
    requires placed { IsPlaced values.old (find_of at.now) }
    ensures value { IfOk result (λ named. named ≡ option_map (λ v. (simple_name (node_of place.entry), v))
        (elements.default_at values.old (find_of at.now) (Some (node_of place.entry)))) }
    ensures kept { values.new ≡ values.old }
{
    let value = default_at(values, at, place)?;
    named(alloc, place.simple_name(), value)
}

// The default of the child with this number, under its name.
fn child_default<'a>(
    alloc: Global,
    values: &mut Values<'a>,
    of: &Found<'a>,
    number: u16,
    place: Place<'a>,
) -> Result<Option<(Name, Value)>, NoMemory>
    requires placed { IsPlaced values.old (find_of of.now) }
    ensures value { IfOk result (λ named. named
        ≡ elements.child_default values.old (find_of of.now) (number, node_of place.entry)) }
    ensures kept { values.new ≡ values.old }
{
    let at = child_of(alloc, of, number)?;
    let given = named_default(alloc, values, &at, place);
    drop(at);
    given
}

fn add_default(list: &mut List<(Name, Value)>, named: Option<(Name, Value)>) -> Result<(), NoMemory>
    ensures { OnOk result (list.new ≡ list.old ++ option_to_list named) }
{
    match named {
        None => Ok(()),
        Some(named) => list.push(named),
    }
}

// The elements with a default that are declared at this place.
fn node_defaults<'a>(
    alloc: Global,
    values: &mut Values<'a>,
    of: &Found<'a>,
    place: Place<'a>,
) -> Result<List<(Name, Value)>, NoMemory>
    requires placed { IsPlaced values.old (find_of of.now) }
    requires few { length (children (node_of place)) ≤ max_children }
    ensures value { IfOk result
        (λ list. list ≡ elements.node_defaults values.old (find_of of.now) (node_of place.entry)) }
    ensures kept { values.new ≡ values.old }
{
    let mut list = List::new(alloc);
    for number in 0..place.children() {
        let Some(child) = place.child(number) else {
            return Ok(list);
        };
        let named = child_default(alloc, values, of, number, child)?;
        add_default(&mut list, named)?;
    }
    Ok(list)
}

// The elements of an annotation interface that have a default.
#[tactic(auto, using(crate::proofs::ElementLemmas::element_defaults))]
fn defaults(
    alloc: Global,
    values: &mut Values<'_>,
    of: &Option<ElementRef>,
) -> Result<List<(Name, Value)>, NoMemory>
    ensures value { IfOk result (λ list. list ≡ elements.defaults values.old of.now) }
    ensures kept { values.new ≡ values.old }
{
    let Some(at) = of else {
        return Ok(List::new(alloc));
    };
    match located(values, at)? {
        None => Ok(List::new(alloc)),
        Some(found) => match place_at(found.unit, found.path.as_slice()) {
            None => Ok(List::new(alloc)),
            Some(place) => {
                let list = node_defaults(alloc, values, &found, place)?;
                Ok(list)
            }
        },
    }
}

// ---- values with defaults

fn has_name(values: &[(Name, Value)], name: &str) -> bool
    ensures { result ≡ elements.has_name values.now name.now }
{
    for each in values {
        if name == each.0.as_str() {
            return true;
        }
    }
    false
}

fn values_in(alloc: Global, annotation: Annotation) -> Result<List<(Name, Value)>, NoMemory>
    ensures { IfOk result (λ list. list ≡ elements.values_of annotation) }
{
    let mut list = List::new(alloc);
    for each in annotation.values.into_vec() {
        list.push((each.name, each.value))?;
    }
    Ok(list)
}

// Those of these whose names are not among the values.
fn others(
    alloc: Global,
    values: &[(Name, Value)],
    all: List<(Name, Value)>,
) -> Result<Vec<(Name, Value)>, NoMemory>
    ensures { IfOk result
        (λ list. list.items ≡ filter (λ d. not (elements.has_name values.now d.0)) all) }
{
    let mut list = Vec::new(alloc);
    for each in all.into_vec() {
        if has_name(values, each.0.as_str()) {
            drop(each);
        } else {
            list.push(each)?;
        }
    }
    Ok(list)
}

fn with_others(
    alloc: Global,
    values: List<(Name, Value)>,
    all: List<(Name, Value)>,
) -> Result<List<(Name, Value)>, NoMemory>
    ensures { IfOk result (λ list. list ≡ elements.with_others values all) }
{
    let mut more = others(alloc, values.as_slice(), all)?;
    let mut list = values.into_vec();
    list.append(&mut more)?;
    Ok(List::from_vec(list))
}

// The values that are written in an annotation.
fn written_values<'a>(
    alloc: Global,
    values: &mut Values<'a>,
    of: &Carried<'a>,
) -> Result<List<(Name, Value)>, NoMemory>
    requires placed { IsPlaced values.old (find_of of.now.at) }
    ensures value { IfOk result
        (λ list. list ≡ elements.values_of (elements.mirror_of values.old (carried_of of.now))) }
    ensures kept { values.new ≡ values.old }
{
    let mirror = values.written_annotation(&of.at, of.text)?;
    values_in(alloc, mirror)
}

// The values of an annotation, and the defaults of its other elements.
fn with_defaults<'a>(
    alloc: Global,
    values: &mut Values<'a>,
    of: &Carried<'a>,
) -> Result<List<(Name, Value)>, NoMemory>
    requires placed { IsPlaced values.old (find_of of.now.at) }
    ensures value { IfOk result
        (λ list. list ≡ elements.with_defaults values.old (carried_of of.now)) }
    ensures kept { values.new ≡ values.old }
{
    let written = written_values(alloc, values, of)?;
    match defaults(alloc, values, &of.annotation_type) {
        Ok(others) => with_others(alloc, written, others),
        Err(fault) => {
            drop(written);
            Err(fault)
        }
    }
}

/// The same of the one of this number among these annotations.
pub(crate) fn numbered_with_defaults<'a>(
    alloc: Global,
    values: &mut Values<'a>,
    list: &[Carried<'a>],
    number: u16,
) -> Result<Option<List<(Name, Value)>>, NoMemory>
    requires placed { ArePlacedAt values.old (carried_in list.now) }
    ensures value { IfOk result (λ given. given
        ≡ option_map (elements.with_defaults values.old) (slice_get (carried_in list.now) number)) }
    ensures kept { values.new ≡ values.old }
{
    match list.get(number as usize) {
        None => Ok(None),
        Some(carried) => {
            let all = with_defaults(alloc, values, carried)?;
            Ok(Some(all))
        }
    }
}
