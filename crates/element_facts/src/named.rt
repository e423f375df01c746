// Types and packages by their names.
ghost use Rattle.std.specs.Prelude.{◌≡◌, IfOk};
ghost use Rattle.std.specs.Option.{option_and_then};
ghost use Rattle.element_table.specs.TableElements.{node_at};
ghost use Rattle.name_resolve.specs.Parts.{lent};
ghost use Rattle.name_resolve.specs.Shown.{finds_of, Gives};
ghost use Rattle.element_facts.specs.NamedTypes as named;

use apt_base::{ElementRef, List, Name, NoMemory};
use decl_elements::Place;
use element_table::{Part, Table, in_package};
use name_resolve::{Finds, Looks, split};
use std::alloc::Global;
use type_relations::place_of;
use type_resolve::reference;

// ---- types

// The type of these names, among the stubs or else in the whole table.
#[tactic(auto, using(name_resolve::proofs::FirstPlaces::second_of))]
fn met_type<'a>(looks: &mut Looks<'a>, names: &[&str]) -> Result<Finds<'a>, NoMemory>
    ensures value { Gives result (named.met_type looks.old (lent names.now)) }
    ensures kept { looks.new ≡ looks.old }
{
    match looks.imported(Part::Stub, names)? {
        Finds::Nothing => looks.imported(Part::Source, names),
        Finds::One(find) => Ok(Finds::One(find)),
        Finds::Several => Ok(Finds::Several),
    }
}

fn found_element(alloc: Global, finds: &Finds<'_>) -> Result<Option<ElementRef>, NoMemory>
    ensures { IfOk result (λ at. at ≡ named.found_element (finds_of finds.now)) }
{
    match finds {
        Finds::One(find) => Ok(Some(reference(alloc, find)?)),
        Finds::Nothing => Ok(None),
        Finds::Several => Ok(None),
    }
}

/// The type with this canonical name (JLS 6.7): that of the stubs, or where they have none that of the whole
/// table, from each by the shortest prefix that is a top-level type, and then by the member types that are
/// declared. `None` where there is none, and where a type declares two of one name. The table is the one of
/// the look-ups.
#[tactic(auto, unfolding(crate::specs::NamedTypes::type_element))]
pub fn type_element(
    alloc: Global,
    looks: &mut Looks<'_>,
    name: &str,
) -> Result<Option<ElementRef>, NoMemory>
    ensures value { IfOk result (λ at. at ≡ named.type_element looks.old name.now) }
    ensures kept { looks.new ≡ looks.old }
{
    let names = split(alloc, name)?;
    let finds = met_type(looks, names.as_slice())?;
    found_element(alloc, &finds)
}

// ---- packages

/// The reference under which a package stands.
pub(crate) fn info_reference(alloc: Global, package: &str) -> Result<ElementRef, NoMemory>
    ensures { IfOk result (λ at. at ≡ named.info_reference «package».now) }
{
    let name = in_package(alloc, package, "package-info")?;
    let unit = Name::from_string(alloc, name);
    let path = List::new(alloc);
    Ok(ElementRef { unit, path })
}

// The reference, if a package stands there.
fn as_package(table: &Table, at: ElementRef) -> Option<ElementRef>
    ensures { result ≡ option_and_then (named.as_package at) (node_at table.now at) }
{
    match place_of(table, &at) {
        Some(Place::Package(_)) => Some(at),
        _ => None,
    }
}

/// The package with this name (JLS 7.4), that of the unnamed one being empty. It is there where its unit
/// `package-info` is, or a type of it; `None` where neither is.
#[tactic(auto, unfolding(crate::specs::NamedTypes::package_element))]
pub fn package_element(
    alloc: Global,
    table: &Table,
    name: &str,
) -> Result<Option<ElementRef>, NoMemory>
    ensures { IfOk result (λ at. at ≡ named.package_element table.now name.now) }
{
    let at = info_reference(alloc, name)?;
    Ok(as_package(table, at))
}
