// Elements of a table as what look-ups there begin at.
ghost use Rattle.std.specs.Prelude.{◌≡◌, Some, None, IfOk};
ghost use Rattle.element_table.specs.TypeTable.{unit_of, part_of, IsTable};
ghost use Rattle.element_table.specs.UnitNames.{unit_name};
ghost use Rattle.name_resolve.specs.Placed.{IsPlaced};
ghost use Rattle.name_resolve.specs.Shown.{find_of};
ghost use Rattle.type_resolve.specs.Scopes.{or_stub, package_part, package_at, IsBareUnit, IsElement, find_in};

use crate::packages::{Bare, bare_package};
use apt_base::{ElementRef, NoMemory};
use decl_tree::Unit;
use element_table::{Part, Table};
use name_resolve::Found;
use std::alloc::Global;

/// Where names are looked up: an element of a table, or the `extends` or `implements` clause of one.
#[derive(Drop)]
pub(crate) struct Scope<'a> {
    pub table: &'a Table,
    pub header: bool,
    pub at: Found<'a>,
}

// The part of this name; that of the stubs where it is in neither.
fn part_at(table: &Table, at: &ElementRef) -> Part
    ensures { result ≡ or_stub (part_of table.now at.now.unit) }
{
    match table.part(&at.unit) {
        Some(part) => part,
        None => Part::Stub,
    }
}

/// An element whose unit is this one, as what look-ups there begin at.
#[tactic(auto, unfolding(crate::specs::Scopes::find_in))]
pub fn found_in<'a>(
    alloc: Global,
    table: &Table,
    unit: &'a Unit,
    at: &ElementRef,
) -> Result<Found<'a>, NoMemory>
    requires held { unit_of table.now at.now.unit ≡ Some unit.now }
    requires named { unit_name unit.now ≡ at.now.unit }
    requires table { IsTable table.now }
    ensures value { IfOk result (λ f. find_of f ≡ find_in table.now at.now) }
    ensures placed { IfOk result (λ f. IsPlaced table.now (find_of f)) }
{
    let path = Vec::from_slice(alloc, at.path.as_slice())?;
    Ok(Found {
        part: part_at(table, at),
        unit,
        path,
    })
}

/// The package that stands there without a unit.
#[tactic(auto, using(crate::proofs::BarePackages::bare))]
pub(crate) fn bare_at(alloc: Global, table: &Table, at: &ElementRef) -> Result<Bare, NoMemory>
    requires none { unit_of table.now at.now.unit ≡ None }
    requires stands { IsElement table.now at.now }
    requires table { IsTable table.now }
    ensures part { IfOk result (λ bare. bare.part ≡ package_part table.now (package_at table.now at.now)) }
    ensures stands { IfOk result (λ bare. IsBareUnit table.now (package_at table.now at.now) bare.unit) }
{
    match table.canonical(alloc, at)? {
        Some(package) => {
            let bare = bare_package(alloc, table, package.as_str())?;
            Ok(bare)
        }
        None => unreachable!(),
    }
}

/// What stands there in a package without a unit.
#[tactic(auto, unfolding(crate::specs::Scopes::find_in))]
pub(crate) fn found_bare<'a>(
    alloc: Global,
    table: &Table,
    bare: &'a Bare,
    at: &ElementRef,
) -> Result<Found<'a>, NoMemory>
    requires none { unit_of table.now at.now.unit ≡ None }
    requires part { bare.now.part ≡ package_part table.now (package_at table.now at.now) }
    requires stands { IsBareUnit table.now (package_at table.now at.now) bare.now.unit }
    ensures value { IfOk result (λ f. find_of f ≡ find_in table.now at.now) }
    ensures placed { IfOk result (λ f. IsPlaced table.now (find_of f)) }
{
    let path = Vec::from_slice(alloc, at.path.as_slice())?;
    Ok(Found {
        part: bare.part,
        unit: &bare.unit,
        path,
    })
}
