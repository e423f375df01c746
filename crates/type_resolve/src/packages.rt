// Packages that have no unit.
ghost use Rattle.std.specs.Prelude.{◌≡◌, None, true, IfOk};
ghost use Rattle.element_table.specs.TypeTable.{unit_of, IsTable};
ghost use Rattle.element_table.specs.TableElements.{has_types, info_name};
ghost use Rattle.name_resolve.specs.Placed.{bare_unit};
ghost use Rattle.type_resolve.specs.Scopes.{package_part, IsBareUnit};

use apt_base::{List, NoMemory};
use decl_tree::{Body, Shared, Unit, UnitText};
use element_table::{Part, Table};
use std::alloc::Global;

/// A package without a unit: the part of its types, and a bare unit in which it stands.
#[derive(Drop)]
pub(crate) struct Bare {
    pub part: Part,
    pub unit: Unit,
}

// The bare unit of the package of a unit.
fn bare_unit(alloc: Global, of: &Unit) -> Result<Unit, NoMemory>
    ensures { IfOk result (λ unit. unit ≡ bare_unit of.now.«package») }
{
    let package = of.text().package.copy()?;
    let text = UnitText {
        package,
        imports: Shared::new(alloc, List::new(alloc))?,
        siblings: Shared::new(alloc, List::new(alloc))?,
        body: Body::Info(List::new(alloc), None),
    };
    Unit::new(alloc, text)
}

// The package of a unit, whose types are of this part.
fn bare_of(alloc: Global, part: Part, of: &Unit) -> Result<Bare, NoMemory>
    ensures part { IfOk result (λ bare. bare.part ≡ part) }
    ensures unit { IfOk result (λ bare. bare.unit ≡ bare_unit of.now.«package») }
{
    let unit = bare_unit(alloc, of)?;
    Ok(Bare { part, unit })
}

/// A package of which a type is in the table, and that has no unit there.
#[tactic(auto, using(crate::proofs::BarePackages::bare))]
pub(crate) fn bare_package(alloc: Global, table: &Table, package: &str) -> Result<Bare, NoMemory>
    requires table { IsTable table.now }
    requires types { has_types table.now «package».now ≡ true }
    requires free { unit_of table.now (info_name «package».now) ≡ None }
    ensures part { IfOk result (λ bare. bare.part ≡ package_part table.now «package».now) }
    ensures stands { IfOk result (λ bare. IsBareUnit table.now «package».now bare.unit) }
{
    match table.type_of_package(Part::Source, package) {
        Some(of) => {
            let bare = bare_of(alloc, Part::Source, of)?;
            Ok(bare)
        }
        None => match table.type_of_package(Part::Stub, package) {
            Some(of) => {
                let bare = bare_of(alloc, Part::Stub, of)?;
                Ok(bare)
            }
            None => unreachable!(),
        },
    }
}
