// The units of a project in its type table.
ghost use Rattle.std.specs.Prelude.{◌≡◌, IfOk};
ghost use Rattle.project_units.specs.Units.{unit_names};

use apt_base::{List, Name, NoMemory};
use element_table::Part;
use std::alloc::Global;
use unit_locations::LocatedTable;

/// The names of all units of a table, those of its sources first.
pub fn unit_names(alloc: Global, table: &LocatedTable) -> Result<List<Name>, NoMemory>
    ensures { IfOk result (λ names. names ≡ unit_names table.now) }
{
    let table = table.table();
    let mut names = table.names(alloc, Part::Source)?;
    for name in table.names(alloc, Part::Stub)?.into_vec() {
        names.push(name)?;
    }
    Ok(names)
}
