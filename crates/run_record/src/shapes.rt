// The units of a record, each by its name and its shape.
ghost use Rattle.std.specs.Prelude.{◌≡◌, IfOk};
ghost use Rattle.run_record.specs.Shapes.{shape_at, all_shaped, sources_shaped, shapes_length, IsLeft};

use apt_base::{List, Name, NoMemory};
use decl_syntax::shape;
use element_table::{Part, Table};
use std::alloc::Global;

// The shape of the unit of this name; nothing where the table has none.
fn shape_at(alloc: Global, table: &Table, name: &Name) -> Result<List<u8>, NoMemory>
    ensures { IfOk result (λ bytes. bytes ≡ shape_at table.now name.now) }
{
    match table.find(name) {
        Some(unit) => shape(alloc, unit),
        None => Ok(List::new(alloc)),
    }
}

/// These units by their names and their shapes.
pub(crate) fn all_shaped(
    alloc: Global,
    table: &Table,
    names: &[Name],
) -> Result<List<(Name, List<u8>)>, NoMemory>
    ensures { IfOk result (λ units. units ≡ all_shaped table.now names.now) }
{
    let mut units = List::new(alloc);
    for name in names {
        let shape = shape_at(alloc, table, name)?;
        units.push((name.copy()?, shape))?;
    }
    Ok(units)
}

/// The units of the sources of a table, each by its name and its shape, ascending by name.
pub(crate) fn sources_shaped(
    alloc: Global,
    table: &Table,
) -> Result<List<(Name, List<u8>)>, NoMemory>
    ensures { IfOk result (λ units. units ≡ sources_shaped table.now) }
{
    let names = table.names(alloc, Part::Source)?;
    all_shaped(alloc, table, names.as_slice())
}

/// What is left of a number of bytes behind the shapes of these units; `None` where they are more. One shape at a time is in
/// memory.
pub(crate) fn left_behind_units(
    alloc: Global,
    table: &Table,
    names: &[Name],
    most: usize,
) -> Result<Option<usize>, NoMemory>
    ensures { IfOk result (IsLeft most (shapes_length table.now names.now)) }
{
    let mut left = most;
    for name in names {
        let length = shape_at(alloc, table, name)?.len();
        if length > left {
            return Ok(None);
        }
        left -= length;
    }
    Ok(Some(left))
}
