// Elements of the table.
ghost use Rattle.std.specs.Prelude.{◌≡◌, None, IfOk, IfSome, IfNone};
ghost use Rattle.element_table.specs.TypeTable.{IsTable, unit_of};
ghost use Rattle.name_resolve.specs.Shown.{find_of};
ghost use Rattle.annotation_values.specs.Remembered.{StandsIn};

use crate::values::Values;
use apt_base::{ElementRef, Name, NoMemory};
use element_table::Table;
use name_resolve::Found;
use std::alloc::Global;
use type_resolve::found_in;

/// What stands at an element, if the table has its unit.
pub(crate) fn located<'a>(
    values: &Values<'a>,
    at: &ElementRef,
) -> Result<Option<Found<'a>>, NoMemory>
    ensures stands { IfOk result (λ found. IfSome found (λ f. StandsIn values.now at.now (find_of f))) }
    ensures free { IfOk result (λ found. IfNone found (unit_of values.now at.now.unit ≡ None)) }
{
    let table = values.table();
    match table.find(&at.unit) {
        None => Ok(None),
        Some(unit) => {
            let found = found_in(values.alloc, table, unit, at)?;
            Ok(Some(found))
        }
    }
}

/// The values over a table, of which nothing was asked yet.
pub(crate) fn values_over<'a>(alloc: Global, table: &'a Table) -> Result<Values<'a>, NoMemory>
    ensures value { IfOk result (λ values. values ≡ table.now) }
    ensures table { IfOk result (λ values. IsTable table.now) }
{
    let object = Name::new(alloc, "java.lang.Object")?;
    let _declared = table.find(&object);
    Ok(Values::new(alloc, table))
}
