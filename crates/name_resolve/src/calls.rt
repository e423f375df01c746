// The calls that look names up.
ghost use Rattle.apt_base.specs.Identifiers.{parts};
ghost use Rattle.name_resolve.specs.Meaning.{scope_of, meaning};
ghost use Rattle.name_resolve.specs.Placed.{IsPlaced};
ghost use Rattle.name_resolve.specs.Shown.{find_of, Gives};

use crate::finds::{Finds, Found};
use crate::looks::Looks;
use crate::names::split;
use apt_base::NoMemory;
use element_table::Table;
use std::alloc::Global;

/// The type or the type parameter that a name means where it is written (JLS 6.4, 6.5.5): in an element of the
/// table, as a condition, or in the `extends` or `implements` clause of one. `Nothing` where it means none, and
/// `Several` where it is ambiguous. The parts of the name are those that dots join.
pub fn name_meaning<'a>(
    alloc: Global,
    table: &'a Table,
    header: bool,
    at: &Found<'a>,
    name: &str,
) -> Result<Finds<'a>, NoMemory>
    requires placed { IsPlaced table.now (find_of at.now) }
    ensures { Gives result (meaning table.now (scope_of header (find_of at.now)) (parts name.now)) }
{
    let names = split(alloc, name)?;
    let mut looks = Looks::new(alloc, table);
    let finds = looks.meaning(header, at, names.as_slice())?;
    Ok(finds)
}
