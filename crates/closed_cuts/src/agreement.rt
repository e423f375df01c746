// Whether two tables agree on the reach of a unit.
ghost use Rattle.std.specs.Prelude.{◌≡◌, ◌↔◌, IsTrue, IfOk, Some};
ghost use Rattle.element_table.specs.TypeTable.{part_of};
ghost use Rattle.element_table.specs.declared.part.Part.TheVariants.{Source};
ghost use Rattle.closed_cuts.specs.AgreementLaws.{AgreeOnReach, ShareAllOfReach};

use crate::laws::{
    fields_agree, names_agree, presence_agrees, questions_agree, shared_reaches_are_one,
    types_agree, values_agree,
};
use apt_base::{Name, NoMemory};
use element_table::Table;
use reach_map::{agrees, reach};
use std::alloc::Global;

/// Whether two tables with the same stubs agree on the reach of a source unit of the first: under each of
/// its names both have a source unit with the same shape, or neither has a source unit.
///
/// Where they do, that is the reach of the unit over both, and all that can be asked of names, types, present
/// annotations and values at the elements of its sources and of the stubs has the same answer over both
/// (`specs/AgreementLaws`).
pub fn agrees_on_reach(
    alloc: Global,
    one: &Table,
    other: &Table,
    root: &Name,
) -> Result<bool, NoMemory>
    requires stubs { one.now.stub ≡ other.now.stub }
    requires source { part_of one.now root.now ≡ Some Source }
    ensures value { IfOk result (λ agree. IsTrue agree ↔ AgreeOnReach one.now other.now root.now) }
    ensures law { IfOk result (λ agree. IsTrue agree → ShareAllOfReach one.now other.now root.now) }
{
    // no name is in both parts of a table, as each look-up says
    one.find(root);
    other.find(root);
    shared_reaches_are_one();
    names_agree();
    fields_agree();
    types_agree();
    questions_agree();
    presence_agrees();
    values_agree();
    let names = reach(alloc, one, root)?;
    Ok(agrees(one, other, &names))
}
