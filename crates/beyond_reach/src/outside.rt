// Which names lie outside of what some units lead to.
ghost use Rattle.std.specs.Prelude.{◌≡◌, IfOk};
ghost use Rattle.std.specs.List.{list_any};
ghost use Rattle.std.specs.FinMap as fin;
ghost use Rattle.apt_base.specs.Names.{with_names};
ghost use Rattle.beyond_reach.specs.Reached.{is_outside, some_outside};

use apt_base::{Name, Names, NoMemory};
use element_table::{Part, Table};
use reach_map::reach_of_all;
use std::alloc::Global;

fn set_of(alloc: Global, names: &[Name]) -> Result<Names, NoMemory>
    ensures { IfOk result (λ set. set ≡ with_names fin.empty names.now) }
{
    let mut set = Names::new(alloc);
    for name in names {
        set.insert(name.as_str())?;
    }
    Ok(set)
}

fn is_stub(table: &Table, name: &Name) -> bool
    ensures { result ≡ fin.contains_key table.now.stub name.now }
{
    // no name is in both parts, as each look-up says
    table.find(name);
    match table.part(name) {
        Some(Part::Stub) => true,
        Some(Part::Source) | None => false,
    }
}

// Whether a name is neither that of a stub nor in the set.
fn is_outside(table: &Table, set: &Names, name: &Name) -> bool
    ensures { result ≡ is_outside table.now set.now name.now }
{
    !is_stub(table, name) && !set.contains(name.as_str())
}

fn is_some_outside(table: &Table, set: &Names, names: &[Name]) -> bool
    ensures { result ≡ list_any (is_outside table.now set.now) names.now }
{
    names.iter().any(|name| is_outside(table, set, name))
}

/// Whether one of the names is that of no stub, and none of the units leads to it. Only where one of them is neither
/// that of a stub nor of one of the units, the reach of the units is found: once, for all of them together.
#[tactic(auto, using(crate::proofs::NamesOutside::none_outside, crate::proofs::NamesOutside::outside_by_reach))]
pub(crate) fn some_outside(
    alloc: Global,
    table: &Table,
    units: &[Name],
    names: &[Name],
) -> Result<bool, NoMemory>
    ensures { IfOk result (λ outside. outside ≡ some_outside table.now units.now names.now) }
{
    let themselves = set_of(alloc, units)?;
    if !is_some_outside(table, &themselves, names) {
        return Ok(false);
    }
    let reached = reach_of_all(alloc, table, units)?;
    Ok(is_some_outside(table, &reached, names))
}
