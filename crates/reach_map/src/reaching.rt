// The reach of a unit, and of several.
ghost use Rattle.std.specs.Prelude.{◌≡◌, IfOk, OnOk};
ghost use Rattle.std.specs.Option.{option_copied};
ghost use Rattle.std.specs.FinMap as fin;
ghost use Rattle.apt_base.specs.Names.{with_name, with_names};
ghost use Rattle.reach_map.specs.Reach.{IsReachList, IsReachOfAll};
ghost use Rattle.reach_map.specs.Reaching.{holds, left_with, left_after, reached_behind, left_behind};

use crate::gathered::candidates;
use apt_base::{List, Name, Names, NoMemory};
use decl_tree::Unit;
use element_table::{Part, Table};
use std::alloc::Global;
use std::slice;

/// The source unit of this name.
pub(crate) fn source<'a>(table: &'a Table, name: &Name) -> Option<&'a Unit>
    ensures { option_copied result ≡ fin.get table.now.source name.now }
{
    match table.part(name)? {
        Part::Source => table.find(name),
        Part::Stub => None,
    }
}

fn is_source(table: &Table, name: &Name) -> bool
    ensures { result ≡ fin.contains_key table.now.source name.now }
{
    source(table, name).is_some()
}

// Reaches a name: a source that is new is left to be followed.
fn visit(
    table: &Table,
    name: &Name,
    reached: &mut Names,
    left: &mut Vec<Name>,
) -> Result<(), NoMemory>
    ensures reached { OnOk result (reached.new ≡ with_name reached.old name.now) }
    ensures left { OnOk result (left.new.items ≡ left_with table.now reached.old left.old.items name.now) }
{
    if reached.contains(name.as_str()) {
        return Ok(());
    }
    reached.insert(name.as_str())?;
    if is_source(table, name) {
        left.push(name.copy()?)?;
    }
    Ok(())
}

// Reaches each of some names.
fn visit_all(
    table: &Table,
    names: &[Name],
    reached: &mut Names,
    left: &mut Vec<Name>,
) -> Result<(), NoMemory>
    ensures reached { OnOk result (reached.new ≡ with_names reached.old names.now) }
    ensures left { OnOk result (left.new.items ≡ left_after table.now reached.old left.old.items names.now) }
{
    for name in names {
        visit(table, name, reached, left)?;
    }
    Ok(())
}

// Reaches the candidates of the source of this name, where there is one.
fn follow(
    alloc: Global,
    table: &Table,
    name: &Name,
    reached: &mut Names,
    left: &mut Vec<Name>,
) -> Result<(), NoMemory>
    ensures reached { OnOk result (reached.new ≡ reached_behind table.now reached.old name.now) }
    ensures left { OnOk result (left.new.items ≡ left_behind table.now reached.old left.old.items name.now) }
{
    match source(table, name) {
        None => Ok(()),
        Some(unit) => {
            let names = candidates(alloc, unit)?;
            visit_all(table, names.as_slice(), reached, left)
        }
    }
}

/// The reach of some units together: the least set of names that holds theirs and, with each source unit of the table in it, that unit's candidates. It follows each source once, however many of the units lead to it.
pub fn reach_of_all(alloc: Global, table: &Table, units: &[Name]) -> Result<Names, NoMemory>
    ensures { IfOk result (λ names. IsReachOfAll table.now units.now (holds names)) }
{
    let mut reached = Names::new(alloc);
    let mut left = Vec::new(alloc);
    visit_all(table, units, &mut reached, &mut left)?;
    while let Some(name) = left.pop() {
        follow(alloc, table, &name, &mut reached, &mut left)?;
    }
    Ok(reached)
}

/// The reach of a unit: the least set of names that holds its own and, with each source unit of the table in it, that unit's candidates; ascending by their bytes. Of a stub, and of a name that the table does not have, it is the name alone. It follows each source once.
pub fn reach(alloc: Global, table: &Table, unit: &Name) -> Result<List<Name>, NoMemory>
    ensures { IfOk result (λ names. IsReachList table.now unit.now names) }
{
    let reached = reach_of_all(alloc, table, slice::from_ref(unit))?;
    reached.list()
}
