// The types of a recorded build.
ghost use Rattle.std.specs.Prelude.{◌≡◌, ◌≤◌, true, is_some, length, Some, IfOk};
ghost use Rattle.std.specs.Str.{bytes_eq};
ghost use Rattle.element_table.specs.UnitNames.{unit_name};
ghost use Rattle.apt_base.specs.Readings.{GivesAll};
ghost use Rattle.decl_syntax.specs.Reading.{whole_unit};
ghost use Rattle.origin_record.specs.OldTables.{unit_at, enter_named, enter_all, enter_rounds, table_at, Enters};

use apt_base::{FormFault, List, Name, NoMemory};
use decl_syntax::parse_shape;
use decl_tree::Unit;
use element_table::{EnterFault, Part, Table, unit_name};
use record_forms::{OldRound, Record};
use std::alloc::Global;

// The unit of which the bytes are the shape.
fn parsed(alloc: Global, bytes: &[u8]) -> Result<Unit, FormFault>
    ensures { GivesAll result (whole_unit bytes.now) }
{
    match parse_shape(alloc, bytes) {
        Ok(unit) => {
            // That it is legal makes it the unit that is read.
            unit.text();
            Ok(unit)
        }
        Err(fault) => Err(fault),
    }
}

fn is_named(alloc: Global, unit: &Unit, name: &Name) -> Result<bool, NoMemory>
    ensures { IfOk result (λ named. named ≡ bytes_eq (unit_name unit.now) name.now) }
{
    let own = unit_name(alloc, unit)?;
    Ok(own.as_str() == name.as_str())
}

#[tactic(auto, unfolding(crate::specs::OldTables::unit_at))]
fn unit_at(alloc: Global, named: &(Name, List<u8>)) -> Result<Unit, FormFault>
    ensures { GivesAll result (unit_at named.now) }
{
    let unit = parsed(alloc, named.1.as_slice())?;
    if is_named(alloc, &unit, &named.0)? {
        Ok(unit)
    } else {
        drop(unit);
        Err(FormFault::Bad)
    }
}

#[tactic(auto, unfolding(crate::specs::OldTables::enter_named))]
fn enter_named(alloc: Global, table: &mut Table, named: &(Name, List<u8>)) -> Result<(), FormFault>
    ensures { Enters result (enter_named table.old named.now) table.new }
{
    let unit = unit_at(alloc, named)?;
    match table.enter(Part::Source, unit) {
        Ok(()) => Ok(()),
        Err(EnterFault::Memory(unit)) => {
            drop(unit);
            Err(FormFault::Memory)
        }
        Err(EnterFault::Duplicate(unit)) => {
            drop(unit);
            Err(FormFault::Bad)
        }
        Err(EnterFault::TooMany(unit)) => {
            drop(unit);
            Err(FormFault::Bad)
        }
    }
}

fn enter_all(alloc: Global, table: &mut Table, units: &[(Name, List<u8>)]) -> Result<(), FormFault>
    ensures { Enters result (enter_all table.old units.now) table.new }
{
    for named in units {
        enter_named(alloc, table, named)?;
    }
    Ok(())
}

fn enter_rounds(alloc: Global, table: &mut Table, rounds: &[OldRound]) -> Result<(), FormFault>
    ensures { Enters result (enter_rounds table.old rounds.now) table.new }
{
    for round in rounds {
        enter_all(alloc, table, round.entered.as_slice())?;
    }
    Ok(())
}

/// The table of the round with this number, counted from 1, with an empty part of stubs. It is `Bad` where a shape has no
/// reading with the name beside it, where a unit name comes twice, and where there are more than 50,000 types.
#[tactic(auto, unfolding(crate::specs::OldTables::table_at))]
pub(crate) fn table_at(alloc: Global, value: &Record, round: usize) -> Result<Table, FormFault>
    requires { round ≤ length value.now.rounds }
    ensures { GivesAll result (table_at value.now round) }
{
    let mut table = Table::new(alloc);
    enter_all(alloc, &mut table, value.initial.as_slice())?;
    enter_rounds(alloc, &mut table, &value.rounds.as_slice()[..round])?;
    Ok(table)
}

/// The types of a recorded build in the round with this number, counted from 1: the initial units and those that entered
/// up to that round, as sources, and no stubs. With 0 it is the initial units alone. The record has so many rounds at
/// least, and its units enter one table, as conditions; a record that was read has the second. `NoMemory` where memory ran
/// out.
pub fn old_table(alloc: Global, value: &Record, round: u32) -> Result<Table, NoMemory>
    requires within { round ≤ length value.now.rounds }
    requires enters { is_some (table_at value.now (length value.now.rounds)) ≡ true }
    ensures { IfOk result (λ table. table_at value.now round ≡ Some table) }
{
    match table_at(alloc, value, round as usize) {
        Ok(table) => Ok(table),
        Err(FormFault::Memory) => Err(NoMemory),
        Err(FormFault::Bad) => unreachable!(),
    }
}
