// A type table with the location of each unit.
ghost use Rattle.std.specs.Prelude.{◌≡◌, None, IfOk, IfErr, OnOk, OnErr};
ghost use Rattle.std.specs.Option.{option_copied, option_map};
ghost use Rattle.std.specs.FinMap as fin;
ghost use Rattle.element_table.specs.TypeTable.{answer_to, entered, Answers, unit_back};
ghost use Rattle.unit_locations.specs.LocatedTable.{nothing_located, path_of, location_in, location_of, shown_location, entered_at, LocationsStay};

use crate::lines::line_at;
use crate::location::UnitLocation;
use crate::locations::Locations;
use apt_base::{ElementRef, Name, NoMemory};
use decl_tree::Unit;
use element_table::{EnterFault, Part, Table, unit_name};
use std::alloc::Global;
use std::marker::Model;

/// Where an element is declared.
#[derive(Clone, Copy)]
pub struct Location<'a> {
    /// The path of its file.
    pub path: &'a Name,
    /// The line of its name.
    pub line: u32,
}

/// A type table with the location of each of its units.
#[derive(Drop)]
pub struct LocatedTable {
    alloc: Global,
    table: Table,
    locations: Locations,
}

impl Model for LocatedTable {
    ghost use Rattle.unit_locations.specs.LocatedTable.{LocatedTable, located, IsLocated};
    ghost use Rattle.unit_locations.specs.Held.{located_code};

    ghost Value = { LocatedTable };

    ghost coded = { located_code };

    ghost view = { λ a. located a.table a.locations };

    ghost invariant = { λ a. IsLocated (located a.table a.locations) };
}

// Enters a unit whose name has no location, and its location. Where it is not entered both stay as they were.
fn enter_both(
    alloc: Global,
    table: &mut Table,
    locations: &mut Locations,
    part: Part,
    name: &Name,
    unit: Unit,
    location: UnitLocation,
) -> Result<(), EnterFault>
    requires { fin.get locations.old name.now ≡ None }
    ensures answer { Answers (answer_to table.old unit) result }
    ensures table { OnOk result (table.new ≡ entered part unit table.old) }
    ensures locations { OnOk result (locations.new ≡ fin.insert locations.old name.now location) }
    ensures table_err { OnErr result (table.new ≡ table.old) }
    ensures locations_err { OnErr result (locations.new ≡ locations.old) }
    ensures back { IfErr result (λ fault. unit_back fault ≡ unit) }
{
    let Ok(key) = String::from_str(alloc, name.as_str()) else {
        drop(location);
        return Err(EnterFault::Memory(unit));
    };
    match locations.insert(key, location) {
        Ok(()) => {}
        Err(_) => return Err(EnterFault::Memory(unit)),
    }
    match table.enter(part, unit) {
        Ok(()) => Ok(()),
        Err(fault) => {
            locations.remove(name.as_str());
            Err(fault)
        }
    }
}

// The line of what stands at a path of a unit with this location, with the path of its file.
fn location_in<'a>(unit: &Unit, path: &[u16], location: &'a UnitLocation) -> Option<Location<'a>>
    ensures { option_map shown_location result ≡ location_in unit.now path.now location.now }
{
    match line_at(unit, location.lines.get(), path) {
        Some(line) => Some(Location {
            path: location.path.get(),
            line,
        }),
        None => None,
    }
}

impl LocatedTable {
    /// An empty table. It takes no memory.
    pub fn new(alloc: Global) -> Self
        ensures { result ≡ nothing_located }
    {
        LocatedTable {
            alloc,
            table: Table::new(alloc),
            locations: Locations::new(alloc),
        }
    }

    /// The table, without the locations.
    pub fn table(&self) -> &Table
        ensures { result.now ≡ self.now.table }
    {
        &self.table
    }

    /// Enters a unit into a part, as `Table::enter`, and its location. After a refusal both are as they were.
    pub fn enter(
        &mut self,
        part: Part,
        unit: Unit,
        location: UnitLocation,
    ) -> Result<(), EnterFault>
        ensures answer { Answers (answer_to self.old.table unit) result }
        ensures ok { OnOk result (self.new ≡ entered_at part unit location self.old) }
        ensures err { OnErr result (self.new ≡ self.old) }
        ensures back { IfErr result (λ fault. unit_back fault ≡ unit) }
    {
        let Ok(name) = unit_name(self.alloc, &unit) else {
            drop(location);
            return Err(EnterFault::Memory(unit));
        };
        if self.table.part(&name).is_some() {
            drop(location);
            return Err(EnterFault::Duplicate(unit));
        }
        match enter_both(
            self.alloc,
            &mut self.table,
            &mut self.locations,
            part,
            &name,
            unit,
            location,
        ) {
            Ok(()) => Ok(()),
            Err(fault) => Err(fault),
        }
    }

    /// The path of the file that gave the unit of this name, or `None` where there is none. It takes no memory.
    pub fn path_of(&self, name: &Name) -> Option<&Name>
        ensures { option_copied result ≡ path_of self.now name.now }
    {
        match self.locations.get(name.as_str()) {
            Some(location) => Some(location.path.get()),
            None => None,
        }
    }

    /// Where an element is declared, or `None` exactly where it is none of these units. It takes no memory.
    pub fn location_of(&self, element: &ElementRef) -> Option<Location<'_>>
        ensures { option_map shown_location result ≡ location_of self.now element.now }
    {
        let Some(unit) = self.table.find(&element.unit) else {
            return None;
        };
        match self.locations.get(element.unit.as_str()) {
            Some(location) => location_in(unit, element.path.as_slice(), location),
            None => None,
        }
    }

    /// An equal table, which shares the units and their locations.
    pub fn copy(&self, alloc: Global) -> Result<LocatedTable, NoMemory>
        ensures { IfOk result (λ table. table ≡ self.now) }
    {
        Ok(LocatedTable {
            alloc,
            table: self.table.copy(alloc)?,
            locations: self.locations.copy(alloc)?,
        })
    }
}

/// What is declared somewhere stays declared there when a unit is entered whose name was not there.
pub fn locations_stay()
    ensures { LocationsStay }
{}
