// The locations of units.
ghost use Rattle.std.specs.Prelude.{◌≡◌, IfOk, OnOk, OnErr, string_bytes};
ghost use Rattle.std.specs.Option.{option_copied};
ghost use Rattle.std.specs.FinMap as fin;

use crate::location::UnitLocation;
use apt_base::NoMemory;
use std::alloc::Global;
use std::collections::BTreeMap;
use std::marker::Model;

/// Locations by the names of units, which contracts see as a finite map. Each look-up takes logarithmic time.
#[derive(Drop)]
pub(crate) struct Locations {
    held: BTreeMap<String, UnitLocation>,
}

impl Model for Locations {
    ghost use Rattle.unit_locations.specs.LocatedTable.{Locations};
    ghost use Rattle.unit_locations.specs.Held.{locations_of, locations_code};

    ghost Value = { Locations };

    ghost coded = { locations_code };

    ghost view = { λ a. locations_of a.held };
}

// A function of its own, so that what drops a location is proved once.
fn let_go(_location: Option<UnitLocation>) {}

impl Locations {
    /// No locations.
    pub fn new(alloc: Global) -> Self
        ensures { result ≡ fin.empty }
    {
        Locations {
            held: BTreeMap::new(alloc),
        }
    }

    /// The location of the unit of this name.
    pub fn get(&self, name: &str) -> Option<&UnitLocation>
        ensures { option_copied result ≡ fin.get self.now name.now }
    {
        self.held.get(name)
    }

    /// Puts a location under a name. Without memory it is dropped, and the locations stay as they were.
    pub fn insert(&mut self, name: String, location: UnitLocation) -> Result<(), NoMemory>
        ensures ok { OnOk result (self.new ≡ fin.insert self.old (string_bytes name) location) }
        ensures err { OnErr result (self.new ≡ self.old) }
    {
        match self.held.insert(name, location) {
            Ok(replaced) => {
                let_go(replaced);
                Ok(())
            }
            Err(refused) => {
                drop(refused.value);
                Err(NoMemory)
            }
        }
    }

    /// Takes the location of a name away, if it has one. It takes no memory.
    pub fn remove(&mut self, name: &str)
        ensures { self.new ≡ fin.remove self.old name.now }
    {
        let_go(self.held.remove(name));
    }

    /// Equal locations.
    pub fn copy(&self, alloc: Global) -> Result<Locations, NoMemory>
        ensures { IfOk result (λ locations. locations ≡ self.now) }
    {
        let mut locations = Locations::new(alloc);
        for (name, location) in &self.held {
            locations.insert(String::from_str(alloc, name.as_str())?, location.copy()?)?;
        }
        Ok(locations)
    }
}
