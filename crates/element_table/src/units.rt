// The units of one part.
ghost use Rattle.std.specs.Prelude.{◌≡◌, IfOk, IfErr, OnOk, OnErr, string_bytes};
ghost use Rattle.std.specs.Option.{option_copied};
ghost use Rattle.std.specs.FinMap as fin;

use apt_base::{List, Name, NoMemory};
use decl_tree::Unit;
use std::alloc::Global;
use std::collections::BTreeMap;
use std::marker::Model;

/// Units by name, which contracts see as a finite map. Each look-up takes logarithmic time.
#[derive(Drop)]
pub(crate) struct Units {
    held: BTreeMap<String, Unit>,
}

impl Model for Units {
    ghost use Rattle.element_table.specs.TypeTable.{Units};
    ghost use Rattle.element_table.specs.Held.{units_of, units_code};

    ghost Value = { Units };

    ghost coded = { units_code };

    ghost view = { λ a. units_of a.held };
}

// A function of its own, so that what drops a unit is proved once.
fn let_go(_unit: Option<Unit>) {}

impl Units {
    /// No units.
    pub fn new(alloc: Global) -> Self
        ensures { result ≡ fin.empty }
    {
        Units {
            held: BTreeMap::new(alloc),
        }
    }

    /// The unit of this name.
    pub fn get(&self, name: &str) -> Option<&Unit>
        ensures { option_copied result ≡ fin.get self.now name.now }
    {
        self.held.get(name)
    }

    /// Whether there is a unit of this name.
    pub fn contains(&self, name: &str) -> bool
        ensures { result ≡ fin.contains_key self.now name.now }
    {
        self.held.contains_key(name)
    }

    /// Puts a unit under a name. Without memory both come back, and the units stay as they were.
    pub fn insert_with_name(&mut self, name: String, unit: Unit) -> Result<(), (String, Unit)>
        ensures ok { OnOk result (self.new ≡ fin.insert self.old (string_bytes name) unit) }
        ensures err { OnErr result (self.new ≡ self.old) }
        ensures back { IfErr result (λ back. back ≡ (name, unit)) }
    {
        match self.held.insert(name, unit) {
            Ok(replaced) => {
                let_go(replaced);
                Ok(())
            }
            Err(refused) => Err(refused.value),
        }
    }

    /// The same, where the unit alone comes back.
    pub fn insert(&mut self, name: String, unit: Unit) -> Result<(), Unit>
        ensures ok { OnOk result (self.new ≡ fin.insert self.old (string_bytes name) unit) }
        ensures err { OnErr result (self.new ≡ self.old) }
        ensures back { IfErr result (λ back. back ≡ unit) }
    {
        match self.insert_with_name(name, unit) {
            Ok(()) => Ok(()),
            Err((_, unit)) => Err(unit),
        }
    }

    // The same, where a unit for which there is no memory is dropped.
    fn add(&mut self, name: String, unit: Unit) -> Result<(), NoMemory>
        ensures { OnOk result (self.new ≡ fin.insert self.old (string_bytes name) unit) }
    {
        match self.insert(name, unit) {
            Ok(()) => Ok(()),
            Err(unit) => {
                let_go(Some(unit));
                Err(NoMemory)
            }
        }
    }

    /// The names, ascending by their bytes.
    pub fn names(&self, alloc: Global) -> Result<List<Name>, NoMemory>
        ensures { IfOk result (λ names. names ≡ fin.keys self.now) }
    {
        let mut names = List::new(alloc);
        for name in self.held.keys() {
            names.push(Name::new(alloc, name.as_str())?)?;
        }
        Ok(names)
    }

    /// Equal units.
    pub fn copy(&self, alloc: Global) -> Result<Units, NoMemory>
        ensures { IfOk result (λ units. units ≡ self.now) }
    {
        let mut units = Units::new(alloc);
        for (name, unit) in &self.held {
            units.add(String::from_str(alloc, name.as_str())?, unit.copy()?)?;
        }
        Ok(units)
    }
}
