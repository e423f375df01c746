// The units of one part, with the types of each package.
ghost use Rattle.std.specs.Prelude.{◌≡◌, false, true, is_some, IfOk, IfErr, IfSome, OnOk, OnErr, string_bytes};
ghost use Rattle.std.specs.Option.{option_copied};
ghost use Rattle.std.specs.FinMap as fin;
ghost use Rattle.element_table.specs.TableElements.{is_type, part_has_types};
ghost use Rattle.apt_base.specs.Names.{with_names};
ghost use Rattle.element_table.specs.PackageTypes.{types_declared};

use crate::packages::is_type;
use crate::units::Units;
use apt_base::{List, Name, Names, NoMemory};
use decl_tree::Unit;
use name_index::NameIndex;
use std::alloc::Global;
use std::marker::Model;

/// Units by name, and the names of those that declare a type by its package. Contracts see them as the units alone. Each look-up takes logarithmic time.
#[derive(Drop)]
pub(crate) struct ListedUnits {
    units: Units,
    packages: NameIndex,
}

impl Model for ListedUnits {
    ghost use Rattle.element_table.specs.TypeTable.{Units};
    ghost use Rattle.element_table.specs.PackageTypes.{IsIndexOf};
    ghost use Rattle.element_table.specs.Held.{units_code};

    ghost Value = { Units };

    ghost coded = { units_code };

    ghost view = { λ a. a.units };

    ghost invariant = { λ a. IsIndexOf a.packages a.units };
}

impl ListedUnits {
    /// No units. It takes no memory.
    pub fn new(alloc: Global) -> Self
        ensures { result ≡ fin.empty }
    {
        ListedUnits {
            units: Units::new(alloc),
            packages: NameIndex::new(alloc),
        }
    }

    /// The unit of this name.
    pub fn get(&self, name: &str) -> Option<&Unit>
        ensures { option_copied result ≡ fin.get self.now name.now }
    {
        self.units.get(name)
    }

    /// Whether there is a unit of this name.
    pub fn contains(&self, name: &str) -> bool
        ensures { result ≡ fin.contains_key self.now name.now }
    {
        self.units.contains(name)
    }

    // Puts a unit that declares a type: its name goes to its package first, and away again where there is no memory for the unit.
    fn insert_type(&mut self, name: String, unit: Unit) -> Result<(), Unit>
        requires new { fin.contains_key self.old (string_bytes name) ≡ false }
        requires declared { is_type unit.body ≡ true }
        ensures ok { OnOk result (self.new ≡ fin.insert self.old (string_bytes name) unit) }
        ensures err { OnErr result (self.new ≡ self.old) }
        ensures back { IfErr result (λ back. back ≡ unit) }
    {
        let package = unit.text().package.as_str();
        match self.packages.add(package, name.as_str()) {
            Err(_) => return Err(unit),
            Ok(()) => {}
        }
        match self.units.insert_with_name(name, unit) {
            Ok(()) => Ok(()),
            Err((name, unit)) => {
                let package = unit.text().package.as_str();
                self.packages.remove(package, name.as_str());
                Err(unit)
            }
        }
    }

    /// Puts a unit under a name that no unit has. Without memory it comes back, and the units stay as they were.
    pub fn insert(&mut self, name: String, unit: Unit) -> Result<(), Unit>
        requires { fin.contains_key self.old (string_bytes name) ≡ false }
        ensures ok { OnOk result (self.new ≡ fin.insert self.old (string_bytes name) unit) }
        ensures err { OnErr result (self.new ≡ self.old) }
        ensures back { IfErr result (λ back. back ≡ unit) }
    {
        if is_type(&unit.text().body) {
            return self.insert_type(name, unit);
        }
        self.units.insert(name, unit)
    }

    /// A unit that declares a type of this package, or `None` where none does. It takes logarithmic time and no memory.
    pub fn type_of_package(&self, package: &str) -> Option<&Unit>
        ensures value { is_some result ≡ part_has_types «package».now self.now }
        ensures declares { IfSome result (λ unit. is_type unit.now.body ≡ true) }
        ensures package { IfSome result (λ unit. unit.now.«package» ≡ «package».now) }
    {
        match self.packages.first(package) {
            Some(name) => self.units.get(name),
            None => None,
        }
    }

    /// Adds the names of the types of a package to a set.
    pub fn add_types(&self, package: &str, all: &mut Names) -> Result<(), NoMemory>
        ensures { OnOk result (all.new ≡ with_names all.old (types_declared «package».now self.now)) }
    {
        match self.packages.names(package) {
            Some(names) => all.insert_all(names),
            None => Ok(()),
        }
    }

    /// The names, ascending by their bytes.
    pub fn names(&self, alloc: Global) -> Result<List<Name>, NoMemory>
        ensures { IfOk result (λ names. names ≡ fin.keys self.now) }
    {
        self.units.names(alloc)
    }

    /// Equal units.
    pub fn copy(&self, alloc: Global) -> Result<ListedUnits, NoMemory>
        ensures { IfOk result (λ units. units ≡ self.now) }
    {
        Ok(ListedUnits {
            units: self.units.copy(alloc)?,
            packages: self.packages.copy(alloc)?,
        })
    }
}
