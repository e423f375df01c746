// The units of one part, with the types of each package and the member types of each type.
ghost use Rattle.std.specs.Prelude.{◌≡◌, false, true, is_some, string_bytes};
ghost use Rattle.std.specs.Prelude.{IfOk, IfErr, IfSome, OnOk, OnErr};
ghost use Rattle.std.specs.Option.{option_copied};
ghost use Rattle.std.specs.FinMap as fin;
ghost use Rattle.element_table.specs.TableElements.{is_type, part_has_types};
ghost use Rattle.apt_base.specs.Names.{with_names};
ghost use Rattle.element_table.specs.PackageTypes.{types_declared};
ghost use Rattle.element_table.specs.MemberTypes.{AreWithin};

use crate::ChildRange;
use crate::listed::ListedUnits;
use crate::member_index::MemberIndex;
use crate::member_rows::member_key;
use apt_base::{List, Name, Names, NoMemory};
use decl_tree::Unit;
use std::alloc::Global;
use std::marker::Model;

/// Units by name, and where the member types of each type stand by their names. Contracts see them as the
/// units alone. Each look-up takes logarithmic time.
#[derive(Drop)]
pub(crate) struct IndexedUnits {
    alloc: Global,
    units: ListedUnits,
    members: MemberIndex,
}

impl Model for IndexedUnits {
    ghost use Rattle.element_table.specs.TypeTable.{Units};
    ghost use Rattle.element_table.specs.MemberTypes.{ranges_of, CoversAll};
    ghost use Rattle.element_table.specs.Held.{units_code};

    ghost Value = { Units };

    ghost coded = { units_code };

    ghost view = { λ a. a.units };

    ghost invariant = { λ a. CoversAll (ranges_of a.members) a.units };
}

impl IndexedUnits {
    /// No units. It takes no memory.
    pub fn new(alloc: Global) -> Self
        ensures { result ≡ fin.empty }
    {
        IndexedUnits {
            alloc,
            units: ListedUnits::new(alloc),
            members: MemberIndex::new(alloc),
        }
    }

    /// The unit of this name.
    pub fn get(&self, name: &str) -> Option<&Unit>
        ensures { option_copied result ≡ fin.get self.now name.now }
    {
        self.units.get(name)
    }

    /// Whether there is a unit of this name.
    pub fn contains(&self, name: &str) -> bool
        ensures { result ≡ fin.contains_key self.now name.now }
    {
        self.units.contains(name)
    }

    /// Puts a unit under a name that no unit has. Without memory it comes back, and the units stay as they
    /// were.
    pub fn insert(&mut self, name: String, unit: Unit) -> Result<(), Unit>
        requires { fin.contains_key self.old (string_bytes name) ≡ false }
        ensures ok { OnOk result (self.new ≡ fin.insert self.old (string_bytes name) unit) }
        ensures err { OnErr result (self.new ≡ self.old) }
        ensures back { IfErr result (λ back. back ≡ unit) }
    {
        match self.members.add_unit(self.alloc, name.as_str(), &unit) {
            Err(_) => return Err(unit),
            Ok(()) => {}
        }
        self.units.insert(name, unit)
    }

    /// Where the member types of this name stand that the type at a path of a unit declares, as
    /// `Table::member_types` says it.
    pub fn member_types(
        &self,
        alloc: Global,
        unit: &str,
        path: &[u16],
        name: &str,
    ) -> Result<Option<ChildRange>, NoMemory>
        ensures { IfOk result (λ range. AreWithin range (fin.get self.now unit.now) path.now name.now) }
    {
        let key = member_key(alloc, unit, path, name)?;
        Ok(self.members.get(key.as_str()))
    }

    /// A unit that declares a type of this package, or `None` where none does. It takes logarithmic time and
    /// no memory.
    pub fn type_of_package(&self, package: &str) -> Option<&Unit>
        ensures value { is_some result ≡ part_has_types «package».now self.now }
        ensures declares { IfSome result (λ unit. is_type unit.now.body ≡ true) }
        ensures package { IfSome result (λ unit. unit.now.«package» ≡ «package».now) }
    {
        self.units.type_of_package(package)
    }

    /// Adds the names of the types of a package to a set.
    pub fn add_types(&self, package: &str, all: &mut Names) -> Result<(), NoMemory>
        ensures { OnOk result (all.new ≡ with_names all.old (types_declared «package».now self.now)) }
    {
        self.units.add_types(package, all)
    }

    /// The names, ascending by their bytes.
    pub fn names(&self, alloc: Global) -> Result<List<Name>, NoMemory>
        ensures { IfOk result (λ names. names ≡ fin.keys self.now) }
    {
        self.units.names(alloc)
    }

    /// Equal units.
    pub fn copy(&self, alloc: Global) -> Result<IndexedUnits, NoMemory>
        ensures { IfOk result (λ units. units ≡ self.now) }
    {
        Ok(IndexedUnits {
            alloc,
            units: self.units.copy(alloc)?,
            members: self.members.copy(alloc)?,
        })
    }
}
