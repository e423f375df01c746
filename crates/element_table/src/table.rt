// The type table.
ghost use Rattle.std.specs.Prelude.{◌≡◌, true, is_some, IfOk, IfErr, IfSome, OnOk, OnErr, string_bytes};
ghost use Rattle.std.specs.Option.{option_copied};
ghost use Rattle.std.specs.FinMap as fin;
ghost use Rattle.element_table.specs.UnitNames.{unit_name};
ghost use Rattle.element_table.specs.TypeTable.{empty_table, units_in, unit_of, part_of, has_unit, entered, answer_to, Answers, unit_back, IsTable};
ghost use Rattle.element_table.specs.TableElements.{is_type, part_has_types, has_types};
ghost use Rattle.element_table.specs.PackageTypes.{package_types};
ghost use Rattle.element_table.specs.MemberTypes.{AreWithin};
ghost use Rattle.element_table.specs.declared.answer.Answer.TheVariants.{IsNew};

use crate::answer::Answer;
use crate::counting::with_unit;
use crate::indexed::IndexedUnits;
use crate::naming::name_of;
use crate::{ChildRange, EnterFault, Part};
use apt_base::{List, Name, Names, NoMemory};
use decl_tree::Unit;
use std::alloc::Global;
use std::marker::Model;

/// The units of a project and of its stubs by their canonical names. No name is in both parts, each unit stands under its own name, and the units of both parts have at most 50,000 types, nested ones included.
#[derive(Drop)]
pub struct Table {
    alloc: Global,
    sources: IndexedUnits,
    stubs: IndexedUnits,
    // How many types the units of both parts have, nested ones included.
    types: usize,
}

impl Model for Table {
    ghost use Rattle.element_table.specs.TypeTable.{TypeTable, table_of, IsTableOf};
    ghost use Rattle.element_table.specs.Held.{table_code};

    ghost Value = { TypeTable };

    ghost coded = { table_code };

    ghost view = { λ a. table_of a.sources a.stubs };

    ghost invariant = { λ a. IsTableOf a.types (table_of a.sources a.stubs) };
}

impl Table {
    /// An empty table. It takes no memory.
    pub fn new(alloc: Global) -> Self
        ensures { result ≡ empty_table }
    {
        Table {
            alloc,
            sources: IndexedUnits::new(alloc),
            stubs: IndexedUnits::new(alloc),
            types: 0,
        }
    }

    fn has_unit(&self, name: &str) -> bool
        ensures { result ≡ has_unit self.now name.now }
    {
        self.sources.contains(name) || self.stubs.contains(name)
    }

    #[tactic(auto, unfolding(crate::specs::TypeTable::answer_to))]
    fn answer_to(&self, name: &str, unit: &Unit) -> Result<Answer, NoMemory>
        requires { name.now ≡ unit_name unit.now }
        ensures { IfOk result (λ answer. answer ≡ answer_to self.now unit.now) }
    {
        if self.has_unit(name) {
            return Ok(Answer::IsDuplicate);
        }
        match with_unit(self.alloc, self.types, unit)? {
            None => Ok(Answer::IsTooMany),
            Some(types) => Ok(Answer::IsNew(types)),
        }
    }

    // Enters a unit of which the answer is due that it may be entered.
    fn put(&mut self, part: Part, name: String, unit: Unit, types: usize) -> Result<(), Unit>
        requires named { string_bytes name ≡ unit_name unit }
        requires new { answer_to self.old unit ≡ IsNew types }
        ensures ok { OnOk result (self.new ≡ entered part unit self.old) }
        ensures err { OnErr result (self.new ≡ self.old) }
        ensures back { IfErr result (λ back. back ≡ unit) }
    {
        match part {
            Part::Source => self.sources.insert(name, unit)?,
            Part::Stub => self.stubs.insert(name, unit)?,
        }
        self.types = types;
        Ok(())
    }

    /// Enters a unit into a part, under its canonical name. The first of these holds:
    ///
    /// - `Duplicate`: its name is in the table, in this part or in the other.
    /// - `TooMany`: with its own types the table would have more than 50,000. Nested types count (JLS 8.5, 9.5), and a `package-info` unit counts as one.
    /// - it is entered.
    ///
    /// `Memory` may come in place of each of them. After a refusal the table is as it was, and the unit comes back.
    pub fn enter(&mut self, part: Part, unit: Unit) -> Result<(), EnterFault>
        ensures answer { Answers (answer_to self.old unit) result }
        ensures ok { OnOk result (self.new ≡ entered part unit self.old) }
        ensures err { OnErr result (self.new ≡ self.old) }
        ensures back { IfErr result (λ fault. unit_back fault ≡ unit) }
    {
        let Ok(name) = name_of(self.alloc, &unit) else {
            return Err(EnterFault::Memory(unit));
        };
        let Ok(answer) = self.answer_to(name.as_str(), &unit) else {
            return Err(EnterFault::Memory(unit));
        };
        match answer {
            Answer::IsDuplicate => Err(EnterFault::Duplicate(unit)),
            Answer::IsTooMany => Err(EnterFault::TooMany(unit)),
            Answer::IsNew(types) => match self.put(part, name, unit, types) {
                Ok(()) => Ok(()),
                Err(unit) => Err(EnterFault::Memory(unit)),
            },
        }
    }

    /// The unit of this name, in whichever part it is, or `None` where neither has it. It takes no memory.
    pub fn find(&self, name: &Name) -> Option<&Unit>
        ensures value { option_copied result ≡ unit_of self.now name.now }
        ensures named { IfSome result (λ unit. unit_name unit.now ≡ name.now) }
        ensures table { IsTable self.now }
    {
        match self.sources.get(name.as_str()) {
            Some(unit) => Some(unit),
            None => self.stubs.get(name.as_str()),
        }
    }

    /// The part in which this name is, or `None` where neither has it. It takes no memory.
    pub fn part(&self, name: &Name) -> Option<Part>
        ensures { result ≡ part_of self.now name.now }
    {
        if self.sources.contains(name.as_str()) {
            Some(Part::Source)
        } else if self.stubs.contains(name.as_str()) {
            Some(Part::Stub)
        } else {
            None
        }
    }

    /// A unit of a part that declares a type of this package, or `None` where none of that part does. It takes logarithmic time and no memory.
    pub fn type_of_package(&self, part: Part, package: &str) -> Option<&Unit>
        ensures value { is_some result ≡ part_has_types «package».now (units_in part self.now) }
        ensures declares { IfSome result (λ unit. is_type unit.now.body ≡ true) }
        ensures package { IfSome result (λ unit. unit.now.«package» ≡ «package».now) }
    {
        match part {
            Part::Source => self.sources.type_of_package(package),
            Part::Stub => self.stubs.type_of_package(package),
        }
    }

    /// Whether a type of this package is in either part. It takes logarithmic time and no memory.
    pub(crate) fn has_types(&self, package: &str) -> bool
        ensures { result ≡ has_types self.now «package».now }
    {
        self.type_of_package(Part::Source, package).is_some()
            || self.type_of_package(Part::Stub, package).is_some()
    }

    /// The canonical names of the top-level types of a package (JLS 7.3), of sources and of stubs, ascending by their bytes; none where there is no such package. A unit `package-info` is no type. It takes the time of one look-up in each part, and of these types.
    #[tactic(auto, unfolding(crate::specs::PackageTypes::package_types))]
    pub fn package_types(&self, alloc: Global, package: &Name) -> Result<List<Name>, NoMemory>
        ensures { IfOk result (λ names. names ≡ package_types self.now «package».now) }
    {
        let mut all = Names::new(alloc);
        self.sources.add_types(package.as_str(), &mut all)?;
        self.stubs.add_types(package.as_str(), &mut all)?;
        all.list()
    }

    /// Where the member types of a name stand that the type at a path of a unit declares (JLS 8.5, 9.5): all
    /// of them are among the children of this range, and `None` says that there are none. Other children may
    /// stand between them. Where no unit has this name, or no type stands there, there are none whatever the
    /// answer. It takes the time of one look-up, however many children there are, and memory for its key.
    /// `NoMemory` where there is none.
    pub fn member_types(
        &self,
        alloc: Global,
        unit: &Name,
        path: &[u16],
        name: &str,
    ) -> Result<Option<ChildRange>, NoMemory>
        ensures { IfOk result (λ range. AreWithin range (unit_of self.now unit.now) path.now name.now) }
    {
        if self.sources.contains(unit.as_str()) {
            return self.sources.member_types(alloc, unit.as_str(), path, name);
        }
        self.stubs.member_types(alloc, unit.as_str(), path, name)
    }

    /// The names of the units of a part, ascending by their bytes.
    pub fn names(&self, alloc: Global, part: Part) -> Result<List<Name>, NoMemory>
        ensures { IfOk result (λ names. names ≡ fin.keys (units_in part self.now)) }
    {
        match part {
            Part::Source => self.sources.names(alloc),
            Part::Stub => self.stubs.names(alloc),
        }
    }

    /// An equal table.
    pub fn copy(&self, alloc: Global) -> Result<Table, NoMemory>
        ensures { IfOk result (λ table. table ≡ self.now) }
    {
        Ok(Table {
            alloc,
            sources: self.sources.copy(alloc)?,
            stubs: self.stubs.copy(alloc)?,
            types: self.types,
        })
    }
}
