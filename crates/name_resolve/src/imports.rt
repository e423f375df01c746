// What a simple name means by the imports and the package of a unit.
ghost use Rattle.std.specs.Prelude.{IfErr};
ghost use Rattle.decl_tree.specs.declared.compilation.ImportKind.TheVariants.{StaticSingle};
ghost use Rattle.element_table.specs.TypeTable.{IsTable};
ghost use Rattle.element_table.specs.UnitNames.{in_package};
ghost use Rattle.name_resolve.specs.Meaning.{imported, members_of, single_by, single_import, on_demand_import};
ghost use Rattle.name_resolve.specs.Parts.{lent, tops_beside, by_single_import, demand_finds, file_finds_within, on_demand_finds, single_finds};
ghost use Rattle.name_resolve.specs.Remembered.{IsWanted, AreRight, Tells, tops_in};
ghost use Rattle.name_resolve.specs.Shown.{finds_of, Gives};

use crate::finds::{Finds, Found, is_sibling};
use crate::gathering::gathered;
use crate::member_types::MemberTypes;
use crate::memory::{Stop, Wanted};
use crate::names::{ends_in, split, split_with};
use apt_base::NoMemory;
use call_effort::Effort;
use decl_tree::{Import, ImportKind};
use element_table::{Part, in_package};

impl<'a> MemberTypes<'a> {
    // The member types of this name of what an import names, inherited ones included.
    fn imported_member(
        &self,
        levels: usize,
        part: Part,
        names: &[&str],
        name: &str,
        effort: &mut Effort,
    ) -> Result<Finds<'a>, Stop<'a>>
        requires right { AreRight self.now }
        ensures value { Tells result self.now levels
            (λ members. members_of members (imported (tops_in self.now) part (lent names.now)) name.now) }
        ensures wanted { IfErr result (IsWanted self.now.table.now) }
    {
        let of = self.imported(part, names, effort)?;
        let finds = self.member_of(levels, of, name, effort)?;
        Ok(finds)
    }

    // A single import by its names.
    fn by_single(
        &self,
        part: Part,
        name: &str,
        names: &[&str],
        effort: &mut Effort,
    ) -> Result<Finds<'a>, NoMemory>
        requires { IsTable self.now.table.now }
        ensures { Gives result (by_single_import (tops_in self.now) part name.now (lent names.now)) }
    {
        if !ends_in(names, name) {
            return Ok(Finds::Nothing);
        }
        let finds = self.imported(part, names, effort)?;
        Ok(finds)
    }

    // A static single import by its names.
    fn by_static_single(
        &self,
        levels: usize,
        part: Part,
        name: &str,
        names: &[&str],
        effort: &mut Effort,
    ) -> Result<Finds<'a>, Stop<'a>>
        requires right { AreRight self.now }
        ensures value { Tells result self.now levels
            (λ members. single_by (tops_in self.now) members part name.now (lent names.now) StaticSingle) }
        ensures wanted { IfErr result (IsWanted self.now.table.now) }
    {
        let Some((last, front)) = names.split_last() else {
            return Ok(Finds::Nothing);
        };
        if *last == name {
            let finds = self.imported_member(levels, part, front, name, effort)?;
            return Ok(finds);
        }
        Ok(Finds::Nothing)
    }

    // What a name means by one import, if it is a single one.
    fn single_import(
        &self,
        levels: usize,
        part: Part,
        name: &str,
        import: &Import,
        effort: &mut Effort,
    ) -> Result<Finds<'a>, Stop<'a>>
        requires right { AreRight self.now }
        ensures value { Tells result self.now levels
            (λ members. single_import (tops_in self.now) members part name.now import.now) }
        ensures wanted { IfErr result (IsWanted self.now.table.now) }
    {
        match import.kind {
            ImportKind::Single => {
                let names = split(self.alloc, import.name.as_str())?;
                let finds = self.by_single(part, name, names.as_slice(), effort)?;
                Ok(finds)
            }
            ImportKind::StaticSingle => {
                let names = split(self.alloc, import.name.as_str())?;
                let finds = self.by_static_single(levels, part, name, names.as_slice(), effort)?;
                Ok(finds)
            }
            ImportKind::OnDemand => Ok(Finds::Nothing),
            ImportKind::StaticOnDemand => Ok(Finds::Nothing),
        }
    }

    // What a name means by one import, if it is one on demand.
    fn on_demand_import(
        &self,
        levels: usize,
        part: Part,
        name: &str,
        import: &Import,
        effort: &mut Effort,
    ) -> Result<Finds<'a>, Stop<'a>>
        requires right { AreRight self.now }
        ensures value { Tells result self.now levels
            (λ members. on_demand_import (tops_in self.now) members part name.now import.now) }
        ensures wanted { IfErr result (IsWanted self.now.table.now) }
    {
        match import.kind {
            ImportKind::Single => Ok(Finds::Nothing),
            ImportKind::StaticSingle => Ok(Finds::Nothing),
            ImportKind::OnDemand => {
                let names = split_with(self.alloc, import.name.as_str(), name)?;
                let finds = self.imported(part, names.as_slice(), effort)?;
                Ok(finds)
            }
            ImportKind::StaticOnDemand => {
                let names = split(self.alloc, import.name.as_str())?;
                let finds = self.imported_member(levels, part, names.as_slice(), name, effort)?;
                Ok(finds)
            }
        }
    }

    fn single_among(
        &self,
        levels: usize,
        part: Part,
        name: &str,
        imports: &[Import],
        effort: &mut Effort,
    ) -> Result<Finds<'a>, Stop<'a>>
        requires right { AreRight self.now }
        ensures value { Tells result self.now levels
            (λ members. single_finds (tops_in self.now) members part name.now imports.now) }
        ensures wanted { IfErr result (IsWanted self.now.table.now) }
    {
        let mut all: Result<Finds<'a>, Vec<Wanted<'a>>> = Ok(Finds::Nothing);
        for import in imports {
            let more = self.single_import(levels, part, name, import, effort);
            all = gathered(all, more)?;
        }
        match all {
            Ok(finds) => Ok(finds),
            Err(wanted) => Err(Stop::Wanted(wanted)),
        }
    }

    /// What all single imports of a unit give for a name.
    pub(crate) fn single_imports(
        &self,
        levels: usize,
        at: &Found<'a>,
        name: &str,
        effort: &mut Effort,
    ) -> Result<Finds<'a>, Stop<'a>>
        requires right { AreRight self.now }
        ensures value { Tells result self.now levels (λ members. single_finds (tops_in self.now) members
            at.now.part name.now at.now.unit.now.imports) }
        ensures wanted { IfErr result (IsWanted self.now.table.now) }
    {
        let imports = at.unit.text().imports.get().as_slice();
        let finds = self.single_among(levels, at.part, name, imports, effort)?;
        Ok(finds)
    }

    // With what was found at the same place before.
    fn on_demand_among(
        &self,
        levels: usize,
        part: Part,
        name: &str,
        imports: &[Import],
        before: Finds<'a>,
        effort: &mut Effort,
    ) -> Result<Finds<'a>, Stop<'a>>
        requires right { AreRight self.now }
        ensures value { Tells result self.now levels (λ members. demand_finds (tops_in self.now) members
            part name.now (finds_of before.entry) imports.now) }
        ensures wanted { IfErr result (IsWanted self.now.table.now) }
    {
        let mut all: Result<Finds<'a>, Vec<Wanted<'a>>> = Ok(before);
        for import in imports {
            let more = self.on_demand_import(levels, part, name, import, effort);
            all = gathered(all, more)?;
        }
        match all {
            Ok(finds) => Ok(finds),
            Err(wanted) => Err(Stop::Wanted(wanted)),
        }
    }

    /// What `java.lang` and all imports on demand of a unit give for a name, as one place (JLS 6.4.1, 7.5.2).
    pub(crate) fn on_demand_imports(
        &self,
        levels: usize,
        at: &Found<'a>,
        name: &str,
        effort: &mut Effort,
    ) -> Result<Finds<'a>, Stop<'a>>
        requires right { AreRight self.now }
        ensures value { Tells result self.now levels
            (λ members. on_demand_finds (tops_in self.now) members at.now.part at.now.unit.now name.now) }
        ensures wanted { IfErr result (IsWanted self.now.table.now) }
    {
        let lang = self.top_of_package(at.part, "java.lang", name, effort)?;
        let imports = at.unit.text().imports.get().as_slice();
        let finds = self.on_demand_among(levels, at.part, name, imports, lang, effort)?;
        Ok(finds)
    }

    // The top-level type of this simple name of a package.
    fn top_of_package(
        &self,
        part: Part,
        package: &str,
        name: &str,
        effort: &mut Effort,
    ) -> Result<Finds<'a>, NoMemory>
        ensures { Gives result (tops_in self.now part (in_package «package».now name.now)) }
    {
        let whole = in_package(self.alloc, package, name)?;
        let finds = self.top(part, whole.as_str(), effort)?;
        Ok(finds)
    }

    /// The type of this name of the file.
    pub(crate) fn of_file(
        &self,
        at: &Found<'a>,
        name: &str,
        effort: &mut Effort,
    ) -> Result<Finds<'a>, NoMemory>
        ensures value { Gives result
            (file_finds_within self.now.table.now at.now.part at.now.unit.now name.now) }
    {
        if is_sibling(at.unit, name) {
            return self.beside(at, name, effort);
        }
        Ok(Finds::Nothing)
    }

    /// The type of this name of the unit's package.
    pub(crate) fn beside(
        &self,
        at: &Found<'a>,
        name: &str,
        effort: &mut Effort,
    ) -> Result<Finds<'a>, NoMemory>
        ensures value { Gives result (tops_beside self.now.table.now at.now.part at.now.unit.now name.now) }
    {
        self.top_of_package(at.part, at.unit.text().package.as_str(), name, effort)
    }
}
