// Whole names, and the member types that a type inherits.
ghost use Rattle.std.specs.Prelude.{IfErr};
ghost use Rattle.name_resolve.specs.Meaning.{scope_of, members_of, qualifier, found, supertype_found, inherited};
ghost use Rattle.name_resolve.specs.Parts.{lent};
ghost use Rattle.name_resolve.specs.Placed.{IsPlaced};
ghost use Rattle.name_resolve.specs.Remembered.{IsWanted, AreRight, Tells, tops_in};
ghost use Rattle.name_resolve.specs.Shown.{find_of, super_of};

use crate::finds::{Finds, Found, is_nothing};
use crate::gathering::gathered;
use crate::headers::{Supertype, supertypes};
use crate::member_types::MemberTypes;
use crate::memory::{Stop, Wanted};
use crate::names::names_in;
use call_effort::Effort;

impl<'a> MemberTypes<'a> {
    /// What names in front of another name mean: the first one as a type in scope, or else the shortest
    /// prefix.
    pub(crate) fn qualifier(
        &self,
        levels: usize,
        header: bool,
        at: &Found<'a>,
        names: &[&str],
        effort: &mut Effort,
    ) -> Result<Finds<'a>, Stop<'a>>
        requires placed { IsPlaced self.now.table.now (find_of at.now) }
        requires right { AreRight self.now }
        ensures value { Tells result self.now levels (λ members. qualifier (tops_in self.now) members
            (scope_of header (find_of at.now)) (lent names.now)) }
        ensures wanted { IfErr result (IsWanted self.now.table.now) }
    {
        let Some((first, others)) = names.split_first() else {
            return Ok(Finds::Nothing);
        };
        let near = self.simple(levels, header, at, *first, effort)?;
        if is_nothing(&near) {
            let finds = self.by_prefix(levels, at.part, names, effort)?;
            return Ok(finds);
        }
        let finds = self.along(levels, near, others, effort)?;
        Ok(finds)
    }

    /// What a whole name means: a simple name never falls back to a prefix.
    pub(crate) fn found(
        &self,
        levels: usize,
        header: bool,
        at: &Found<'a>,
        names: &[&str],
        effort: &mut Effort,
    ) -> Result<Finds<'a>, Stop<'a>>
        requires placed { IsPlaced self.now.table.now (find_of at.now) }
        requires right { AreRight self.now }
        ensures value { Tells result self.now levels (λ members. found (tops_in self.now) members
            (scope_of header (find_of at.now)) (lent names.now)) }
        ensures wanted { IfErr result (IsWanted self.now.table.now) }
    {
        let Some((first, others)) = names.split_first() else {
            return Ok(Finds::Nothing);
        };
        if others.is_empty() {
            let finds = self.simple(levels, header, at, *first, effort)?;
            return Ok(finds);
        }
        let finds = self.qualifier(levels, header, at, names, effort)?;
        Ok(finds)
    }

    // What a supertype means in the header of its type.
    fn supertype(
        &self,
        levels: usize,
        of: &Found<'a>,
        each: Supertype<'a>,
        effort: &mut Effort,
    ) -> Result<Finds<'a>, Stop<'a>>
        requires placed { IsPlaced self.now.table.now (find_of of.now) }
        requires right { AreRight self.now }
        ensures value { Tells result self.now levels
            (λ members. supertype_found (tops_in self.now) members (find_of of.now) (super_of each.entry)) }
        ensures wanted { IfErr result (IsWanted self.now.table.now) }
    {
        match each {
            Supertype::Written(text) => {
                let names = names_in(self.alloc, text)?;
                let finds = self.found(levels, true, of, names.as_slice(), effort)?;
                Ok(finds)
            }
            Supertype::Object => {
                let finds = self.top(of.part, "java.lang.Object", effort)?;
                Ok(finds)
            }
            Supertype::Enum => {
                let finds = self.top(of.part, "java.lang.Enum", effort)?;
                Ok(finds)
            }
            Supertype::Annotation => {
                let name = "java.lang.annotation.Annotation";
                let finds = self.top(of.part, name, effort)?;
                Ok(finds)
            }
        }
    }

    // The member types of this name that one supertype of a type has.
    fn through(
        &self,
        levels: usize,
        of: &Found<'a>,
        each: Supertype<'a>,
        name: &str,
        effort: &mut Effort,
    ) -> Result<Finds<'a>, Stop<'a>>
        requires placed { IsPlaced self.now.table.now (find_of of.now) }
        requires right { AreRight self.now }
        ensures value { Tells result self.now levels (λ members. members_of members
            (supertype_found (tops_in self.now) members (find_of of.now) (super_of each.entry)) name.now) }
        ensures wanted { IfErr result (IsWanted self.now.table.now) }
    {
        let above = self.supertype(levels, of, each, effort)?;
        let finds = self.member_of(levels, above, name, effort)?;
        Ok(finds)
    }

    /// The member types of this name that all supertypes of a type have.
    pub(crate) fn inherited(
        &self,
        levels: usize,
        of: &Found<'a>,
        name: &str,
        effort: &mut Effort,
    ) -> Result<Finds<'a>, Stop<'a>>
        requires placed { IsPlaced self.now.table.now (find_of of.now) }
        requires right { AreRight self.now }
        ensures value { Tells result self.now levels
            (λ members. inherited (tops_in self.now) members (find_of of.now) name.now) }
        ensures wanted { IfErr result (IsWanted self.now.table.now) }
    {
        let list = supertypes(self.alloc, of)?;
        let mut all: Result<Finds<'a>, Vec<Wanted<'a>>> = Ok(Finds::Nothing);
        for each in &list {
            let more = self.through(levels, of, *each, name, effort);
            all = gathered(all, more)?;
        }
        match all {
            Ok(finds) => Ok(finds),
            Err(wanted) => Err(Stop::Wanted(wanted)),
        }
    }
}
