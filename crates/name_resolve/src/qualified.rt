// Qualified names.
ghost use Rattle.std.specs.Prelude.{IfErr, IfOk};
ghost use Rattle.name_resolve.specs.QualifiedNames.{prefixes};
ghost use Rattle.name_resolve.specs.Meaning.{along, by_prefix};
ghost use Rattle.name_resolve.specs.Parts.{lent, prefixes_of};
ghost use Rattle.name_resolve.specs.Placed.{ArePlaced};
ghost use Rattle.name_resolve.specs.Remembered.{IsWanted, AreRight, Tells, tops_in};
ghost use Rattle.name_resolve.specs.Shown.{finds_of};

use crate::finds::{Finds, is_nothing};
use crate::member_types::MemberTypes;
use crate::memory::Stop;
use crate::names::{longer, owned};
use call_effort::Effort;
use element_table::Part;

impl<'a> MemberTypes<'a> {
    /// From what the first names mean along the other ones.
    pub(crate) fn along(
        &self,
        levels: usize,
        start: Finds<'a>,
        names: &[&str],
        effort: &mut Effort,
    ) -> Result<Finds<'a>, Stop<'a>>
        requires placed { ArePlaced self.now.table.now (finds_of start) }
        requires right { AreRight self.now }
        ensures value { Tells result self.now levels
            (λ members. along members (finds_of start.entry) (lent names.now)) }
        ensures wanted { IfErr result (IsWanted self.now.table.now) }
        ensures placed { IfOk result (λ f. ArePlaced self.now.table.now (finds_of f)) }
    {
        let mut finds = start;
        for name in names {
            finds = self.member_of(levels, finds, *name, effort)?;
        }
        Ok(finds)
    }

    // The same of names of which the first is given by itself.
    fn by_prefixes(
        &self,
        levels: usize,
        part: Part,
        first: &str,
        others: &[&str],
        effort: &mut Effort,
    ) -> Result<Finds<'a>, Stop<'a>>
        requires right { AreRight self.now }
        ensures value { Tells result self.now levels
            (λ members. by_prefix (tops_in self.now) members part (prefixes_of first.now others.now)) }
        ensures wanted { IfErr result (IsWanted self.now.table.now) }
    {
        let here = self.top(part, first, effort)?;
        if !is_nothing(&here) {
            let finds = self.along(levels, here, others, effort)?;
            return Ok(finds);
        }
        let mut prefix = owned(self.alloc, first)?;
        for (at, name) in others.iter().enumerate() {
            prefix = longer(self.alloc, prefix.as_str(), *name)?;
            let here = self.top(part, prefix.as_str(), effort)?;
            if !is_nothing(&here) {
                let finds = self.along(levels, here, &others[at + 1..], effort)?;
                return Ok(finds);
            }
        }
        Ok(Finds::Nothing)
    }

    /// The shortest prefix that is a top-level type, and then member types.
    pub(crate) fn by_prefix(
        &self,
        levels: usize,
        part: Part,
        names: &[&str],
        effort: &mut Effort,
    ) -> Result<Finds<'a>, Stop<'a>>
        requires right { AreRight self.now }
        ensures value { Tells result self.now levels
            (λ members. by_prefix (tops_in self.now) members part (prefixes (lent names.now))) }
        ensures wanted { IfErr result (IsWanted self.now.table.now) }
    {
        let Some((first, others)) = names.split_first() else {
            return Ok(Finds::Nothing);
        };
        let finds = self.by_prefixes(levels, part, *first, others, effort)?;
        Ok(finds)
    }
}
