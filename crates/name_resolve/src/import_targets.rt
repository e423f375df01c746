// What an import names: a top-level type, or declared member types from there. It is never looked up in scope
// (JLS 7.5).
ghost use Rattle.std.specs.Prelude.{IfOk};
ghost use Rattle.element_table.specs.TypeTable.{IsTable};
ghost use Rattle.name_resolve.specs.QualifiedNames.{prefixes};
ghost use Rattle.name_resolve.specs.Finds.{declared_types};
ghost use Rattle.name_resolve.specs.Meaning.{members_of, along, by_prefix, imported};
ghost use Rattle.name_resolve.specs.Parts.{lent, prefixes_of};
ghost use Rattle.name_resolve.specs.Placed.{ArePlaced};
ghost use Rattle.name_resolve.specs.Remembered.{tops_in};
ghost use Rattle.name_resolve.specs.Shown.{finds_of, Gives};

use crate::finds::{Finds, is_nothing};
use crate::member_types::MemberTypes;
use crate::names::{longer, owned};
use apt_base::NoMemory;
use call_effort::Effort;
use element_table::Part;

impl<'a> MemberTypes<'a> {
    // The declared members of what was found; what is ambiguous has none.
    fn declared_of(
        &self,
        of: Finds<'a>,
        name: &str,
        effort: &mut Effort,
    ) -> Result<Finds<'a>, NoMemory>
        requires { ArePlaced self.now.table.now (finds_of of) }
        ensures { Gives result (members_of declared_types (finds_of of.entry) name.now) }
    {
        match of {
            Finds::One(find) => self.declared(&find, name, effort),
            Finds::Nothing => Ok(Finds::Nothing),
            Finds::Several => Ok(Finds::Nothing),
        }
    }

    // From what the first names mean along the other ones, by declared members.
    fn along_declared(
        &self,
        start: Finds<'a>,
        names: &[&str],
        effort: &mut Effort,
    ) -> Result<Finds<'a>, NoMemory>
        requires { ArePlaced self.now.table.now (finds_of start) }
        ensures { Gives result (along declared_types (finds_of start.entry) (lent names.now)) }
    {
        let mut finds = start;
        for name in names {
            finds = self.declared_of(finds, *name, effort)?;
        }
        Ok(finds)
    }

    // The shortest prefix that is a top-level type, and then declared members, by the first name and the
    // others.
    fn declared_by_prefixes(
        &self,
        part: Part,
        first: &str,
        others: &[&str],
        effort: &mut Effort,
    ) -> Result<Finds<'a>, NoMemory>
        requires { IsTable self.now.table.now }
        ensures { Gives result
            (by_prefix (tops_in self.now) declared_types part (prefixes_of first.now others.now)) }
    {
        let here = self.top(part, first, effort)?;
        if !is_nothing(&here) {
            let finds = self.along_declared(here, others, effort)?;
            return Ok(finds);
        }
        let mut prefix = owned(self.alloc, first)?;
        for (at, name) in others.iter().enumerate() {
            prefix = longer(self.alloc, prefix.as_str(), *name)?;
            let here = self.top(part, prefix.as_str(), effort)?;
            if !is_nothing(&here) {
                let finds = self.along_declared(here, &others[at + 1..], effort)?;
                return Ok(finds);
            }
        }
        Ok(Finds::Nothing)
    }

    /// What an import of these names names.
    #[tactic(auto, unfolding(crate::specs::Meaning::imported))]
    pub(crate) fn imported(
        &self,
        part: Part,
        names: &[&str],
        effort: &mut Effort,
    ) -> Result<Finds<'a>, NoMemory>
        requires { IsTable self.now.table.now }
        ensures value { Gives result (imported (tops_in self.now) part (lent names.now)) }
        ensures placed { IfOk result (λ f. ArePlaced self.now.table.now (finds_of f)) }
    {
        let Some((first, others)) = names.split_first() else {
            return Ok(Finds::Nothing);
        };
        let finds = self.declared_by_prefixes(part, *first, others, effort)?;
        Ok(finds)
    }
}
