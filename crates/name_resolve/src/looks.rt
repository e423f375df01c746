// The look-ups over a table.
ghost use Rattle.std.specs.Prelude.{◌≡◌, IfOk};
ghost use Rattle.element_table.specs.TypeTable.{IsTable};
ghost use Rattle.name_resolve.specs.Meaning.{scope_of, tops_of, imported, meaning};
ghost use Rattle.name_resolve.specs.Parts.{lent, qualifier_at};
ghost use Rattle.name_resolve.specs.Placed.{IsPlaced, ArePlaced};
ghost use Rattle.name_resolve.specs.Shown.{find_of, finds_of, Gives};

use crate::effort::effort_of_look_up;
use crate::finds::{Finds, Found};
use crate::member_types::MemberTypes;
use apt_base::NoMemory;
use element_table::{Part, Table};
use std::alloc::Global;
use std::marker::Model;

/// The look-ups over one table, with the member types that they remember: which of a name a type inherits is
/// one question, which is asked once. Contracts see the table alone.
///
/// A look-up asks its places in their order, and none behind the first that finds anything. Where it needs
/// inherited member types that were never asked for it stops and says which, those of all places that count
/// as one together; these are then searched for, by levels of supertypes, and the look-up is made anew. A
/// search gives each question its answers with no level, with one, and so on, until none of them changes: so
/// circles of look-ups end there, and only what goes on changing is followed through all 64 levels.
///
/// Out of memory comes also beyond 98,304 questions, and where one look-up would take more than 67,108,864
/// steps: comparisons with the name of a child of an element, and look-ups in maps, each counted as 32 of
/// these.
///
/// A search that runs out of memory is forgotten: a later look-up of the same value asks anew what it had
/// asked.
#[derive(Drop)]
pub struct Looks<'a> {
    members: MemberTypes<'a>,
}

impl<'a> Model for Looks<'a> {
    ghost use Rattle.element_table.specs.TypeTable.{TypeTable};
    ghost use Rattle.element_table.specs.Held.{table_code};
    ghost use Rattle.name_resolve.specs.Remembered.{AreRight};

    ghost Value = { TypeTable };

    ghost coded = { table_code };

    ghost view = { λ a. a.members.table.now };

    ghost invariant = { λ a. AreRight a.members };
}

impl<'a> Looks<'a> {
    /// Look-ups that remember nothing yet. It takes no memory.
    pub fn new(alloc: Global, table: &'a Table) -> Self
        requires { IsTable table.now }
        ensures { result ≡ table.now }
    {
        Looks {
            members: MemberTypes::new(alloc, table),
        }
    }

    /// Whether so few questions are remembered that 65,536 more have room, and all of them are settled: then
    /// these look-ups are as good for what comes as new ones. It takes no memory.
    pub fn are_few(&self) -> bool {
        self.members.are_few()
    }

    /// What a whole name means there, through all levels.
    pub fn meaning(
        &mut self,
        header: bool,
        at: &Found<'a>,
        names: &[&str],
    ) -> Result<Finds<'a>, NoMemory>
        requires placed { IsPlaced self.old (find_of at.now) }
        ensures value { Gives result (meaning self.old (scope_of header (find_of at.now)) (lent names.now)) }
        ensures kept { self.new ≡ self.old }
    {
        self.members.meaning(header, at, names)
    }

    /// What names in front of another name mean there, through all levels: the first one as a type in scope,
    /// or else their shortest prefix that is a top-level type, and then member types (JLS 6.5.4).
    pub fn qualifier_meaning(
        &mut self,
        header: bool,
        at: &Found<'a>,
        names: &[&str],
    ) -> Result<Finds<'a>, NoMemory>
        requires placed { IsPlaced self.old (find_of at.now) }
        ensures value { Gives result (qualifier_at self.old header (find_of at.now) (lent names.now)) }
        ensures kept { self.new ≡ self.old }
    {
        self.members.qualifier_meaning(header, at, names)
    }

    /// What an import of these names names, in a unit of this part: a top-level type, or declared member types
    /// from there. It is never looked up in scope (JLS 7.5).
    pub fn imported(&mut self, part: Part, names: &[&str]) -> Result<Finds<'a>, NoMemory>
        ensures value { Gives result (imported (tops_of self.old) part (lent names.now)) }
        ensures placed { IfOk result (λ f. ArePlaced self.old (finds_of f)) }
        ensures kept { self.new ≡ self.old }
    {
        let mut effort = effort_of_look_up();
        self.members.imported(part, names, &mut effort)
    }
}
