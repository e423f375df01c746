// What names mean through all levels of supertypes: what was never asked for is searched for, and the look-up
// made anew.
ghost use Rattle.std.specs.Prelude.{◌≡◌};
ghost use Rattle.name_resolve.specs.Meaning.{scope_of, meaning};
ghost use Rattle.name_resolve.specs.Parts.{lent, qualifier_at};
ghost use Rattle.name_resolve.specs.Placed.{IsPlaced};
ghost use Rattle.name_resolve.specs.Remembered.{AreRight};
ghost use Rattle.name_resolve.specs.Shown.{find_of, Gives};

use crate::effort::effort_of_look_up;
use crate::finds::{Finds, Found};
use crate::member_types::MemberTypes;
use crate::memory::Stop;
use crate::search::LEVELS;
use apt_base::NoMemory;

impl<'a> MemberTypes<'a> {
    /// What a whole name means there.
    pub(crate) fn meaning(
        &mut self,
        header: bool,
        at: &Found<'a>,
        names: &[&str],
    ) -> Result<Finds<'a>, NoMemory>
        requires placed { IsPlaced self.old.table.now (find_of at.now) }
        requires right { AreRight self.old }
        ensures value { Gives result
            (meaning self.old.table.now (scope_of header (find_of at.now)) (lent names.now)) }
        ensures right { AreRight self.new }
        ensures table { self.new.table.now ≡ self.old.table.now }
    {
        let mut effort = effort_of_look_up();
        for _ in 0..usize::MAX {
            match self.found(LEVELS, header, at, names, &mut effort) {
                Ok(finds) => return Ok(finds),
                Err(Stop::Memory) => return Err(NoMemory),
                Err(Stop::Wanted(wanted)) => self.learn(wanted, &mut effort)?,
            }
        }
        Err(NoMemory)
    }

    /// What names in front of another name mean there.
    pub(crate) fn qualifier_meaning(
        &mut self,
        header: bool,
        at: &Found<'a>,
        names: &[&str],
    ) -> Result<Finds<'a>, NoMemory>
        requires placed { IsPlaced self.old.table.now (find_of at.now) }
        requires right { AreRight self.old }
        ensures value { Gives result
            (qualifier_at self.old.table.now header (find_of at.now) (lent names.now)) }
        ensures right { AreRight self.new }
        ensures table { self.new.table.now ≡ self.old.table.now }
    {
        let mut effort = effort_of_look_up();
        for _ in 0..usize::MAX {
            match self.qualifier(LEVELS, header, at, names, &mut effort) {
                Ok(finds) => return Ok(finds),
                Err(Stop::Memory) => return Err(NoMemory),
                Err(Stop::Wanted(wanted)) => self.learn(wanted, &mut effort)?,
            }
        }
        Err(NoMemory)
    }
}
