// The member types of the types of one table, as far as they were asked for.
ghost use Rattle.std.specs.Prelude.{◌≡◌, IfErr, IfOk};
ghost use Rattle.element_table.specs.TypeTable.{IsTable};
ghost use Rattle.name_resolve.specs.Finds.{Nothing, declared_types};
ghost use Rattle.name_resolve.specs.Meaning.{members_of};
ghost use Rattle.name_resolve.specs.Placed.{IsPlaced, ArePlaced};
ghost use Rattle.name_resolve.specs.Remembered.{IsWanted, AreRight, Tells, TellsSome, tops_in};
ghost use Rattle.name_resolve.specs.Shown.{find_of, finds_of};

use crate::effort::STEPS_OF_LOOK_UP;
use crate::finds::{Finds, Found, is_nothing, simple_name};
use crate::headers::has_supertypes;
use crate::memory::{Question, Stop, Wanted, alone, copied, copied_finds};
use crate::names::owned;
use crate::tops::top_named;
use apt_base::NoMemory;
use call_effort::Effort;
use element_table::{Part, Table};
use std::alloc::Global;
use std::collections::BTreeMap;

/// How far questions are settled.
#[derive(Drop)]
pub(crate) struct Settled {
    /// How many of the first ones are: what is found with their last number of levels is found with all
    /// further ones too.
    pub count: usize,
    /// From how many levels on the same is found of each of these.
    pub levels: usize,
}

/// The questions that were asked over one table, in their order, with their answers.
#[derive(Drop)]
pub(crate) struct MemberTypes<'a> {
    pub alloc: Global,
    pub table: &'a Table,
    pub questions: Vec<Question<'a>>,
    /// Where each stands among them, by its key.
    pub places: BTreeMap<String, usize>,
    pub settled: Settled,
}

/// A text that no other question has: the name, the type's unit, and its path there.
pub(crate) fn key_of(alloc: Global, of: &Found<'_>, name: &str) -> Result<String, NoMemory> {
    let unit = of.unit.text();
    let mut key = owned(alloc, name)?;
    key.push(' ')?;
    key.push_str(unit.package.as_str())?;
    key.push(' ')?;
    key.push_str(simple_name(&unit.body))?;
    for step in of.path.as_slice() {
        let number = *step;
        let text = format!(in alloc; " {number}")?;
        key.push_str(text.as_str())?;
    }
    Ok(key)
}

impl<'a> MemberTypes<'a> {
    /// Nothing was asked yet. It takes no memory.
    pub fn new(alloc: Global, table: &'a Table) -> MemberTypes<'a>
        requires { IsTable table.now }
        ensures table { result.table.now ≡ table.now }
        ensures right { AreRight result }
    {
        MemberTypes {
            alloc,
            table,
            questions: Vec::new(alloc),
            places: BTreeMap::new(alloc),
            settled: Settled {
                count: 0,
                levels: 0,
            },
        }
    }

    /// The top-level type of this canonical name that a unit of a part meets.
    pub fn top(&self, part: Part, name: &str, effort: &mut Effort) -> Result<Finds<'a>, NoMemory>
        ensures { IfOk result (λ f. finds_of f ≡ tops_in self.now part name.now) }
    {
        effort.take(STEPS_OF_LOOK_UP)?;
        top_named(self.alloc, self.table, part, name)
    }

    // What is found of a question with this many levels, if it was asked.
    fn recalled(
        &self,
        levels: usize,
        of: &Found<'a>,
        name: &str,
        effort: &mut Effort,
    ) -> Result<Option<Finds<'a>>, NoMemory>
        requires placed { IsPlaced self.now.table.now (find_of of.now) }
        requires right { AreRight self.now }
        ensures { TellsSome result self.now levels (λ members. members (find_of of.now) name.now) }
    {
        effort.take(STEPS_OF_LOOK_UP)?;
        let key = key_of(self.alloc, of, name)?;
        let Some(place) = self.places.get(key.as_str()) else {
            return Ok(None);
        };
        let Some(question) = self.questions.as_slice().get(*place) else {
            return Ok(None);
        };
        if !question.asks(of, name) {
            return Ok(None);
        }
        match question.answer(*place < self.settled.count, levels) {
            None => Err(NoMemory),
            Some(finds) => {
                let copy = copied_finds(self.alloc, finds)?;
                Ok(Some(copy))
            }
        }
    }

    /// The member types of this name, with this many levels of supertypes left, of a type that declares none:
    /// as far as they were asked for, and nothing where there is no supertype.
    pub fn above(
        &self,
        levels: usize,
        of: &Found<'a>,
        name: &str,
        effort: &mut Effort,
    ) -> Result<Finds<'a>, Stop<'a>>
        requires placed { IsPlaced self.now.table.now (find_of of.now) }
        requires right { AreRight self.now }
        requires none { declared_types (find_of of.now) name.now ≡ Nothing }
        ensures value { Tells result self.now levels (λ members. members (find_of of.now) name.now) }
        ensures wanted { IfErr result (IsWanted self.now.table.now) }
    {
        if !has_supertypes(of) {
            return Ok(Finds::Nothing);
        }
        let known = self.recalled(levels, of, name, effort)?;
        match known {
            Some(finds) => Ok(finds),
            None => {
                let of = copied(self.alloc, of)?;
                let name = owned(self.alloc, name)?;
                let wanted = alone(self.alloc, Wanted { of, name })?;
                Err(Stop::Wanted(wanted))
            }
        }
    }

    /// The member types of this name, with this many levels of supertypes left.
    pub fn members(
        &self,
        levels: usize,
        of: &Found<'a>,
        name: &str,
        effort: &mut Effort,
    ) -> Result<Finds<'a>, Stop<'a>>
        requires placed { IsPlaced self.now.table.now (find_of of.now) }
        requires right { AreRight self.now }
        ensures value { Tells result self.now levels (λ members. members (find_of of.now) name.now) }
        ensures wanted { IfErr result (IsWanted self.now.table.now) }
    {
        let own = self.declared(of, name, effort)?;
        if !is_nothing(&own) {
            return Ok(own);
        }
        let finds = self.above(levels, of, name, effort)?;
        Ok(finds)
    }

    /// The members of what was found; what is ambiguous has none.
    pub fn member_of(
        &self,
        levels: usize,
        of: Finds<'a>,
        name: &str,
        effort: &mut Effort,
    ) -> Result<Finds<'a>, Stop<'a>>
        requires placed { ArePlaced self.now.table.now (finds_of of) }
        requires right { AreRight self.now }
        ensures value { Tells result self.now levels
            (λ members. members_of members (finds_of of.entry) name.now) }
        ensures wanted { IfErr result (IsWanted self.now.table.now) }
    {
        match of {
            Finds::One(find) => self.members(levels, &find, name, effort),
            Finds::Nothing => Ok(Finds::Nothing),
            Finds::Several => Ok(Finds::Nothing),
        }
    }
}
