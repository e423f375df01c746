// Levels of supertypes: a level has each type once, at its first place.
ghost use Rattle.std.specs.Prelude.{◌≡◌, ◌<◌, ◌∷◌, [], length, get_or, OnOk, IfOk};
ghost use Rattle.type_numbers.specs.Numbers.{AreKnown, Grows};
ghost use Rattle.type_members.specs.NearestLevels.{MayBeLevel, next_level};
ghost use Rattle.type_members.specs.Once.{with_new, with_each};

use apt_base::NoMemory;
use indexmap::IndexSet;
use std::alloc::Global;
use std::marker::Model;
use type_numbers::Types;
use type_resolve::Resolver;
use type_steps::direct_with;

/// Different types by their numbers, in the order in which they were first added. Contracts see the list.
#[derive(Drop)]
pub(crate) struct Level {
    held: IndexSet<usize>,
}

impl Model for Level {
    ghost use Rattle.std.specs.Prelude.{List, ℕ};

    ghost Value = { List ℕ };

    ghost view = { λ a. a.held.keys };
}

impl Level {
    /// No types.
    pub fn new(alloc: Global) -> Level
        ensures { result ≡ [] }
    {
        Level {
            held: IndexSet::new(alloc),
        }
    }

    /// One type.
    pub fn of(alloc: Global, number: usize) -> Result<Level, NoMemory>
        ensures { IfOk result (λ level. level ≡ number ∷ []) }
    {
        let mut level = Level::new(alloc);
        level.add(number)?;
        Ok(level)
    }

    /// The types, in the order in which they were first added.
    pub fn as_slice(&self) -> &[usize]
        ensures { result.now ≡ self.now }
    {
        self.held.as_slice()
    }

    /// How many types there are.
    pub fn len(&self) -> usize
        ensures { result ≡ length self.now }
    {
        self.held.len()
    }

    /// The type at a place.
    pub fn at(&self, place: usize) -> usize
        requires { place < length self.now }
        ensures { result ≡ get_or self.now place 0 }
    {
        self.as_slice()[place]
    }

    /// Adds a type where it is not there yet.
    pub fn add(&mut self, number: usize) -> Result<(), NoMemory>
        ensures { OnOk result (self.new ≡ with_new self.old number) }
    {
        self.held.insert(number)?;
        Ok(())
    }

    fn add_each(&mut self, numbers: &[usize]) -> Result<(), NoMemory>
        ensures { OnOk result (self.new ≡ with_each self.old numbers.now) }
    {
        for number in numbers {
            self.add(*number)?;
        }
        Ok(())
    }
}

/// The direct supertypes of the types of a level, those of the first one first; `None` where those of one of them are open.
pub(crate) fn further(
    alloc: Global,
    resolver: &mut Resolver<'_>,
    types: &mut Types,
    level: &[usize],
) -> Result<Option<Level>, NoMemory>
    requires known { AreKnown types.old level.now }
    ensures level { IfOk result (λ l. MayBeLevel types.new l (next_level resolver.old types.old level.now)) }
    ensures grows { Grows types.old types.new }
    ensures kept { resolver.new ≡ resolver.old }
{
    let mut next = Level::new(alloc);
    for number in level {
        match direct_with(alloc, resolver, types, *number)? {
            None => return Ok(None),
            Some(supertypes) => next.add_each(supertypes.as_slice())?,
        }
    }
    Ok(Some(next))
}
