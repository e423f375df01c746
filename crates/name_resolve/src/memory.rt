// What look-ups remember, and why one stops.
ghost use Rattle.std.specs.Prelude.{◌≡◌, true, [], ◌∷◌, IfOk};
ghost use Rattle.std.specs.Option.{option_copied};
ghost use Rattle.name_resolve.specs.declared.memory.Stop.TheVariants.{Memory};
ghost use Rattle.name_resolve.specs.Remembered.{same_part, same_finds, asks, answer_of, IsSteady};
ghost use Rattle.name_resolve.specs.Shown.{find_of, finds_of};

use crate::finds::{Finds, Found, is_same};
use apt_base::NoMemory;
use element_table::Part;
use std::alloc::Global;

/// A question that was asked, with its answers: which member types of this name a type inherits that declares
/// none.
#[derive(Drop)]
pub(crate) struct Question<'a> {
    /// The type.
    pub of: Found<'a>,
    /// The name.
    pub name: String,
    /// What is found without any level of supertypes, with one level, and so on, as far as it is known.
    pub answers: Vec<Finds<'a>>,
}

/// A question that was never asked: which member types of this name a type inherits that declares none.
#[derive(Drop)]
pub(crate) struct Wanted<'a> {
    /// The type.
    pub of: Found<'a>,
    /// The name.
    pub name: String,
}

/// Why a look-up gave nothing.
#[derive(Drop)]
pub(crate) enum Stop<'a> {
    /// There was no memory.
    Memory,
    /// These questions were never asked.
    Wanted(Vec<Wanted<'a>>),
}

impl<'a> From<NoMemory> for Stop<'a> {
    ghost from_gives = { λ _ e. e ≡ Memory };

    fn from(_: NoMemory) -> Stop<'a> {
        Stop::Memory
    }
}

/// One question alone.
pub(crate) fn alone<'a>(alloc: Global, wanted: Wanted<'a>) -> Result<Vec<Wanted<'a>>, NoMemory>
    ensures { IfOk result (λ all. all.items ≡ wanted.entry ∷ []) }
{
    let all = vec![in alloc; wanted]?;
    Ok(all)
}

/// An equal find.
pub fn copied<'a>(alloc: Global, find: &Found<'a>) -> Result<Found<'a>, NoMemory>
    ensures { IfOk result (λ f. find_of f ≡ find_of find.now) }
{
    let path = Vec::from_slice(alloc, find.path.as_slice())?;
    Ok(Found {
        part: find.part,
        unit: find.unit,
        path,
    })
}

/// Equal finds.
pub fn copied_finds<'a>(alloc: Global, finds: &Finds<'a>) -> Result<Finds<'a>, NoMemory>
    ensures { IfOk result (λ f. finds_of f ≡ finds_of finds.now) }
{
    match finds {
        Finds::Nothing => Ok(Finds::Nothing),
        Finds::One(find) => {
            let copy = copied(alloc, find)?;
            Ok(Finds::One(copy))
        }
        Finds::Several => Ok(Finds::Several),
    }
}

fn is_same_part(one: Part, other: Part) -> bool
    ensures { result ≡ same_part one other }
{
    match one {
        Part::Source => match other {
            Part::Source => true,
            Part::Stub => false,
        },
        Part::Stub => match other {
            Part::Source => false,
            Part::Stub => true,
        },
    }
}

// Whether both are nothing, the same element, or different ones.
fn is_same_finds(one: &Finds<'_>, other: &Finds<'_>) -> bool
    ensures { result ≡ same_finds (finds_of one.now) (finds_of other.now) }
{
    match one {
        Finds::Nothing => match other {
            Finds::Nothing => true,
            Finds::One(_) => false,
            Finds::Several => false,
        },
        Finds::One(first) => match other {
            Finds::Nothing => false,
            Finds::One(second) => is_same_part(first.part, second.part) && is_same(first, second),
            Finds::Several => false,
        },
        Finds::Several => match other {
            Finds::Nothing => false,
            Finds::One(_) => false,
            Finds::Several => true,
        },
    }
}

impl<'a> Question<'a> {
    /// Whether it is about this name of this type.
    pub fn asks(&self, of: &Found<'_>, name: &str) -> bool
        ensures { result ≡ asks self.now (find_of of.now) name.now }
    {
        is_same_part(self.of.part, of.part) && (is_same(&self.of, of) && self.name.as_str() == name)
    }

    /// What is found with this many levels, as far as it is known. Where the question is settled, the last
    /// answer is found with all further levels too.
    pub fn answer(&self, is_settled: bool, levels: usize) -> Option<&Finds<'a>>
        ensures { option_copied result ≡ answer_of self.now is_settled levels }
    {
        match self.answers.as_slice().get(levels) {
            Some(finds) => Some(finds),
            None => {
                if is_settled {
                    return self.answers.as_slice().last();
                }
                None
            }
        }
    }

    /// Whether the same is found of a question that is not settled with a number of levels and with another
    /// one. It is not where either is not known.
    pub fn is_steady(&self, fewer: usize, levels: usize) -> bool
        ensures { result ≡ true → IsSteady self.now fewer levels }
    {
        let Some(before) = self.answer(false, fewer) else {
            return false;
        };
        let Some(after) = self.answer(false, levels) else {
            return false;
        };
        is_same_finds(before, after)
    }
}
