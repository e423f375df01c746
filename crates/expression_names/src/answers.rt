// What was found of the fields of types.
ghost use Rattle.std.specs.Prelude.{◌≡◌, [], string_bytes, IfOk, IfSome};
ghost use Rattle.element_table.specs.TypeTable.{TypeTable};
ghost use Rattle.expression_names.specs.Remembered.{IsAnswer, AreAnswers};

use apt_base::{ElementRef, NoMemory};
use name_resolve::Finds;
use std::alloc::Global;
use std::collections::BTreeMap;

/// How many answers are remembered at most.
const MOST_ANSWERS: usize = 65_536;

/// Which fields of a name a type has, with a number of levels of supertypes.
#[derive(Drop)]
pub(crate) struct Answer<'a> {
    pub levels: usize,
    pub at: ElementRef,
    pub name: String,
    pub finds: Finds<'a>,
}

/// Such answers, as they were found.
#[derive(Drop)]
pub(crate) struct Answers<'a> {
    alloc: Global,
    list: Vec<Answer<'a>>,
    // Where each stands in the list, by its key.
    places: BTreeMap<String, usize>,
}

// A text that no other question has.
fn key_of(alloc: Global, levels: usize, at: &ElementRef, name: &str) -> Result<String, NoMemory> {
    let mut key = format!(in alloc; "{levels} ")?;
    key.push_str(name)?;
    key.push(' ')?;
    key.push_str(at.unit.as_str())?;
    for step in at.path.as_slice() {
        let number = *step;
        let text = format!(in alloc; " {number}")?;
        key.push_str(text.as_str())?;
    }
    Ok(key)
}

impl<'a> Answers<'a> {
    /// Nothing was asked yet. It takes no memory.
    pub fn new(alloc: Global) -> Self
        ensures { result.list.items ≡ [] }
    {
        Answers {
            alloc,
            list: Vec::new(alloc),
            places: BTreeMap::new(alloc),
        }
    }

    /// What was found of this question, if it was asked.
    pub fn find(
        &self,
        levels: usize,
        at: &ElementRef,
        name: &str,
    ) -> Result<Option<&Answer<'a>>, NoMemory>
        ensures levels { IfOk result (λ found. IfSome found (λ a. a.now.levels ≡ levels)) }
        ensures at { IfOk result (λ found. IfSome found (λ a. a.now.at ≡ at.now)) }
        ensures name { IfOk result (λ found. IfSome found (λ a. string_bytes a.now.name ≡ name.now)) }
        ensures value { IfOk result (λ found. IfSome found
            (λ a. (table : TypeTable) → AreAnswers table self.now → IsAnswer table a.now)) }
    {
        let key = key_of(self.alloc, levels, at, name)?;
        let Some(place) = self.places.get(key.as_str()) else {
            return Ok(None);
        };
        let Some(answer) = self.list.as_slice().get(*place) else {
            return Ok(None);
        };
        if answer.levels != levels {
            return Ok(None);
        }
        if !answer.at.is_equal(at) {
            return Ok(None);
        }
        if answer.name.as_str() != name {
            return Ok(None);
        }
        Ok(Some(answer))
    }

    /// Remembers an answer. Out of memory beyond 65,536 of them.
    pub fn add(&mut self, answer: Answer<'a>) -> Result<(), NoMemory>
        ensures { (table : TypeTable) → AreAnswers table self.old → IsAnswer table answer.entry
            → AreAnswers table self.new }
    {
        let place = self.list.len();
        if place >= MOST_ANSWERS {
            return Err(NoMemory);
        }
        let key = key_of(self.alloc, answer.levels, &answer.at, answer.name.as_str())?;
        self.list.push(answer)?;
        self.places.insert(key, place)?;
        Ok(())
    }

    /// Forgets all answers where more than half of those that may be remembered are there.
    pub fn make_room(&mut self)
        ensures { (table : TypeTable) → AreAnswers table self.old → AreAnswers table self.new }
    {
        if self.list.len() > MOST_ANSWERS / 2 {
            self.list.clear();
            self.places.clear();
        }
    }
}
