// Subtypes and contained type arguments, each question once.
ghost use Rattle.std.specs.Prelude.{◌≡◌, [], Some, IfOk, IfSome};
ghost use Rattle.type_memory.specs.Known.{AreBothKnown, Grows, IsKnown, known_of};
ghost use Rattle.type_memory.specs.Remembered.{IsAnswer, contained_by_numbers, key_of, subtype_at, subtype_by_numbers};
ghost use Rattle.type_numbers.specs.Numbers.{Stands};

use crate::known_types::KnownTypes;
use crate::relation::KnownSubtypes;
use apt_base::NoMemory;
use element_table::Table;
use std::alloc::Global;
use std::collections::BTreeMap;
use std::marker::Model;
use type_levels::{Answer, Pair, Question, related};
use type_mirror::Mirror;
use type_numbers::Types;
use type_subtypes::Subtypes;

// How many numbers types have at most, and how many answers are remembered.
const MOST: usize = 1_048_576;

/// Subtypes over one table, each question answered once. Contracts see the table, and the types in the order of their numbers.
#[derive(Drop)]
pub struct RememberedSubtypes<'a> {
    alloc: Global,
    table: &'a Table,
    known: KnownTypes<'a>,
    answers: BTreeMap<usize, Answer>,
}

impl<'a> Model for RememberedSubtypes<'a> {
    ghost use Rattle.type_memory.specs.Known.{Known, known_code, known_of};
    ghost use Rattle.type_memory.specs.Remembered.{AreRight};

    ghost Value = { Known };

    ghost coded = { known_code };

    ghost view = { λ a. known_of a.table.now a.known.types };

    ghost invariant = { λ a. AreRight a.table.now a.known a.answers };
}

// The key of a question.
fn key_of(pair: Pair) -> Option<usize>
    ensures { result ≡ key_of pair }
{
    if pair.sub < MOST && pair.sup < MOST {
        return Some(pair.sub * MOST + pair.sup);
    }
    None
}

impl<'a> RememberedSubtypes<'a> {
    /// Nothing is known yet. It takes no memory.
    pub fn new(alloc: Global, table: &'a Table) -> RememberedSubtypes<'a>
        ensures { result ≡ known_of table.now [] }
    {
        RememberedSubtypes {
            alloc,
            table,
            known: KnownTypes::new(alloc, table),
            answers: BTreeMap::new(alloc),
        }
    }

    /// The table.
    pub fn table(&self) -> &'a Table
        ensures { result.now ≡ self.now.table }
    {
        self.table
    }

    /// The types by their numbers.
    pub fn types(&self) -> &Types
        ensures { result.now ≡ self.now.types }
    {
        self.known.types()
    }

    /// The number of the type, which is added with what stands in it, where they are not there. Each number that was given before still has the same type.
    pub fn add(&mut self, mirror: &Mirror) -> Result<usize, NoMemory>
        ensures stands { IfOk result (λ n. Stands self.new.types n mirror.now) }
        ensures grows { Grows self.old self.new }
    {
        self.known.add(mirror)
    }

    // The answer that stands at a key, if one does.
    fn recalled(&self, key: usize) -> Option<Answer>
        ensures { IfSome result (λ answer. IsAnswer self.now key answer) }
    {
        match self.answers.get(&key) {
            None => None,
            Some(answer) => Some(*answer),
        }
    }

    // Puts an answer at the key of its question, where there is room for one more.
    fn remember(&mut self, key: usize, answer: Answer) -> Result<(), NoMemory>
        requires { IsAnswer self.old key answer }
        ensures { self.new ≡ self.old }
    {
        if self.answers.len() < MOST {
            self.answers.insert(key, answer)?;
        }
        Ok(())
    }

    // Searches for the answer.
    fn search(&mut self, pair: Pair) -> Result<Answer, NoMemory>
        requires { AreBothKnown self.old pair }
        ensures answer { IfOk result (λ r. r ≡ subtype_at self.old pair) }
        ensures grows { Grows self.old self.new }
    {
        let relation = KnownSubtypes { alloc: self.alloc };
        let answer = related(self.alloc, &relation, &mut self.known, pair)?;
        Ok(answer)
    }

    // Searches for the answer to the question with a key, and remembers it.
    fn found(&mut self, key: usize, pair: Pair) -> Result<Answer, NoMemory>
        requires known { AreBothKnown self.old pair }
        requires key { key_of pair ≡ Some key }
        ensures answer { IfOk result (λ r. r ≡ subtype_at self.old pair) }
        ensures grows { Grows self.old self.new }
    {
        let answer = self.search(pair)?;
        self.remember(key, answer)?;
        Ok(answer)
    }

    fn answered(&mut self, pair: Pair) -> Result<Answer, NoMemory>
        requires { AreBothKnown self.old pair }
        ensures answer { IfOk result (λ r. r ≡ subtype_at self.old pair) }
        ensures grows { Grows self.old self.new }
    {
        match key_of(pair) {
            None => self.search(pair),
            Some(key) => match self.recalled(key) {
                Some(answer) => Ok(answer),
                None => self.found(key, pair),
            },
        }
    }

    /// Whether the type with the first number is a subtype of the one with the second number (JLS 4.10) within 64 steps, as `subtype` of `type_subtypes`; open where these do not suffice.
    pub fn subtype(&mut self, one: usize, other: usize) -> Result<Answer, NoMemory>
        requires one { IsKnown self.old one }
        requires other { IsKnown self.old other }
        ensures answer { IfOk result (λ r. r ≡ subtype_by_numbers self.old one other) }
        ensures grows { Grows self.old self.new }
    {
        self.answered(Pair {
            sub: one,
            sup: other,
        })
    }

    /// Whether the type argument with the first number contains the one with the second number (JLS 4.5.1), as `contained` of `type_subtypes`.
    pub fn contained(&mut self, one: usize, other: usize) -> Result<Answer, NoMemory>
        requires one { IsKnown self.old one }
        requires other { IsKnown self.old other }
        ensures answer { IfOk result (λ r. r ≡ contained_by_numbers self.old one other) }
        ensures grows { Grows self.old self.new }
    {
        let relation = Subtypes {
            alloc: self.alloc,
            table: self.table,
        };
        match relation.contains(self.types(), one, other) {
            Question::Settled(answer) => Ok(answer),
            Question::Asks(pair) => self.answered(pair),
        }
    }
}
