// The questions of a level, and what they ask next.
ghost use Rattle.std.specs.Prelude.{◌≡◌, [], map, IfOk, OnOk};
ghost use Rattle.std.specs.List.{flat_map};
ghost use Rattle.type_levels.specs.Levels.{with_pair, with_pairs, asked_by, asked_at, below_type, place};

use crate::question::{Next, Pair, Question};
use apt_base::NoMemory;
use indexmap::IndexSet;
use std::alloc::Global;
use std::marker::Model;

/// What a question asks next, with its second type.
#[derive(Debug, Drop)]
pub struct Step {
    pub sup: usize,
    pub next: Next,
}

/// Different questions, in the order in which they were first asked. Contracts see the list.
#[derive(Drop)]
pub struct Asked {
    held: IndexSet<Pair>,
}

impl Model for Asked {
    ghost use Rattle.std.specs.Prelude.{List};
    ghost use Rattle.type_levels.specs.declared.question.Pair.{Pair};

    ghost Value = { List Pair };

    ghost view = { λ a. a.held.keys };
}

impl Asked {
    /// No questions.
    pub fn new(alloc: Global) -> Asked
        ensures { result ≡ [] }
    {
        Asked {
            held: IndexSet::new(alloc),
        }
    }

    /// The questions, in the order in which they were first asked.
    pub fn as_slice(&self) -> &[Pair]
        ensures { result.now ≡ self.now }
    {
        self.held.as_slice()
    }

    /// The place of a question.
    pub fn place(&self, pair: Pair) -> Option<usize>
        ensures { result ≡ place self.now pair }
    {
        self.held.get_index_of(&pair)
    }

    /// Adds a question where it is not there yet.
    pub fn add(&mut self, pair: Pair) -> Result<(), NoMemory>
        ensures { OnOk result (self.new ≡ with_pair self.old pair) }
    {
        self.held.insert(pair)?;
        Ok(())
    }

    fn add_questions(&mut self, questions: &[Question]) -> Result<(), NoMemory>
        ensures { OnOk result (self.new ≡ with_pairs self.old (asked_by questions.now)) }
    {
        for question in questions {
            match question {
                Question::Settled(_) => {}
                Question::Asks(pair) => self.add(*pair)?,
            }
        }
        Ok(())
    }

    fn add_types(&mut self, sup: usize, types: &[usize]) -> Result<(), NoMemory>
        ensures { OnOk result (self.new ≡ with_pairs self.old (map (below_type sup) types.now)) }
    {
        for sub in types {
            self.add(Pair { sub: *sub, sup })?;
        }
        Ok(())
    }

    /// Adds what a question asks that asks this next.
    pub fn add_step(&mut self, step: &Step) -> Result<(), NoMemory>
        ensures { OnOk result (self.new ≡ with_pairs self.old (asked_at step.now)) }
    {
        match &step.next {
            Next::Decided(_) => Ok(()),
            Next::Arguments(questions) => self.add_questions(questions.as_slice()),
            Next::Supertypes(types) => self.add_types(step.sup, types.as_slice()),
        }
    }
}

/// What a level asks next, each question once.
pub fn next_level(alloc: Global, steps: &[Step]) -> Result<Asked, NoMemory>
    ensures { IfOk result (λ asked. asked ≡ with_pairs [] (flat_map asked_at steps.now)) }
{
    let mut asked = Asked::new(alloc);
    for step in steps {
        asked.add_step(step)?;
    }
    Ok(asked)
}
