// Questions about types, which go by numbers, and what a question asks next.
use crate::answer::Answer;

/// Whether the first type is below the second one.
#[derive(Clone, Copy, Debug, PartialEq, Eq, Hash)]
pub struct Pair {
    pub sub: usize,
    pub sup: usize,
}

/// A question that is settled, or one that is asked.
#[derive(Clone, Copy, Debug)]
pub enum Question {
    Settled(Answer),
    Asks(Pair),
}

/// What a question asks next.
#[derive(Debug, Drop)]
pub enum Next {
    Decided(Answer),
    /// Each of these must hold.
    Arguments(Vec<Question>),
    /// One of these must be below the second type of the question.
    Supertypes(Vec<usize>),
}

impl Next {
    /// How many arguments and supertypes it names.
    pub fn count(&self) -> usize {
        match self {
            Next::Decided(_) => 0,
            Next::Arguments(questions) => questions.len(),
            Next::Supertypes(types) => types.len(),
        }
    }
}
