// Contained type arguments.
ghost use Rattle.std.specs.Prelude.{◌≡◌};
ghost use Rattle.type_levels.specs.Steps as steps;
ghost use Rattle.type_levels.specs.Containment as contained;
ghost use Rattle.type_levels.specs.Containment.{contains_by};
ghost use Rattle.type_levels.specs.Shown.{argument_of, question_of};

use crate::answer::Answer;
use crate::question::{Pair, Question};

/// A type argument by what stands outermost: a wildcard with the number of its bound, or a type.
#[derive(Clone, Copy, Debug)]
pub enum Argument {
    Unbounded,
    Extends(usize),
    Super(usize),
    Exact,
}

fn asks(sub: usize, sup: usize) -> Question
    ensures { question_of result ≡ steps.Asks sub sup }
{
    Question::Asks(Pair { sub, sup })
}

fn in_extends(bound: usize, number: usize, other: Argument) -> Question
    ensures { question_of result ≡ contained.in_extends bound number (argument_of other) }
{
    match other {
        Argument::Unbounded => Question::Settled(Answer::No),
        Argument::Extends(beside) => asks(beside, bound),
        Argument::Super(_) => Question::Settled(Answer::No),
        Argument::Exact => asks(number, bound),
    }
}

fn in_super(bound: usize, number: usize, other: Argument) -> Question
    ensures { question_of result ≡ contained.in_super bound number (argument_of other) }
{
    match other {
        Argument::Unbounded => Question::Settled(Answer::No),
        Argument::Extends(_) => Question::Settled(Answer::No),
        Argument::Super(beside) => asks(bound, beside),
        Argument::Exact => asks(bound, number),
    }
}

/// Whether an argument contains another one, which has this number: settled, or the one question that is asked. `same` says whether they are the same type.
pub fn contains(same: bool, argument: Argument, number: usize, other: Argument) -> Question
    ensures { question_of result ≡ contains_by same (argument_of argument) number (argument_of other) }
{
    match argument {
        Argument::Unbounded => Question::Settled(Answer::Yes),
        Argument::Extends(bound) => in_extends(bound, number, other),
        Argument::Super(bound) => in_super(bound, number, other),
        Argument::Exact => Question::Settled(Answer::of_test(same)),
    }
}
