// The answers of a level by those of the next one.
ghost use Rattle.std.specs.Prelude.{◌≡◌, IfOk, map};
ghost use Rattle.type_levels.specs.Answers.{any, all};
ghost use Rattle.type_levels.specs.Levels.{at_place, look, question_answer, step_answer, last_answer, below_type};

use crate::answer::Answer;
use crate::asked::{Asked, Step};
use crate::question::{Next, Pair, Question};
use apt_base::NoMemory;
use std::alloc::Global;

fn at_place(answers: &[Answer], place: Option<usize>) -> Answer
    ensures { result ≡ at_place answers.now place }
{
    match place {
        None => Answer::Open,
        Some(place) => match answers.get(place) {
            None => Answer::Open,
            Some(answer) => *answer,
        },
    }
}

/// The answer to a question, by those to some; open where it is none of them.
pub fn look(asked: &Asked, answers: &[Answer], pair: Pair) -> Answer
    ensures { result ≡ look asked.now answers.now pair }
{
    at_place(answers, asked.place(pair))
}

fn question_answer(asked: &Asked, answers: &[Answer], question: Question) -> Answer
    ensures { result ≡ question_answer (look asked.now answers.now) question }
{
    match question {
        Question::Settled(answer) => answer,
        Question::Asks(pair) => look(asked, answers, pair),
    }
}

fn of_arguments(asked: &Asked, answers: &[Answer], questions: &[Question]) -> Answer
    ensures { result ≡ all (question_answer (look asked.now answers.now)) questions.now }
{
    let mut answer = Answer::Yes;
    for at in 0..questions.len() {
        let at = questions.len() - 1 - at;
        answer = question_answer(asked, answers, questions[at]).and(answer);
    }
    answer
}

fn of_supertype(asked: &Asked, answers: &[Answer], sup: usize, sub: usize) -> Answer
    ensures { result ≡ look asked.now answers.now (below_type sup sub) }
{
    look(asked, answers, Pair { sub, sup })
}

fn of_supertypes(asked: &Asked, answers: &[Answer], sup: usize, types: &[usize]) -> Answer
    ensures { result ≡ any (λ sub. look asked.now answers.now (below_type sup sub)) types.now }
{
    let mut answer = Answer::No;
    for at in 0..types.len() {
        let at = types.len() - 1 - at;
        answer = of_supertype(asked, answers, sup, types[at]).or(answer);
    }
    answer
}

fn of_step(asked: &Asked, answers: &[Answer], step: &Step) -> Answer
    ensures { result ≡ step_answer (look asked.now answers.now) step.now }
{
    match &step.next {
        Next::Decided(answer) => *answer,
        Next::Arguments(questions) => of_arguments(asked, answers, questions.as_slice()),
        Next::Supertypes(types) => of_supertypes(asked, answers, step.sup, types.as_slice()),
    }
}

fn of_last_step(next: &Next) -> Answer
    ensures { result ≡ last_answer next.now }
{
    match next {
        Next::Decided(answer) => *answer,
        Next::Arguments(_) => Answer::Open,
        Next::Supertypes(types) => {
            if types.is_empty() {
                return Answer::No;
            }
            Answer::Open
        }
    }
}

/// With one step, by the answers to what the level asks.
pub fn with_step(
    alloc: Global,
    steps: &[Step],
    asked: &Asked,
    answers: &[Answer],
) -> Result<Vec<Answer>, NoMemory>
    ensures { IfOk result (λ r. r.items ≡ map (step_answer (look asked.now answers.now)) steps.now) }
{
    let mut level = Vec::new(alloc);
    for step in steps {
        level.push(of_step(asked, answers, step))?;
    }
    Ok(level)
}

/// With no step.
pub fn without_step(alloc: Global, steps: &[Step]) -> Result<Vec<Answer>, NoMemory>
    ensures { IfOk result (λ r. r.items ≡ map (λ step. last_answer step.next) steps.now) }
{
    let mut level = Vec::new(alloc);
    for step in steps {
        level.push(of_last_step(&step.next))?;
    }
    Ok(level)
}
