// The search by levels of questions: a level is the set of questions that the level before asks, and the answers come from the last level back.
ghost use Rattle.std.specs.Prelude.{◌≡◌, IfOk};
ghost use Rattle.std.specs.List.{AllByRecursion};
ghost use Rattle.apt_base.specs.Limits.{max_type_steps};
ghost use Rattle.type_levels.specs.Numbered.{AreKnown, Keeps};
ghost use Rattle.type_levels.specs.Levels.{AllAsk, AreAnswers, answer_at};

use crate::answer::Answer;
use crate::asked::{Asked, Step, next_level};
use crate::budget::Budget;
use crate::level_answers::{look, with_step, without_step};
use crate::question::Pair;
use crate::relation::Relation;
use apt_base::{MAX_TYPE_STEPS, NoMemory};
use std::alloc::Global;

/// The steps within which most questions are settled.
const FEW_STEPS: u32 = 8;

// What each question of a level asks next.
fn all_next<T, R: Relation<T>>(
    alloc: Global,
    relation: &R,
    types: &mut T,
    level: &[Pair],
    budget: &mut Budget,
) -> Result<Vec<Step>, NoMemory>
    requires known { AllByRecursion (AreKnown (R.seen relation.now types.old)) level.now }
    ensures next { IfOk result (λ s. AllAsk (R.seen relation.now) types.old types.new level.now s.items) }
    ensures grows { Keeps (R.seen relation.now) types.old types.new }
{
    let mut steps = Vec::new(alloc);
    for pair in level {
        let next = relation.next(types, *pair)?;
        budget.take(next.count())?;
        steps.push(Step {
            sup: pair.sup,
            next,
        })?;
    }
    Ok(steps)
}

/// The answers to the questions of a level within this many steps, in their order.
fn answers<T, R: Relation<T>>(
    alloc: Global,
    relation: &R,
    types: &mut T,
    steps: u32,
    asked: &Asked,
    budget: &mut Budget,
) -> Result<Vec<Answer>, NoMemory>
    requires known { AllByRecursion (AreKnown (R.seen relation.now types.old)) asked.now }
    ensures right { IfOk result (λ r. AreAnswers (R.seen relation.now types.old) steps asked.now r.items) }
    ensures grows { Keeps (R.seen relation.now) types.old types.new }
{
    let asks = all_next(alloc, relation, types, asked.as_slice(), budget)?;
    if steps == 0 {
        let last = without_step(alloc, asks.as_slice())?;
        return Ok(last);
    }
    let next = next_level(alloc, asks.as_slice())?;
    let known = answers(alloc, relation, types, steps - 1, &next, budget)?;
    let level = with_step(alloc, asks.as_slice(), &next, known.as_slice())?;
    Ok(level)
}

// The answer to one question within this many steps.
fn answer_within<T, R: Relation<T>>(
    alloc: Global,
    relation: &R,
    types: &mut T,
    steps: u32,
    pair: Pair,
) -> Result<Answer, NoMemory>
    requires known { AreKnown (R.seen relation.now types.old) pair }
    ensures answer { IfOk result (λ r. r ≡ answer_at (R.seen relation.now types.old) steps pair) }
    ensures grows { Keeps (R.seen relation.now) types.old types.new }
{
    let mut level = Asked::new(alloc);
    level.add(pair)?;
    let mut budget = Budget::new();
    let known = answers(alloc, relation, types, steps, &level, &mut budget)?;
    Ok(look(&level, known.as_slice(), pair))
}

/// Whether the first type is below the second one by the relation, within 64 steps. What eight steps settle is settled.
///
/// Out of memory comes also where the questions of a search would name more than 65,536 arguments and supertypes.
pub fn related<T, R: Relation<T>>(
    alloc: Global,
    relation: &R,
    types: &mut T,
    pair: Pair,
) -> Result<Answer, NoMemory>
    requires known { AreKnown (R.seen relation.now types.old) pair }
    ensures answer { IfOk result (λ r. r ≡ answer_at (R.seen relation.now types.old) max_type_steps pair) }
    ensures grows { Keeps (R.seen relation.now) types.old types.new }
{
    match answer_within(alloc, relation, types, FEW_STEPS, pair)? {
        Answer::Yes => Ok(Answer::Yes),
        Answer::No => Ok(Answer::No),
        Answer::Open => answer_within(alloc, relation, types, MAX_TYPE_STEPS, pair),
    }
}
