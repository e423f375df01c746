// Laws of relations within a number of steps.
ghost use Rattle.type_levels.specs.Laws.{MoreStepsSettle, ContainsByNumbers};

/// A yes and a no stay with more steps, whatever the types are and the relation asks. So an answer that comes early is the answer.
pub fn more_steps_settle<M>()
    ensures { MoreStepsSettle M }
{}

/// What is asked for whether one argument contains another, by the numbers of types, is what is asked of the types.
pub fn contains_by_numbers<M>()
    ensures { ContainsByNumbers M }
{}
