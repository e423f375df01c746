// Answers of three values.
ghost use Rattle.std.specs.Prelude.{◌≡◌};
ghost use Rattle.type_levels.specs.Answers as answers;

/// What is answered within a number of steps.
#[derive(Clone, Copy, Debug, PartialEq, Eq)]
pub enum Answer {
    Yes,
    /// The allowed steps do not suffice to decide.
    Open,
    No,
}

impl Answer {
    /// The answer that a test gives.
    pub fn of_test(holds: bool) -> Answer
        ensures { result ≡ answers.of_test holds }
    {
        if holds {
            return Answer::Yes;
        }
        Answer::No
    }

    /// Yes if one is yes, else `Open` if one is `Open`, else no.
    pub fn or(self, other: Answer) -> Answer
        ensures { result ≡ answers.either self other }
    {
        match self {
            Answer::Yes => Answer::Yes,
            Answer::No => other,
            Answer::Open => match other {
                Answer::Yes => Answer::Yes,
                Answer::Open => Answer::Open,
                Answer::No => Answer::Open,
            },
        }
    }

    /// No if one is no, else `Open` if one is `Open`, else yes.
    pub fn and(self, other: Answer) -> Answer
        ensures { result ≡ answers.both self other }
    {
        match self {
            Answer::Yes => other,
            Answer::No => Answer::No,
            Answer::Open => match other {
                Answer::Yes => Answer::Open,
                Answer::Open => Answer::Open,
                Answer::No => Answer::No,
            },
        }
    }
}
