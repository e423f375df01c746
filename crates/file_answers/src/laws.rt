// The law of answers.
ghost use Rattle.file_answers.specs.Flaws.{EachAnswered};

/// Each file reads as something.
pub fn each_answered()
    ensures { EachAnswered }
{}
