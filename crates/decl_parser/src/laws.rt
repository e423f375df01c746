// The law of what a file comes to.
ghost use Rattle.decl_parser.specs.Parsed.{AnswersOrdinary, AnswersInfo, HasOneAnswer};

/// The symbols of a file have at most one answer but when memory runs out: the same units with the same lines, the same place, or the same limit.
pub fn one_answer()
    ensures types { HasOneAnswer AnswersOrdinary }
    ensures info { HasOneAnswer AnswersInfo }
{}
