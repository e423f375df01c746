// What holds of all replies.
ghost use Rattle.std.specs.Prelude.{ℕ, List};
ghost use Rattle.element_table.specs.TypeTable.{TypeTable};
ghost use Rattle.child_answers.specs.ReplyLaws.{AreOfTheirFrames, AllFit, AgreeWithCalls};

/// Each reply is of the frame that the row of its question names, or a refusal.
pub fn replies_are_of_their_frames()
    ensures { AreOfTheirFrames }
{}

/// Each reply fits a frame.
pub fn replies_fit()
    ensures { AllFit }
{}

/// The reply to a question on types is what the call of `type_queries` answers.
pub fn replies_agree_with_calls()
    ensures { (table : TypeTable) (roots : List (List ℕ)) → AgreeWithCalls table roots }
{}
