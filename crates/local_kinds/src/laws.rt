// Functions without a task, whose contracts are the laws of the definitions.
ghost use Rattle.local_kinds.specs.Kinds.{AllKeepKinds, ServedKeepKinds};
ghost use Rattle.local_kinds.specs.Streams.{ReadersAnswerInTurn};

/// What each of the processors keeps to in the talk in which each creation whose elements are there is accepted. Its
/// Hello has a constant claim, each Done agrees with it, and no round ends otherwise. Each file and each message of one
/// that goes from root to root has one origin, a root of the round on which an offered name is present (JSR 269,
/// `Filer`, 'originating elements').
pub fn built_in_kinds_hold()
    ensures { AllKeepKinds }
{}

/// A child that writes by the bytes that it read answers frame by frame, where it does so for the bytes of frames that
/// come one behind another.
pub fn readers_hold()
    ensures { ReadersAnswerInTurn }
{}

/// The same of each child whose command is local: what it says is what `local_children` says of that command.
pub fn served_kinds_hold()
    ensures { ServedKeepKinds }
{}
