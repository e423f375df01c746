// A function without a task, whose contract is the law of the definitions.
ghost use Rattle.local_procs.specs.Kinds.{AllKeepKinds};

/// What each of the processors keeps to, whatever its host replies: its claim is constant, it sends a few frames for a
/// root, and each file and each message that it gives for a root has that root as its one origin. `registry` sends at most
/// two frames in a round: a question, and in the last round alone a resource without origins.
pub fn kinds_hold()
    ensures { AllKeepKinds }
{}
