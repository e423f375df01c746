// A function without a task, whose contract is the laws of the definitions.
ghost use Rattle.local_children.specs.StreamLaws.{SaysLaws};

/// What holds of all that the processors write: more bytes of the host only lengthen it, a breach ends it, and whole frames
/// one behind another are answered one behind another.
pub fn says_laws_hold()
    ensures { SaysLaws }
{}
