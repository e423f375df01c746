// A function without a task, whose contract is the law of the definitions.
ghost use Rattle.frame_stream.specs.StreamLaws.{ReadingMeetsSpelling};

/// What holds of the frame that stands in front of bytes.
pub fn stream_laws_hold()
    ensures { ReadingMeetsSpelling }
{}
