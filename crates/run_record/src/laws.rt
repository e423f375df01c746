// The law on notes of questions beyond reach.
ghost use Rattle.run_record.specs.Asked.{BeyondIsAsked};

use beyond_reach::{beyond_is_decided, noted_is_beyond};

/// What is remembered of a processor in a round says that a question was beyond reach exactly where one of those that it asked
/// in that round was. So a note of it in the record of a run is on a processor that asked such a question.
pub fn beyond_is_asked()
    ensures { BeyondIsAsked }
{
    beyond_is_decided();
    noted_is_beyond();
}
