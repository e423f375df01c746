// Why a run is refused whose session with a child failed.
ghost use Rattle.std.specs.Prelude.{◌≡◌};
ghost use Rattle.project_units.specs.Refusals.{Names};
ghost use Rattle.project_units.specs.Faults.{stop_of};
ghost use Rattle.round_engine.specs.Faults.{of_session};

use apt_base::Name;
use child_session::SessionFault;
use project_units::Refusal;

/// The refusal of a run whose session with this processor failed so.
pub(crate) fn refusal_by(processor: Name, fault: SessionFault) -> Refusal
    ensures is { stop_of result ≡ of_session processor fault }
    ensures named { Names processor (stop_of result) }
{
    match fault {
        SessionFault::Failed => Refusal::ChildFault { processor },
        SessionFault::Breach(breach) => Refusal::Breach { processor, breach },
        SessionFault::TooManyQuestions { limit } => Refusal::TooManyQuestions { processor, limit },
        SessionFault::ClaimBroken { declared, said } => Refusal::ClaimBroken {
            processor,
            declared,
            said,
        },
        SessionFault::Memory => Refusal::Memory,
    }
}
