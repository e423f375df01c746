// Why a session was refused.
ghost use Rattle.std.specs.Prelude.{◌≡◌};
ghost use Rattle.apt_outside.specs.declared.fault.Fault.TheVariants as outside;
ghost use Rattle.child_session.specs.declared.fault.SessionFault.TheVariants.{Failed, Memory};
ghost use Rattle.child_session.specs.Faults.{fault_of};

use apt_base::{Claim, NoMemory};
use apt_outside::Fault;
use frame_breaches::Breach;
use std::alloc::{AllocError, AllocFailed};

/// Why a session was refused.
#[derive(Clone, Copy, Debug, PartialEq, Eq)]
pub enum SessionFault {
    /// A call of the children failed, and their count of faults rose.
    Failed,
    /// The child's bytes leave the protocol, at the first place where they do.
    Breach(Breach),
    /// The child asked more often in one round than it may.
    TooManyQuestions {
        /// How often it may.
        limit: u32,
    },
    /// The child was done with a round, and said another thing of the claim than its processor had declared.
    ClaimBroken {
        /// What it declared: `Always` or `Never`.
        declared: Claim,
        /// What the child said.
        said: bool,
    },
    /// Out of memory.
    Memory,
}

impl From<Fault> for SessionFault {
    ghost from_gives = { λ fault e. e ≡ fault_of fault };

    fn from(fault: Fault) -> SessionFault {
        match fault {
            Fault::Failed => SessionFault::Failed,
            Fault::Memory => SessionFault::Memory,
        }
    }
}

impl From<AllocError> for SessionFault {
    ghost from_gives = { λ _ e. e ≡ Memory };

    fn from(_: AllocError) -> SessionFault {
        SessionFault::Memory
    }
}

impl<T: Drop> From<AllocFailed<T>> for SessionFault {
    ghost from_gives = { λ _ e. e ≡ Memory };

    fn from(_: AllocFailed<T>) -> SessionFault {
        SessionFault::Memory
    }
}

impl From<NoMemory> for SessionFault {
    ghost from_gives = { λ _ e. e ≡ Memory };

    fn from(_: NoMemory) -> SessionFault {
        SessionFault::Memory
    }
}
