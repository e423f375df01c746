// Why a run over a project was refused.
ghost use Rattle.std.specs.Prelude.{◌≡◌, IfOk};
ghost use Rattle.project_units.specs.declared.refusal.Refusal.TheVariants as code;

use apt_base::{Claim, Name, NoMemory, What};
use frame_breaches::Breach;
use std::alloc::{AllocError, AllocFailed};

/// Why a run over a project was refused.
#[derive(Drop)]
pub enum Refusal {
    /// A call of the children failed, and their count of faults rose.
    ChildFault {
        /// The processor's name.
        processor: Name,
    },
    /// A child's bytes leave the protocol.
    Breach {
        /// The processor's name.
        processor: Name,
        /// How they do, at the first place where they do.
        breach: Breach,
    },
    /// A child asked more often in one round than it may.
    TooManyQuestions {
        /// The processor's name.
        processor: Name,
        /// How often it may.
        limit: u32,
    },
    /// A child was done with a round, and said another thing of the claim than its processor had declared (JSR 269,
    /// `Processor.process`).
    ClaimBroken {
        /// The processor's name.
        processor: Name,
        /// What it declared: `Always` or `Never`.
        declared: Claim,
        /// What the child said.
        said: bool,
    },
    /// A created source that is to be read has no reading.
    BadGenerated {
        /// Its path in the output.
        path: Name,
        /// The offset of its first fault, in bytes.
        place: u32,
    },
    /// A created source gives a type that is there (JSR 269, `Filer`).
    GeneratedDuplicate {
        /// The canonical name of the type.
        name: Name,
    },
    /// Round 64 would not be the last.
    TooManyRounds,
    /// What is counted passes its limit.
    TooLarge {
        /// Which limit.
        what: What,
        /// How much there may be.
        limit: u32,
    },
    /// Out of memory.
    Memory,
}

impl Refusal {
    /// An equal refusal.
    pub fn copy(&self) -> Result<Refusal, NoMemory>
        ensures { IfOk result (λ refusal. refusal ≡ self.now) }
    {
        match self {
            Refusal::ChildFault { processor } => Ok(Refusal::ChildFault {
                processor: processor.copy()?,
            }),
            Refusal::Breach { processor, breach } => Ok(Refusal::Breach {
                processor: processor.copy()?,
                breach: *breach,
            }),
            Refusal::TooManyQuestions { processor, limit } => Ok(Refusal::TooManyQuestions {
                processor: processor.copy()?,
                limit: *limit,
            }),
            Refusal::ClaimBroken {
                processor,
                declared,
                said,
            } => Ok(Refusal::ClaimBroken {
                processor: processor.copy()?,
                declared: *declared,
                said: *said,
            }),
            Refusal::BadGenerated { path, place } => Ok(Refusal::BadGenerated {
                path: path.copy()?,
                place: *place,
            }),
            Refusal::GeneratedDuplicate { name } => {
                Ok(Refusal::GeneratedDuplicate { name: name.copy()? })
            }
            Refusal::TooManyRounds => Ok(Refusal::TooManyRounds),
            Refusal::TooLarge { what, limit } => Ok(Refusal::TooLarge {
                what: *what,
                limit: *limit,
            }),
            Refusal::Memory => Ok(Refusal::Memory),
        }
    }
}

impl From<NoMemory> for Refusal {
    ghost from_gives = { λ _ e. e ≡ code.Memory };

    fn from(_: NoMemory) -> Refusal {
        Refusal::Memory
    }
}

impl From<AllocError> for Refusal {
    ghost from_gives = { λ _ e. e ≡ code.Memory };

    fn from(_: AllocError) -> Refusal {
        Refusal::Memory
    }
}

impl<T: Drop> From<AllocFailed<T>> for Refusal {
    ghost from_gives = { λ _ e. e ≡ code.Memory };

    fn from(_: AllocFailed<T>) -> Refusal {
        Refusal::Memory
    }
}
