// Why a record was not written or read.
use apt_base::NoMemory;
use thiserror::Error;

/// Why there are no bytes of a record, or no record of bytes.
#[derive(Clone, Copy, Debug, PartialEq, Eq, Error)]
pub enum RecordFault {
    /// The record would have more than `MAX_RECORD` bytes.
    #[error("the record is too large")]
    TooLarge,
    /// The bytes have no reading as a record.
    #[error("the bytes are no record")]
    Damaged,
    /// Memory ran out.
    #[error("out of memory")]
    Memory,
}

impl From<NoMemory> for RecordFault {
    ghost use Rattle.std.specs.Prelude.{◌≡◌};
    ghost use Rattle.origin_record.specs.declared.fault.RecordFault.TheVariants.{Memory};

    ghost from_gives = { λ _ fault. fault ≡ Memory };

    fn from(_: NoMemory) -> RecordFault {
        RecordFault::Memory
    }
}
