// Why a text has no characters or no tokens.
ghost use Rattle.std.specs.Prelude.{◌≡◌};
ghost use Rattle.java_tokens.specs.declared.fault.TextFault.TheVariants.{Memory};

use std::alloc::{AllocError, AllocFailed};

/// Why a text was refused.
#[derive(Clone, Copy, Debug, PartialEq, Eq)]
pub enum TextFault {
    /// It is none from this offset on.
    Bad {
        /// The offset in the file, counted from 0.
        place: u32,
    },
    /// Memory ran out.
    Memory,
}

impl From<AllocError> for TextFault {
    ghost from_gives = { λ _ e. e ≡ Memory };

    fn from(_: AllocError) -> Self {
        TextFault::Memory
    }
}

impl<T: Drop> From<AllocFailed<T>> for TextFault {
    ghost from_gives = { λ _ e. e ≡ Memory };

    fn from(_: AllocFailed<T>) -> Self {
        TextFault::Memory
    }
}
