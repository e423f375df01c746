// Why a call of the store was refused.
ghost use Rattle.std.specs.Prelude.{◌≡◌};
ghost use Rattle.output_store.specs.declared.fault.StoreFault.TheVariants.{Memory};
ghost use Rattle.output_store.specs.Cause.{as_store_fault};

use apt_base::NoMemory;
use apt_outside::Fault;
use std::alloc::{AllocError, AllocFailed};

/// Why a call of the store was refused.
#[derive(Clone, Copy, Debug, PartialEq, Eq)]
pub enum StoreFault {
    /// The tree failed. It comes only where the tree's count of faults rose in the call.
    Failed,
    /// There was no memory.
    Memory,
}

impl From<Fault> for StoreFault {
    ghost from_gives = { λ fault e. e ≡ as_store_fault fault };

    fn from(fault: Fault) -> StoreFault {
        match fault {
            Fault::Failed => StoreFault::Failed,
            Fault::Memory => StoreFault::Memory,
        }
    }
}

impl From<NoMemory> for StoreFault {
    ghost from_gives = { λ _ e. e ≡ Memory };

    fn from(_: NoMemory) -> StoreFault {
        StoreFault::Memory
    }
}

impl From<AllocError> for StoreFault {
    ghost from_gives = { λ _ e. e ≡ Memory };

    fn from(_: AllocError) -> StoreFault {
        StoreFault::Memory
    }
}

impl<T: Drop> From<AllocFailed<T>> for StoreFault {
    ghost from_gives = { λ _ e. e ≡ Memory };

    fn from(_: AllocFailed<T>) -> StoreFault {
        StoreFault::Memory
    }
}
