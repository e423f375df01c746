// Why a call of the store was refused, and why a file of the configuration, or the sources, were not read.
ghost use Rattle.std.specs.Prelude.{◌≡◌};
ghost use Rattle.tree_store.specs.declared.fault.StoreFault.TheVariants.{Memory};
ghost use Rattle.tree_store.specs.declared.fault.SourceReadFault.TheVariants as source_fault;
ghost use Rattle.tree_store.specs.Cause.{as_store_fault, as_config_fault, as_source_fault};

use crate::ConfigFile;
use apt_base::{NoMemory, What};
use apt_outside::Fault;
use std::alloc::{AllocError, AllocFailed};

/// Why a call of the store was refused.
#[derive(Clone, Copy, Debug, PartialEq, Eq)]
pub enum StoreFault {
    /// The tree failed. It comes only where the tree's count of faults rose in the call.
    Failed,
    /// There was no memory.
    Memory,
}

impl From<Fault> for StoreFault {
    ghost from_gives = { λ fault e. e ≡ as_store_fault fault };

    fn from(fault: Fault) -> StoreFault {
        match fault {
            Fault::Failed => StoreFault::Failed,
            Fault::Memory => StoreFault::Memory,
        }
    }
}

impl From<NoMemory> for StoreFault {
    ghost from_gives = { λ _ e. e ≡ Memory };

    fn from(_: NoMemory) -> StoreFault {
        StoreFault::Memory
    }
}

impl From<AllocError> for StoreFault {
    ghost from_gives = { λ _ e. e ≡ Memory };

    fn from(_: AllocError) -> StoreFault {
        StoreFault::Memory
    }
}

impl<T: Drop> From<AllocFailed<T>> for StoreFault {
    ghost from_gives = { λ _ e. e ≡ Memory };

    fn from(_: AllocFailed<T>) -> StoreFault {
        StoreFault::Memory
    }
}

/// Why a file of the configuration was not read.
#[derive(Clone, Copy, Debug, PartialEq, Eq)]
pub enum ConfigReadFault {
    /// The tree failed. It comes only where the tree's count of faults rose in the call.
    Failed,
    /// This file is longer than 1,048,576 bytes, the limit `ConfigBytes` of a build.
    TooLarge(ConfigFile),
    /// There was no memory.
    Memory,
}

impl From<Fault> for ConfigReadFault {
    ghost from_gives = { λ fault e. e ≡ as_config_fault fault };

    fn from(fault: Fault) -> ConfigReadFault {
        match fault {
            Fault::Failed => ConfigReadFault::Failed,
            Fault::Memory => ConfigReadFault::Memory,
        }
    }
}

/// Why the sources of a project were not read.
#[derive(Clone, Copy, Debug, PartialEq, Eq)]
pub enum SourceReadFault {
    /// The tree failed. It comes only where the tree's count of faults rose in the call.
    Failed,
    /// They pass a limit: their number, the bytes of one or those of all.
    TooLarge {
        /// Which limit.
        what: What,
    },
    /// There was no memory.
    Memory,
}

impl From<Fault> for SourceReadFault {
    ghost from_gives = { λ fault e. e ≡ as_source_fault fault };

    fn from(fault: Fault) -> SourceReadFault {
        match fault {
            Fault::Failed => SourceReadFault::Failed,
            Fault::Memory => SourceReadFault::Memory,
        }
    }
}

impl From<NoMemory> for SourceReadFault {
    ghost from_gives = { λ _ e. e ≡ source_fault.Memory };

    fn from(_: NoMemory) -> SourceReadFault {
        SourceReadFault::Memory
    }
}
