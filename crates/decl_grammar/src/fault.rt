// Why a step of the reader gave nothing.
use apt_base::NoMemory;
use std::alloc::{AllocError, AllocFailed};

/// Why symbols are not of a form.
#[derive(Clone, Copy, Debug, PartialEq, Eq)]
pub enum ReadFault {
    /// A fault, with this many symbols left, the faulty one included.
    Bad(usize),
    /// The nesting is too deep at the first of the symbols that are left; this is their number.
    Deep(usize),
    /// Memory ran out.
    Memory,
}

impl From<AllocError> for ReadFault {
    ghost use Rattle.std.specs.Prelude.{◌≡◌};
    ghost use Rattle.decl_grammar.specs.declared.fault.ReadFault.TheVariants.{Memory};

    ghost from_gives = { λ _ e. e ≡ Memory };

    fn from(_: AllocError) -> ReadFault {
        ReadFault::Memory
    }
}

impl<T: Drop> From<AllocFailed<T>> for ReadFault {
    ghost use Rattle.std.specs.Prelude.{◌≡◌};
    ghost use Rattle.decl_grammar.specs.declared.fault.ReadFault.TheVariants.{Memory};

    ghost from_gives = { λ _ e. e ≡ Memory };

    fn from(_: AllocFailed<T>) -> ReadFault {
        ReadFault::Memory
    }
}

impl From<NoMemory> for ReadFault {
    ghost use Rattle.std.specs.Prelude.{◌≡◌};
    ghost use Rattle.decl_grammar.specs.declared.fault.ReadFault.TheVariants.{Memory};

    ghost from_gives = { λ _ e. e ≡ Memory };

    fn from(_: NoMemory) -> ReadFault {
        ReadFault::Memory
    }
}

/// Why symbols are no compilation unit.
#[derive(Clone, Copy, Debug, PartialEq, Eq)]
pub enum ParseFault {
    /// The number, from 0, of the first symbol at which no compilation unit continues. Where the file ends
    /// too early, it is the number of all symbols.
    Bad { place: usize },
    /// At the symbol with this number more nested types, type arguments and values are open than is allowed.
    Deep { place: usize },
    /// Memory ran out.
    Memory,
}
