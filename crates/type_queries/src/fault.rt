// Why a question on types has no answer.
ghost use Rattle.std.specs.Prelude.{◌≡◌};
ghost use Rattle.type_queries.specs.declared.fault.QueryFault.TheVariants.{Memory};

use apt_base::NoMemory;

/// Why a question on types has no answer. They are tested in the order of `NoSuch`, `WrongKind`, `TooDeep`; `Memory` may come at any time.
#[derive(Clone, Copy, Debug, PartialEq, Eq)]
pub enum QueryFault {
    /// A mirror names an element that is not in the table, or an element that is asked for is not there.
    NoSuch,
    /// An argument is not of the kind that the question wants.
    WrongKind,
    /// There is no answer within 64 nested steps.
    TooDeep,
    /// There was no memory.
    Memory,
}

impl From<NoMemory> for QueryFault {
    ghost from_gives = { λ _ e. e ≡ Memory };

    fn from(_: NoMemory) -> QueryFault {
        QueryFault::Memory
    }
}
