// Why units were not entered.
ghost use Rattle.std.specs.Prelude.{◌≡◌, IfOk};
ghost use Rattle.project_units.specs.declared.unit_fault.UnitFault.TheVariants.{Memory};

use apt_base::{Name, NoMemory};

/// Why units were not entered into a type table.
#[derive(Drop)]
pub enum UnitFault {
    /// One has a name that is there.
    Duplicate {
        /// The canonical name of the unit.
        name: Name,
        /// The path of the file that gave it first.
        first: Name,
    },
    /// With the types of one the table would have more than 50,000.
    TooMany,
    /// Out of memory.
    Memory,
}

impl UnitFault {
    /// An equal fault.
    pub fn copy(&self) -> Result<UnitFault, NoMemory>
        ensures { IfOk result (λ fault. fault ≡ self.now) }
    {
        match self {
            UnitFault::Duplicate { name, first } => Ok(UnitFault::Duplicate {
                name: name.copy()?,
                first: first.copy()?,
            }),
            UnitFault::TooMany => Ok(UnitFault::TooMany),
            UnitFault::Memory => Ok(UnitFault::Memory),
        }
    }
}

impl From<NoMemory> for UnitFault {
    ghost from_gives = { λ _ e. e ≡ Memory };

    fn from(_: NoMemory) -> UnitFault {
        UnitFault::Memory
    }
}
