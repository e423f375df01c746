// Why a reader of bytes gave nothing.
use crate::NoMemory;

/// Why bytes gave no value of a form.
#[derive(Clone, Copy, Debug, PartialEq, Eq)]
pub enum FormFault {
    /// They are not of the form.
    Bad,
    /// Memory ran out.
    Memory,
}

impl From<NoMemory> for FormFault {
    ghost use Rattle.std.specs.Prelude.{◌≡◌};
    ghost use Rattle.apt_base.specs.declared.fault.FormFault.TheVariants.{Memory};

    ghost from_gives = { λ _ e. e ≡ Memory };

    fn from(_: NoMemory) -> FormFault {
        FormFault::Memory
    }
}
