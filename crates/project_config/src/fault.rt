// Why a configuration was refused.
use apt_base::{Name, NoMemory};

/// Why a configuration was refused.
#[derive(Drop)]
pub enum ConfigFault {
    /// The bytes of `apt.json` are no UTF-8 text that `serde_json` reads as an object.
    Json,
    /// An item of `apt.json` is off its form. This is the first such item, as `/level` or `/processors/NAME/command`.
    Item(Name),
    /// A line of the file of services has no reading. This is the first such line, counted from 1.
    ServiceLine(u32),
    /// A line of the file of kinds has no reading. This is the first such line, counted from 1.
    KindLine(u32),
    /// More than 64 processors are named.
    TooManyProcessors,
    /// `apt.json` has no row for a processor that is named. This is the first such name.
    UnknownProcessor(Name),
    /// There was no memory.
    Memory,
}

impl From<NoMemory> for ConfigFault {
    ghost use Rattle.std.specs.Prelude.{◌≡◌};
    ghost use Rattle.project_config.specs.declared.fault.ConfigFault.TheVariants.{Memory};

    ghost from_gives = { λ _ e. e ≡ Memory };

    fn from(_: NoMemory) -> ConfigFault {
        ConfigFault::Memory
    }
}
