// What a round shows.
ghost use Rattle.std.specs.Prelude.{◌≡◌, IfOk};

use apt_base::{List, Name, NoMemory, copy_names};
use std::alloc::Global;

/// What a round shows to a processor.
#[derive(Drop)]
pub struct RoundEnv {
    /// Its number, from 1.
    pub number: u32,
    /// Whether it is the last.
    pub over: bool,
    /// Whether an error was printed in the round before.
    pub error: bool,
    /// The names of the annotations that are offered, ascending.
    pub offered: List<Name>,
    /// The names of its root units, ascending.
    pub roots: List<Name>,
}

impl RoundEnv {
    /// An equal environment.
    pub fn copy(&self, alloc: Global) -> Result<RoundEnv, NoMemory>
        ensures { IfOk result (λ copy. copy ≡ self.now) }
    {
        Ok(RoundEnv {
            number: self.number,
            over: self.over,
            error: self.error,
            offered: copy_names(alloc, self.offered.as_slice())?,
            roots: copy_names(alloc, self.roots.as_slice())?,
        })
    }
}
