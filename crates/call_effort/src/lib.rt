//! What a call may still take, in steps: it bounds a call's time where its arguments don't.
//!
//! What a step is, and how many there are, says the crate that counts them. A step takes less than a microsecond.
#![tactic(auto)]

ghost use Rattle.std.specs.Prelude.{◌≡◌, ◌+◌, ◌<◌, OnErr, OnOk};

use apt_base::NoMemory;
use std::marker::Model;

/// What a call may still take, in steps. Contracts see how many are left.
#[derive(Drop)]
pub struct Effort {
    left: usize,
}

impl Model for Effort {
    ghost use Rattle.std.specs.Prelude.{ℕ};

    ghost Value = { ℕ };

    ghost view = { λ a. a.left };
}

impl Effort {
    /// This many steps.
    pub fn new(steps: usize) -> Effort
        ensures { result ≡ steps }
    {
        Effort { left: steps }
    }

    /// Takes this many steps; out of memory where fewer are left, which then stay.
    pub fn take(&mut self, steps: usize) -> Result<(), NoMemory>
        ensures ok { OnOk result (self.new + steps ≡ self.old) }
        ensures few { OnErr result (self.old < steps) }
        ensures err { OnErr result (self.new ≡ self.old) }
    {
        if steps > self.left {
            return Err(NoMemory);
        }
        self.left -= steps;
        Ok(())
    }
}
