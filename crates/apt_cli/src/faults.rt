// How often an object of the outside has failed.
ghost use Rattle.std.specs.Prelude.{◌≡◌, ◌↔◌, Ok, IfOk, OnOk, IsErrAnd, IsErrOf};
ghost use Rattle.apt_outside.specs.Count.{HasCause, Uncounted};
ghost use Rattle.apt_cli.specs.Failures.{IsWantOfMemory};

use crate::messages::{Attempt, Failure, say_failure};
use apt_outside::Fault;
use std::io::{ErrorKind, Stderr};

/// How many calls have failed, each of which was said. At its greatest value the count stands still.
#[derive(Drop)]
pub struct Faults {
    pub count: u64,
    pub messages: Stderr,
}

impl Faults {
    /// No call has failed yet; those that will are said here.
    pub fn new(messages: Stderr) -> Self
        ensures { result.count ≡ 0 }
    {
        Faults { count: 0, messages }
    }

    /// Hands on what the system answered, and counts and says a failure. Out of memory, the allocator's or the
    /// system's, is none.
    pub fn count_failure<T>(
        &mut self,
        attempt: Attempt<'_>,
        outcome: Result<T, Failure>,
    ) -> Result<T, Fault>
        ensures cause { HasCause self.old.count self.new.count result }
        ensures uncounted { Uncounted self.old.count self.new.count result }
        ensures same { OnOk result (self.new.count ≡ self.old.count) }
        ensures ok { IfOk outcome (λ value. result ≡ Ok value) }
        ensures memory { IsErrOf result Fault.Memory ↔ IsErrAnd outcome IsWantOfMemory }
        ensures failed { IsErrOf result Fault.Failed ↔ IsErrAnd outcome (λ f. ¬ IsWantOfMemory f) }
    {
        match outcome {
            Ok(value) => Ok(value),
            Err(error) if error.kind() == ErrorKind::OutOfMemory => Err(Fault::Memory),
            Err(error) => {
                say_failure(self.messages, attempt, &error);
                self.count = self.count.saturating_add(1);
                Err(Fault::Failed)
            }
        }
    }
}
