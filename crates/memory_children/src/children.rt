// Children in memory with the processors that the program has itself.
ghost use Rattle.std.specs.Prelude.{◌≡◌, ◌<◌, OnOk, vec_len, vec_capacity};
ghost use Rattle.memory_children.specs.Kept.{refuses_start, LiveStarted};

use crate::call::{Call, copy_call};
use crate::local_child::{LocalChild, begin};
use apt_base::NoMemory;
use apt_outside::{Children, Fault};
use std::alloc::{AllocError, Global};

/// A start that is tried.
#[derive(Drop)]
pub struct Attempt {
    /// The call.
    pub call: Call,
    /// The child that it begins; None where its command is not local.
    pub begun: Option<LocalChild>,
}

/// Children in memory with the processors that the program has itself, which tell all that they are sent and say.
/// They are numbered from 0 in the order of the starts that succeeded. A start fails where its number is planned to,
/// where its command is not local, and after 4,294,967,295 that succeeded; no other call does.
#[derive(Drop)]
pub struct LocalChildren {
    /// Where its room comes from.
    pub alloc: Global,
    /// The numbers of the starts that are to fail, counted from 1, in any order.
    pub failing: Vec<u32>,
    /// How many starts answered Ok or Failed; it stays at its greatest value.
    pub calls: u32,
    /// The children that were started, by number.
    pub started: Vec<LocalChild>,
    /// The numbers of those that were not stopped.
    pub live: Vec<u32>,
    /// The calls of `start` that answered Ok or Failed.
    pub tried: Vec<Call>,
    /// How many starts failed.
    pub faults: u64,
    ghost lives: { LiveStarted live.items started.items },
}

// Makes room for one start more.
fn make_room(
    tried: &mut Vec<Call>,
    live: &mut Vec<u32>,
    started: &mut Vec<LocalChild>,
) -> Result<(), AllocError>
    ensures tried { tried.new.items ≡ tried.old.items }
    ensures live { live.new.items ≡ live.old.items }
    ensures started { started.new.items ≡ started.old.items }
    ensures tried_room { OnOk result (vec_len tried.new < vec_capacity tried.new) }
    ensures live_room { OnOk result (vec_len live.new < vec_capacity live.new) }
    ensures started_room { OnOk result (vec_len started.new < vec_capacity started.new) }
{
    tried.reserve(1)?;
    live.reserve(1)?;
    started.reserve(1)
}

impl LocalChildren {
    ghost use Rattle.std.specs.Prelude.{◌≡◌, ◌+◌, ◌-◌, ◌^◌, ◌<◌, ◌≤◌, ◌++◌, ◌∷◌, [], false, length, is_none, min, IfOk, OnOk, option_copied, vec_len, vec_capacity};
    ghost use Rattle.apt_outside.specs.Count.{Rose};
    ghost use Rattle.memory_children.specs.Kept.{sent_bytes, is_foreign, refuses_begun, IsCall, IsFresh, IsPut};

    /// Children none of which was started. The calls of `start` are counted from 1, and those whose numbers `failing`
    /// has are to fail. It takes no memory.
    pub fn new(alloc: Global, failing: Vec<u32>) -> Self
        ensures failing { result.failing ≡ failing }
        ensures calls { result.calls ≡ 0 }
        ensures started { result.started.items ≡ [] }
        ensures live { result.live.items ≡ [] }
        ensures tried { result.tried.items ≡ [] }
        ensures faults { result.faults ≡ 0 }
    {
        LocalChildren {
            alloc,
            failing,
            calls: 0,
            started: Vec::new(alloc),
            live: Vec::new(alloc),
            tried: Vec::new(alloc),
            faults: 0,
        }
    }

    /// All bytes that a child was sent, its frames joined in order, and None exactly where there is no such child. A child
    /// that was stopped still has them.
    pub fn sent(&self, child: u32) -> Option<&[u8]>
        ensures { option_copied result ≡ sent_bytes self.now.started.items child }
    {
        match self.started.get(child as usize) {
            None => None,
            Some(started) => Some(started.sent()),
        }
    }

    // Makes room for one start more, and begins its child.
    fn prepare(&mut self, name: &str, command: &[String]) -> Result<Attempt, AllocError>
        ensures failing { self.new.failing ≡ self.old.failing }
        ensures calls { self.new.calls ≡ self.old.calls }
        ensures started { self.new.started.items ≡ self.old.started.items }
        ensures live { self.new.live.items ≡ self.old.live.items }
        ensures tried { self.new.tried.items ≡ self.old.tried.items }
        ensures faults { self.new.faults ≡ self.old.faults }
        ensures started_room { OnOk result (vec_len self.new.started < vec_capacity self.new.started) }
        ensures live_room { OnOk result (vec_len self.new.live < vec_capacity self.new.live) }
        ensures tried_room { OnOk result (vec_len self.new.tried < vec_capacity self.new.tried) }
        ensures call { IfOk result (λ attempt. IsCall name.now command.now attempt.call) }
        ensures none { IfOk result (λ attempt. is_none attempt.begun ≡ is_foreign command.now) }
        ensures begun { IfOk result (λ attempt. IsFresh name.now command.now attempt.begun) }
    {
        make_room(&mut self.tried, &mut self.live, &mut self.started)?;
        Ok(Attempt {
            call: copy_call(self.alloc, name, command)?,
            begun: begin(self.alloc, name, command)?,
        })
    }

    // Whether a start that begins this child is to fail.
    fn refuses(&self, begun: &Option<LocalChild>) -> bool
        ensures { result ≡ refuses_begun self.now.failing self.now.calls self.now.started.items begun.now }
    {
        let number = self.calls.saturating_add(1);
        self.failing.contains(&number)
            || (self.started.len() >= u32::MAX as usize || begun.is_none())
    }

    // Counts a start that fails.
    fn refuse(&mut self, attempt: Attempt)
        requires room { vec_len self.old.tried < vec_capacity self.old.tried }
        ensures failing { self.new.failing ≡ self.old.failing }
        ensures calls { self.new.calls ≡ min (self.old.calls + 1) (2 ^ 32 - 1) }
        ensures started { self.new.started ≡ self.old.started }
        ensures live { self.new.live ≡ self.old.live }
        ensures tried { self.new.tried.items ≡ self.old.tried.items ++ attempt.call ∷ [] }
        ensures later { self.old.faults ≤ self.new.faults }
        ensures rose { Rose self.old.faults self.new.faults }
    {
        let Attempt { call, begun } = attempt;
        drop(begun);
        self.calls = self.calls.saturating_add(1);
        self.tried.push(call).unwrap();
        self.faults = self.faults.saturating_add(1);
    }

    // Adds a child that was just started, and gives its number.
    fn accept(&mut self, attempt: Attempt) -> u32
        requires few { length self.old.started.items < 2 ^ 32 - 1 }
        requires some { is_none attempt.begun ≡ false }
        requires started_room { vec_len self.old.started < vec_capacity self.old.started }
        requires live_room { vec_len self.old.live < vec_capacity self.old.live }
        requires tried_room { vec_len self.old.tried < vec_capacity self.old.tried }
        ensures number { result ≡ length self.old.started.items }
        ensures failing { self.new.failing ≡ self.old.failing }
        ensures calls { self.new.calls ≡ min (self.old.calls + 1) (2 ^ 32 - 1) }
        ensures started { IsPut attempt.begun self.old.started.items self.new.started.items }
        ensures live { self.new.live.items ≡ self.old.live.items ++ result ∷ [] }
        ensures tried { self.new.tried.items ≡ self.old.tried.items ++ attempt.call ∷ [] }
        ensures faults { self.new.faults ≡ self.old.faults }
    {
        let Attempt { call, begun } = attempt;
        let number = self.started.len() as u32;
        self.calls = self.calls.saturating_add(1);
        match begun {
            Some(child) => self.started.push(child).unwrap(),
            None => unreachable!(),
        }
        self.tried.push(call).unwrap();
        self.live.push(number).unwrap();
        number
    }
}

impl Children for LocalChildren {
    ghost use Rattle.std.specs.Prelude.{true, Some, length, slice_get};
    ghost use Rattle.memory_children.specs.Kept.{plan_of, refuses_start, state_of, sound_known};

    ghost tells = { true };

    ghost faults = { λ c. c.faults };

    ghost state = { λ c. state_of c.started.items c.live.items c.tried.items };

    ghost refusals = { λ c. Some (refuses_start (plan_of c.failing c.calls) (length c.started.items)) };

    ghost sound = { λ c told k. sound_known (slice_get c.started.items k) };

    fn start(&mut self, name: &str, command: &[String]) -> Result<u32, Fault> {
        let attempt = self.prepare(name, command)?;
        if self.refuses(&attempt.begun) {
            self.refuse(attempt);
            return Err(Fault::Failed);
        }
        Ok(self.accept(attempt))
    }

    fn send(&mut self, child: u32, frame: &[u8]) -> Result<(), Fault> {
        match self.started[child as usize].send(self.alloc, frame) {
            Ok(()) => Ok(()),
            Err(NoMemory) => Err(Fault::Memory),
        }
    }

    fn receive(&mut self, child: u32, room: &mut [u8]) -> Result<usize, Fault> {
        Ok(self.started[child as usize].receive(room))
    }

    fn stop(&mut self, child: u32) {
        self.live.retain(|k| *k != child);
    }
}
