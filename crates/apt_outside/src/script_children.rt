// Children that follow scripts.
ghost use Rattle.std.specs.Prelude.{◌≡◌, ◌<◌, OnOk, vec_len, vec_capacity};
ghost use Rattle.apt_outside.specs.Scripted.{refuses_start, TakesSaid, EachJoined, LiveStarted};

use crate::script::{Attempt, Call, Script, Started};
use crate::scripting::{add_frame, attempt, find_script, give};
use crate::{Children, Fault};
use std::alloc::{AllocError, Global};

/// Children in memory that say what scripts give, and tell all of it. They are numbered from 0 in the order of the starts that
/// succeeded. A start of a name without a script fails, and so does one after 4,294,967,295 that succeeded; no other call does.
/// Where two scripts have one name the first counts.
#[derive(Drop)]
pub struct ScriptChildren {
    /// Where its room comes from.
    pub alloc: Global,
    /// What the children of each name say.
    pub scripts: Vec<Script>,
    /// The children that were started, by number.
    pub started: Vec<Started>,
    /// The numbers of those that were not stopped.
    pub live: Vec<u32>,
    /// The calls of `start` that answered Ok or Failed.
    pub tried: Vec<Call>,
    /// How many starts failed.
    pub faults: u64,
    ghost takes: { TakesSaid scripts.items started.items },
    ghost joins: { EachJoined scripts.items started.items },
    ghost lives: { LiveStarted live.items started.items },
}

impl ScriptChildren {
    ghost use Rattle.std.specs.Prelude.{◌≡◌, ◌+◌, ◌-◌, ◌^◌, ◌<◌, ◌≤◌, ◌++◌, ◌∷◌, [], length, IfOk, OnOk, option_copied, vec_len, vec_capacity};
    ghost use Rattle.apt_outside.specs.Count.{Rose};
    ghost use Rattle.apt_outside.specs.Scripted.{sent_bytes, IsCall, IsJoined};

    /// Children of these scripts, none of which was started.
    pub fn new(alloc: Global, scripts: Vec<Script>) -> Self
        ensures scripts { result.scripts ≡ scripts }
        ensures started { result.started.items ≡ [] }
        ensures live { result.live.items ≡ [] }
        ensures tried { result.tried.items ≡ [] }
        ensures faults { result.faults ≡ 0 }
    {
        ScriptChildren {
            alloc,
            scripts,
            started: Vec::new(alloc),
            live: Vec::new(alloc),
            tried: Vec::new(alloc),
            faults: 0,
        }
    }

    /// All bytes that a child was sent, its frames joined in order, and None exactly where there is no such child.
    /// A child that was stopped still has them.
    pub fn sent(&self, child: u32) -> Option<&[u8]>
        ensures { option_copied result ≡ sent_bytes self.now.scripts.items self.now.started.items child }
    {
        match self.started.get(child as usize) {
            None => None,
            Some(started) => Some(&started.joined),
        }
    }

    // Makes room for one start more, and begins its child.
    fn prepare(&mut self, name: &str, command: &[String]) -> Result<Attempt, AllocError>
        ensures scripts { self.new.scripts ≡ self.old.scripts }
        ensures started { self.new.started.items ≡ self.old.started.items }
        ensures live { self.new.live.items ≡ self.old.live.items }
        ensures tried { self.new.tried.items ≡ self.old.tried.items }
        ensures faults { self.new.faults ≡ self.old.faults }
        ensures started_room { OnOk result (vec_len self.new.started < vec_capacity self.new.started) }
        ensures live_room { OnOk result (vec_len self.new.live < vec_capacity self.new.live) }
        ensures tried_room { OnOk result (vec_len self.new.tried < vec_capacity self.new.tried) }
        ensures call { IfOk result (λ attempt. IsCall name.now command.now attempt.call) }
        ensures begun { IfOk result (λ attempt. IsCall name.now command.now attempt.begun.call) }
        ensures sent { IfOk result (λ attempt. attempt.begun.sent.items ≡ []) }
        ensures taken { IfOk result (λ attempt. attempt.begun.taken ≡ 0) }
        ensures joined { IfOk result (λ attempt. IsJoined self.old.scripts.items attempt.begun) }
    {
        make_room(&mut self.tried, &mut self.live, &mut self.started)?;
        attempt(self.alloc, &self.scripts, name, command)
    }

    // Whether a start of this name is to fail.
    fn refuses(&self, name: &str) -> bool
        ensures { result ≡ refuses_start self.now.scripts.items self.now.started.items (name.now, []) }
    {
        self.started.len() >= u32::MAX as usize || find_script(&self.scripts, name).is_none()
    }

    // Counts a start that fails.
    fn refuse(&mut self, attempt: Attempt)
        requires room { vec_len self.old.tried < vec_capacity self.old.tried }
        ensures scripts { self.new.scripts ≡ self.old.scripts }
        ensures started { self.new.started ≡ self.old.started }
        ensures live { self.new.live ≡ self.old.live }
        ensures tried { self.new.tried.items ≡ self.old.tried.items ++ attempt.call ∷ [] }
        ensures later { self.old.faults ≤ self.new.faults }
        ensures rose { Rose self.old.faults self.new.faults }
    {
        self.tried.push(attempt.call).unwrap();
        self.faults = self.faults.saturating_add(1);
    }

    // Adds a child that was just started, and gives its number.
    fn accept(&mut self, attempt: Attempt) -> u32
        requires few { length self.old.started.items < 2 ^ 32 - 1 }
        requires started_room { vec_len self.old.started < vec_capacity self.old.started }
        requires live_room { vec_len self.old.live < vec_capacity self.old.live }
        requires tried_room { vec_len self.old.tried < vec_capacity self.old.tried }
        requires taken { attempt.begun.taken ≡ 0 }
        requires joined { IsJoined self.old.scripts.items attempt.begun }
        ensures number { result ≡ length self.old.started.items }
        ensures scripts { self.new.scripts ≡ self.old.scripts }
        ensures started { self.new.started.items ≡ self.old.started.items ++ attempt.begun ∷ [] }
        ensures live { self.new.live.items ≡ self.old.live.items ++ result ∷ [] }
        ensures tried { self.new.tried.items ≡ self.old.tried.items ++ attempt.call ∷ [] }
        ensures faults { self.new.faults ≡ self.old.faults }
    {
        let number = self.started.len() as u32;
        self.tried.push(attempt.call).unwrap();
        self.started.push(attempt.begun).unwrap();
        self.live.push(number).unwrap();
        number
    }
}

// Makes room for one start more.
fn make_room(
    tried: &mut Vec<Call>,
    live: &mut Vec<u32>,
    started: &mut Vec<Started>,
) -> Result<(), AllocError>
    ensures tried { tried.new.items ≡ tried.old.items }
    ensures live { live.new.items ≡ live.old.items }
    ensures started { started.new.items ≡ started.old.items }
    ensures tried_room { OnOk result (vec_len tried.new < vec_capacity tried.new) }
    ensures live_room { OnOk result (vec_len live.new < vec_capacity live.new) }
    ensures started_room { OnOk result (vec_len started.new < vec_capacity started.new) }
{
    tried.reserve(1)?;
    live.reserve(1)?;
    started.reserve(1)
}

impl Children for ScriptChildren {
    ghost use Rattle.std.specs.Prelude.{true, Some, slice_get};
    ghost use Rattle.apt_outside.specs.Scripted.{state_of, sound_known};

    ghost tells = { true };

    ghost faults = { λ c. c.faults };

    ghost state = { λ c. state_of c.scripts.items c.started.items c.live.items c.tried.items };

    ghost refusals = { λ c. Some (refuses_start c.scripts.items c.started.items) };

    ghost sound = { λ c told k. sound_known c.scripts.items (slice_get c.started.items k) };

    fn start(&mut self, name: &str, command: &[String]) -> Result<u32, Fault> {
        let attempt = self.prepare(name, command)?;
        if self.refuses(name) {
            self.refuse(attempt);
            return Err(Fault::Failed);
        }
        Ok(self.accept(attempt))
    }

    fn send(&mut self, child: u32, frame: &[u8]) -> Result<(), Fault> {
        Ok(add_frame(
            self.alloc,
            &self.scripts,
            &mut self.started[child as usize],
            frame,
        )?)
    }

    fn receive(&mut self, child: u32, room: &mut [u8]) -> Result<usize, Fault> {
        Ok(give(&mut self.started[child as usize], room))
    }

    fn stop(&mut self, child: u32) {
        self.live.retain(|k| *k != child);
    }
}
