// A child in memory.
ghost use Rattle.std.specs.Prelude.{◌≡◌, ◌<◌, ◌++◌, ◌∷◌, [], IfOk, IfSome, OnOk, OnErr, length, is_none};
ghost use Rattle.memory_children.specs.Kept.{joined, shown_frames, is_foreign, IsFresh, StandsAt, Takes, Gives, HearsBehind, HearsMore, HasRoom};

use crate::call::{Call, copy_call, push_frame};
use apt_base::NoMemory;
use local_children::conversation::Conversation;
use local_children::hearing::{Heard, Stands};
use local_children::local_in;
use local_procs::Local;
use std::alloc::{AllocError, Global};
use std::marker::Model;
use std::mem;

/// A child that was started. Contracts see how it was started, the frames that it was sent, and how many bytes of what
/// it says were taken.
#[derive(Drop)]
pub struct LocalChild {
    call: Call,
    local: Local,
    sent: Vec<Vec<u8>>,
    // These frames, joined.
    bytes: Vec<u8>,
    // All that it has said.
    said: Vec<u8>,
    taken: usize,
    // Where it is. Unknown where memory ran out on the way: then it is found anew from what it was sent.
    stands: Option<Stands>,
}

impl Model for LocalChild {
    ghost use Rattle.memory_children.specs.Kept.{Kept, Keeps, shown_call, shown_frames, shown_child};

    ghost Value = { Kept };

    ghost view = { λ a. shown_child a.call a.sent.items a.taken };

    ghost invariant = { λ a. Keeps a.local (shown_call a.call).1 (shown_frames a.sent.items) a.bytes.items a.said.items a.taken a.stands };
}

// Where a session is behind these bytes, of which that may be known.
fn recalled(
    alloc: Global,
    local: Local,
    known: Option<Stands>,
    bytes: &[u8],
) -> Result<Stands, NoMemory>
    requires { IfSome known (StandsAt local bytes.now) }
    ensures { IfOk result (StandsAt local bytes.now) }
{
    match known {
        Some(stands) => Ok(stands),
        None => {
            let heard = Conversation::new(alloc, local).hear(alloc, bytes)?;
            let Heard { said, stands } = heard;
            drop(said);
            Ok(stands)
        }
    }
}

// What is said to a frame behind these bytes.
fn heard_behind(alloc: Global, stands: Stands, frame: &[u8]) -> Result<Heard, NoMemory>
    ensures { IfOk result (λ heard. HearsBehind stands frame.now heard) }
{
    match stands {
        Stands::Open(open) => open.hear(alloc, frame),
        Stands::Over(breach) => Ok(Heard {
            said: Vec::new(alloc),
            stands: Stands::Over(breach),
        }),
    }
}

// What is said to a frame behind these bytes, of which it may be known where the session is.
fn hear_more(
    alloc: Global,
    local: Local,
    known: Option<Stands>,
    bytes: &[u8],
    frame: &[u8],
) -> Result<Heard, NoMemory>
    requires { IfSome known (StandsAt local bytes.now) }
    ensures { IfOk result (HearsMore local bytes.now frame.now) }
{
    let before = recalled(alloc, local, known, bytes)?;
    heard_behind(alloc, before, frame)
}

// Makes room for a frame more, and for what a child then says.
fn make_room(
    bytes: &mut Vec<u8>,
    said: &mut Vec<u8>,
    frame: &[u8],
    more: &[u8],
) -> Result<(), AllocError>
    ensures bytes { bytes.new.items ≡ bytes.old.items }
    ensures said { said.new.items ≡ said.old.items }
    ensures frame { OnOk result (HasRoom bytes.new frame.now) }
    ensures more { OnOk result (HasRoom said.new more.now) }
{
    bytes.reserve(frame.len())?;
    said.reserve(more.len())
}

// Puts a frame, and what a child then says, behind the others. It fails only when memory runs out, and all is then as
// it was.
fn put(
    alloc: Global,
    sent: &mut Vec<Vec<u8>>,
    bytes: &mut Vec<u8>,
    said: &mut Vec<u8>,
    frame: &[u8],
    more: &[u8],
) -> Result<(), AllocError>
    ensures sent { OnOk result (shown_frames sent.new.items ≡ shown_frames sent.old.items ++ frame.now ∷ []) }
    ensures bytes { OnOk result (bytes.new.items ≡ bytes.old.items ++ frame.now) }
    ensures said { OnOk result (said.new.items ≡ said.old.items ++ more.now) }
    ensures same_sent { OnErr result (sent.new.items ≡ sent.old.items) }
    ensures same_bytes { OnErr result (bytes.new.items ≡ bytes.old.items) }
    ensures same_said { OnErr result (said.new.items ≡ said.old.items) }
{
    make_room(bytes, said, frame, more)?;
    push_frame(alloc, sent, frame)?;
    bytes.extend_from_slice(frame).unwrap();
    said.extend_from_slice(more).unwrap();
    Ok(())
}

/// A child that a call starts, and none where its command is not local. It fails only when memory runs out.
pub fn begin(
    alloc: Global,
    name: &str,
    command: &[String],
) -> Result<Option<LocalChild>, AllocError>
    ensures none { IfOk result (λ begun. is_none begun ≡ is_foreign command.now) }
    ensures begun { IfOk result (IsFresh name.now command.now) }
{
    let Some(local) = local_in(command) else {
        return Ok(None);
    };
    Ok(Some(LocalChild {
        call: copy_call(alloc, name, command)?,
        local,
        sent: Vec::new(alloc),
        bytes: Vec::new(alloc),
        said: Vec::new(alloc),
        taken: 0,
        stands: None,
    }))
}

impl LocalChild {
    /// All bytes that it was sent.
    pub fn sent(&self) -> &[u8]
        ensures { result.now ≡ joined self.now.sent }
    {
        &self.bytes
    }

    /// Sends it a frame. It fails only when memory runs out, and is then as it was.
    pub fn send(&mut self, alloc: Global, frame: &[u8]) -> Result<(), NoMemory>
        ensures ok { OnOk result (Takes frame.now self.old self.new) }
        ensures err { OnErr result (self.new ≡ self.old) }
    {
        let known = mem::replace(&mut self.stands, None);
        let Heard { said, stands } = hear_more(alloc, self.local, known, &self.bytes, frame)?;
        let stored = put(
            alloc,
            &mut self.sent,
            &mut self.bytes,
            &mut self.said,
            frame,
            &said,
        );
        drop(said);
        match stored {
            Ok(()) => {
                drop(mem::replace(&mut self.stands, Some(stands)));
                Ok(())
            }
            Err(_) => {
                drop(stands);
                Err(NoMemory)
            }
        }
    }

    /// Gives the first of the bytes that wait.
    pub fn receive(&mut self, room: &mut [u8]) -> usize
        requires room { 0 < length room.old }
        ensures { Gives room.new result self.old self.new }
    {
        let count = room.len().min(self.said.len() - self.taken);
        let from = self.taken;
        room[..count].copy_from_slice(&self.said[from..from + count]);
        self.taken += count;
        count
    }
}
