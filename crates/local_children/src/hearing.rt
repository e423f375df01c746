// What a child says to the bytes of its host, in whatever pieces these come.
ghost use Rattle.std.specs.Prelude.{◌≡◌, ◌<◌, ◌≤◌, ◌++◌, [], false, Ok, length, IfOk, IsOkAnd, OnOk};
ghost use Rattle.wire_frames.specs.Frames.{spelling};
ghost use Rattle.wire_frames.specs.Limits.{is_too_large};
ghost use Rattle.frame_reader.specs.Stages.{wanted_in};
ghost use Rattle.local_procs.specs.Says.{Unbegun};
ghost use Rattle.local_children.specs.Streams.{end_by};
ghost use Rattle.local_children.specs.Hearing.{Answers, HasBegun, StandsBy, HearsFront, HearsAll, stand_of};

use crate::conversation::Conversation;
use apt_base::NoMemory;
use frame_breaches::Breach;
use frame_stream::{ReadFault, Reader};
use local_procs::{Child, Local};
use std::alloc::Global;
use wire_frames::{Frame, FrameFault, encode};

/// Where a session is behind some bytes.
#[derive(Drop)]
pub enum Stands {
    /// The child goes on.
    Open(Conversation),
    /// The host has left the protocol.
    Over(Breach),
}

/// What a child says to some bytes, and where the session is then.
#[derive(Drop)]
pub struct Heard {
    pub said: Vec<u8>,
    pub stands: Stands,
}

// Writes a frame behind others.
fn append(alloc: Global, frame: &Frame, said: &mut Vec<u8>) -> Result<(), NoMemory>
    requires fits { is_too_large frame.now ≡ false }
    ensures { OnOk result (said.new.items ≡ said.old.items ++ spelling frame.now) }
{
    match encode(alloc, frame) {
        Ok(bytes) => {
            said.extend_from_slice(bytes.as_slice())?;
            Ok(())
        }
        Err(FrameFault::TooLarge) => unreachable!(),
        Err(FrameFault::Memory) => Err(NoMemory),
    }
}

// A value that is let go where memory ran out before.
fn kept<T: Drop>(done: Result<(), NoMemory>, value: T) -> Result<T, NoMemory>
    ensures value { IfOk result (λ kept. kept ≡ value) }
    ensures done { OnOk result (done ≡ Ok tt) }
{
    match done {
        Ok(()) => Ok(value),
        Err(fault) => {
            drop(value);
            Err(fault)
        }
    }
}

// Answers a frame, unless it may not come.
fn answer(
    alloc: Global,
    child: Child,
    frame: &Frame,
    said: &mut Vec<u8>,
) -> Result<Result<Child, Breach>, NoMemory>
    ensures { IfOk result (Answers child frame.now said.old.items said.new.items) }
{
    match child.answer(alloc, frame)? {
        Ok((answer, next)) => {
            let written = append(alloc, &answer, said);
            drop(answer);
            Ok(Ok(kept(written, next)?))
        }
        Err(breach) => Ok(Err(breach)),
    }
}

// Where the session is once a frame was answered, with a reader that has nothing of the next one.
fn stands_behind(
    reader: Reader,
    answered: Result<Result<Child, Breach>, NoMemory>,
) -> Result<Stands, NoMemory>
    requires begins { reader ≡ [] }
    requires counts { IfOk answered HasBegun }
    ensures { IfOk result (λ stands. IsOkAnd answered (StandsBy stands)) }
{
    match answered {
        Ok(Ok(child)) => Ok(Stands::Open(Conversation {
            child,
            reader,
            begun: true,
        })),
        Ok(Err(breach)) => {
            drop(reader);
            Ok(Stands::Over(breach))
        }
        Err(fault) => {
            drop(reader);
            Err(fault)
        }
    }
}

impl Conversation {
    /// A child to which nothing came yet. It takes no memory.
    pub fn new(alloc: Global, local: Local) -> Conversation
        ensures { stand_of result ≡ (local, (Unbegun, [])) }
    {
        Conversation {
            child: Child::new(local),
            reader: Reader::new(alloc),
            begun: false,
        }
    }

    /// How many bytes to read next, so that none behind the next frame is read.
    pub fn wanted(&self) -> usize
        ensures wanted { result ≡ wanted_in self.now.reader }
        ensures some { 0 < result }
    {
        self.reader.wanted()
    }

    /// How the session ends where no more bytes will come: between frames behind Init, or by the breach that says how many
    /// bytes of a frame there are.
    pub fn ending(&self) -> Result<(), Breach>
        ensures { result ≡ end_by (Ok (stand_of self.now).1) }
    {
        let got = self.reader.waiting();
        if self.begun && got == 0 {
            return Ok(());
        }
        Err(Breach::Ended { got })
    }

    // Hears the front of some bytes, up to the end of a frame, and gives how many these are.
    fn hear_front(
        self,
        alloc: Global,
        bytes: &[u8],
        said: &mut Vec<u8>,
    ) -> Result<(usize, Stands), NoMemory>
        requires some { 0 < length bytes.now }
        ensures some { IfOk result (λ front. 0 < front.0) }
        ensures within { IfOk result (λ front. front.0 ≤ length bytes.now) }
        ensures hears { IfOk result (HearsFront (stand_of self) said.old.items bytes.now said.new.items) }
    {
        let Conversation {
            child,
            mut reader,
            begun,
        } = self;
        let progress = reader.feed_slice(bytes);
        let taken = progress.taken;
        match progress.answer {
            Ok(None) => Ok((
                taken,
                Stands::Open(Conversation {
                    child,
                    reader,
                    begun,
                }),
            )),
            Ok(Some(frame)) => {
                let answered = answer(alloc, child, &frame, said);
                drop(frame);
                let stands = stands_behind(reader, answered)?;
                Ok((taken, stands))
            }
            Err(ReadFault::Bad { place, kind }) => {
                drop(child);
                drop(reader);
                Ok((taken, Stands::Over(Breach::Bad { place, kind })))
            }
            Err(ReadFault::Memory) => {
                drop(child);
                drop(reader);
                Err(NoMemory)
            }
        }
    }

    /// What the child says to the next bytes of its host: its answer to each frame that ends in them. Behind a breach it
    /// hears nothing. It fails only when memory runs out.
    pub fn hear(self, alloc: Global, bytes: &[u8]) -> Result<Heard, NoMemory>
        ensures { IfOk result (λ heard. HearsAll (stand_of self) bytes.now heard) }
    {
        let mut said = Vec::new(alloc);
        let mut stands = Stands::Open(self);
        let mut rest = bytes;
        while !rest.is_empty() {
            match stands {
                Stands::Open(open) => {
                    let (taken, next) = open.hear_front(alloc, rest, &mut said)?;
                    stands = next;
                    rest = &rest[taken..];
                }
                Stands::Over(breach) => {
                    return Ok(Heard {
                        said,
                        stands: Stands::Over(breach),
                    });
                }
            }
        }
        Ok(Heard { said, stands })
    }
}
