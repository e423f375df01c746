// A child over a source and a sink.
ghost use Rattle.std.specs.Prelude.{◌≡◌, ◌<◌, length, Ok};
ghost use Rattle.local_children.specs.Streams.{end_by};
ghost use Rattle.local_children.specs.Hearing.{stand_of};
ghost use Rattle.local_children.specs.Serving.{IsCaused, Serves, Reads, Sends, Speaks, served_by};
ghost use Rattle.local_children.specs.declared.serving.ServeFault.TheVariants as faults;

use crate::conversation::Conversation;
use crate::hearing::Stands;
use apt_base::NoMemory;
use apt_outside::{Fault, Sink, Source};
use frame_breaches::Breach;
use local_procs::Local;
use std::alloc::Global;

const ROOM: usize = 4096;

/// Why a child that is served doesn't end between frames.
#[derive(Clone, Copy, Debug, PartialEq, Eq)]
pub enum ServeFault {
    /// The source failed, and counted it.
    SourceFault,
    /// The sink failed, and counted it.
    SinkFault,
    /// The host left the protocol: its bytes end where more are wanted, one of them is bad, or a frame may not come where
    /// it stands.
    Breach(Breach),
    /// Out of memory.
    Memory,
}

impl From<NoMemory> for ServeFault {
    ghost from_gives = { λ _ fault. fault ≡ faults.Memory };

    fn from(_: NoMemory) -> ServeFault {
        ServeFault::Memory
    }
}

// Takes bytes of the host into the front of the room.
fn read_piece<R: Source>(input: &mut R, room: &mut [u8]) -> Result<usize, ServeFault>
    requires room { 0 < length room.old }
    ensures source { IsCaused faults.SourceFault (R.faults input.old) (R.faults input.new) result }
    ensures reads { Reads R.Source input.old input.new room.new result }
{
    match input.read(room) {
        Ok(got) => Ok(got),
        Err(Fault::Failed) => Err(ServeFault::SourceFault),
        Err(Fault::Memory) => Err(ServeFault::Memory),
    }
}

// Writes bytes, if there are any.
fn send<W: Sink>(bytes: &[u8], output: &mut W) -> Result<(), ServeFault>
    ensures sink { IsCaused faults.SinkFault (W.faults output.old) (W.faults output.new) result }
    ensures sends { Sends W.Sink bytes.now output.old output.new result }
{
    if bytes.is_empty() {
        return Ok(());
    }
    match output.write_all(bytes) {
        Ok(()) => Ok(()),
        Err(Fault::Failed) => Err(ServeFault::SinkFault),
        Err(Fault::Memory) => Err(ServeFault::Memory),
    }
}

// Writes what the child says to the next bytes of its host.
fn answer_piece<W: Sink>(
    alloc: Global,
    conversation: Conversation,
    bytes: &[u8],
    output: &mut W,
) -> Result<Stands, ServeFault>
    ensures sink { IsCaused faults.SinkFault (W.faults output.old) (W.faults output.new) result }
    ensures speaks { Speaks W.Sink (stand_of conversation) bytes.now output.old output.new result }
{
    let heard = conversation.hear(alloc, bytes)?;
    match send(&heard.said, output) {
        Ok(()) => Ok(heard.stands),
        Err(fault) => {
            drop(heard);
            Err(fault)
        }
    }
}

// How the call ends where no more bytes will come.
fn ended(conversation: &Conversation) -> Result<(), ServeFault>
    ensures { result ≡ served_by (end_by (Ok (stand_of conversation.now).1)) }
{
    match conversation.ending() {
        Ok(()) => Ok(()),
        Err(breach) => Err(ServeFault::Breach(breach)),
    }
}

/// Is a child with one of the processors to a host that writes to `input` and reads `output`: reads the frames of the
/// host and writes the answer to each before it reads on, up to the end of the input. `Ok` comes at the end of the input
/// between frames, behind Init.
///
/// `Breach` is how the host leaves the protocol: `Ended` where the input ends before Init or within a frame, with the
/// number of bytes of that frame; `Bad` at the first bad byte; `Wrong` where a whole frame may not come. Nothing is read
/// behind the frame in which it does. `SourceFault` and `SinkFault` come only where that object failed and counted it. The
/// bytes that are written are what the child says for those that were read, and after `SinkFault` and `Memory` a front of
/// that.
pub fn serve<R: Source, W: Sink>(
    alloc: Global,
    local: Local,
    input: &mut R,
    output: &mut W,
) -> Result<(), ServeFault>
    ensures source { IsCaused faults.SourceFault (R.faults input.old) (R.faults input.new) result }
    ensures sink { IsCaused faults.SinkFault (W.faults output.old) (W.faults output.new) result }
    ensures serves { Serves R.Source W.Sink local input.old input.new output.old output.new result }
{
    let mut conversation = Conversation::new(alloc, local);
    let mut room = [0u8; ROOM];
    loop {
        let wanted = conversation.wanted().min(ROOM);
        let piece = &mut room[..wanted];
        let got = read_piece(input, piece)?;
        if got == 0 {
            return ended(&conversation);
        }
        let stands = answer_piece(alloc, conversation, &piece[..got], output)?;
        match stands {
            Stands::Open(next) => conversation = next,
            Stands::Over(breach) => return Err(ServeFault::Breach(breach)),
        }
    }
}
