// Takes bytes and frames from a child.
ghost use Rattle.std.specs.Prelude.{◌≡◌, ◌<◌, ◌≤◌, ◌++◌, length, Contains, IfOk};
ghost use Rattle.apt_outside.specs.Count.{HasCause, Told};
ghost use Rattle.apt_outside.specs.Child.{Attends};
ghost use Rattle.frame_reader.specs.Stages.{found_in, wanted_in};
ghost use Rattle.frame_reader.specs.declared.found.Found.TheVariants as founds;
ghost use Rattle.child_session.specs.Talk.{TakesFront, Reaches, IsLonger, LeadsTo, TakesFrame, Exchanges, SendsOnce, StaysAtMemory};
ghost use Rattle.child_session.specs.Moments.{Gives, Answers};

use apt_base::NoMemory;
use apt_outside::{Children, Fault};
use frame_breaches::Breach;
use frame_stream::{ReadFault, Reader};
use std::alloc::Global;
use wire_frames::Frame;

const ROOM: usize = 4096;

/// What the bytes of a frame that came up to now lead to.
#[derive(Drop)]
pub enum Progress {
    /// They are the beginning of a frame.
    Begun,
    /// They are this frame, or they leave the protocol: one of them is bad, or no more will come.
    Over(Result<Frame, Breach>),
}

/// Feeds a reader the front of some bytes, and gives what the last one that it takes is answered.
fn feed_front(reader: &mut Reader, bytes: &[u8]) -> Result<Option<Frame>, ReadFault>
    ensures { TakesFront result bytes.now reader.old reader.new }
{
    let progress = reader.feed_slice(bytes);
    progress.answer
}

/// Feeds a reader bytes that come next of a frame.
fn feed_all(reader: &mut Reader, bytes: &[u8]) -> Result<Progress, NoMemory>
    requires begun { found_in reader.old ≡ founds.Begun }
    requires next { length bytes.now ≤ wanted_in reader.old }
    ensures { IfOk result (λ progress. LeadsTo progress (reader.old ++ bytes.now) reader.new) }
{
    match feed_front(reader, bytes) {
        Ok(None) => Ok(Progress::Begun),
        Ok(Some(frame)) => Ok(Progress::Over(Ok(frame))),
        Err(ReadFault::Bad { place, kind }) => Ok(Progress::Over(Err(Breach::Bad { place, kind }))),
        Err(ReadFault::Memory) => Err(NoMemory),
    }
}

/// Takes waiting bytes of the child, at most those that complete the frame, and feeds them to the reader. The buffer
/// `room` is not longer than that.
fn receive_more<C: Children>(
    children: &mut C,
    child: u32,
    room: &mut [u8],
    reader: &mut Reader,
) -> Result<Progress, Fault>
    requires lives { Contains (C.state children.old).live child }
    requires room { 0 < length room.old }
    requires begun { found_in reader.old ≡ founds.Begun }
    requires next { length room.old ≤ wanted_in reader.old }
    ensures cause { HasCause (C.faults children.old) (C.faults children.new) result }
    ensures starts { (C.state children.new).starts ≡ (C.state children.old).starts }
    ensures live { (C.state children.new).live ≡ (C.state children.old).live }
    ensures attends { Told C.tells (Attends child (C.state children.old) (C.state children.new)) }
    ensures memory { Answers C.Children children.old children.new result (StaysAtMemory child) }
    ensures longer { IfOk result (IsLonger reader.old reader.new) }
    ensures taken { Gives C.Children children.old children.new result (Reaches child reader.old reader.new) }
{
    let got = children.receive(child, room)?;
    if got == 0 {
        let got = reader.waiting();
        return Ok(Progress::Over(Err(Breach::Ended { got })));
    }
    match feed_all(reader, &room[..got]) {
        Ok(progress) => Ok(progress),
        Err(NoMemory) => Err(Fault::Memory),
    }
}

/// The next frame of a child, by the table of all frames, or its first bad byte, or how many bytes came where it ends
/// before the frame is whole. No byte behind a frame is taken.
fn read_frame<C: Children>(
    alloc: Global,
    children: &mut C,
    child: u32,
) -> Result<Result<Frame, Breach>, Fault>
    requires lives { Contains (C.state children.old).live child }
    ensures cause { HasCause (C.faults children.old) (C.faults children.new) result }
    ensures starts { (C.state children.new).starts ≡ (C.state children.old).starts }
    ensures live { (C.state children.new).live ≡ (C.state children.old).live }
    ensures attends { Told C.tells (Attends child (C.state children.old) (C.state children.new)) }
    ensures memory { Answers C.Children children.old children.new result (StaysAtMemory child) }
    ensures taken { Gives C.Children children.old children.new result (TakesFrame child) }
{
    let mut room = [0u8; ROOM];
    let mut reader = Reader::new(alloc);
    loop {
        let wanted = reader.wanted().min(ROOM);
        match receive_more(children, child, &mut room[..wanted], &mut reader)? {
            Progress::Begun => {}
            Progress::Over(found) => return Ok(found),
        }
    }
}

/// Sends a frame to a child, and gives its answer: the next frame, or its first bad byte, or how many bytes came
/// where it ends before the frame is whole.
///
/// After `Memory` it was sent the frame or nothing.
pub fn exchange<C: Children>(
    alloc: Global,
    children: &mut C,
    child: u32,
    frame: &[u8],
) -> Result<Result<Frame, Breach>, Fault>
    requires lives { Contains (C.state children.old).live child }
    ensures cause { HasCause (C.faults children.old) (C.faults children.new) result }
    ensures starts { (C.state children.new).starts ≡ (C.state children.old).starts }
    ensures live { (C.state children.new).live ≡ (C.state children.old).live }
    ensures attends { Told C.tells (Attends child (C.state children.old) (C.state children.new)) }
    ensures sent { Answers C.Children children.old children.new result (SendsOnce child frame.now) }
    ensures answer { Gives C.Children children.old children.new result (Exchanges child frame.now) }
{
    children.send(child, frame)?;
    read_frame(alloc, children, child)
}
