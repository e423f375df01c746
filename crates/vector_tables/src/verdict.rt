// What bytes of a stream are.
ghost use Rattle.std.specs.Prelude.{◌≤◌, ◌<◌, length, take, IfOk};
ghost use Rattle.wire_frames.specs.Frames.{AreBytesOf};
ghost use Rattle.vector_tables.specs.Cases.{Tells};
ghost use Rattle.vector_tables.specs.FrameCases.{AreJust, IsWritten};

use frame_forms::BadKind;
use frame_stream::{ReadFault, Reader};
use std::alloc::{AllocError, Global};
use wire_frames::{Frame, FrameFault, encode};

/// What bytes are, by the table of all frames.
#[derive(Clone, Copy, Debug, PartialEq, Eq)]
pub enum Verdict {
    /// One frame and no more, which is written as these bytes again.
    Whole,
    /// The beginning of a frame, with no bad byte.
    Begun,
    /// No frame, nor the beginning of one.
    Bad {
        /// The place of the first bad byte, from 0 at the first byte of the length.
        place: u32,
        /// What is wrong with it.
        kind: BadKind,
    },
}

/// What a new reader says of these bytes when it is fed them one at a time.
///
/// `None` comes exactly where bytes are behind a frame. The one error is out of memory.
pub fn verdict_on(alloc: Global, bytes: &[u8]) -> Result<Option<Verdict>, AllocError>
    ensures { IfOk result (λ verdict. AreJust bytes.now verdict) }
{
    let mut reader = Reader::new(alloc);
    for at in 0..bytes.len() {
        match reader.feed(bytes[at]) {
            Ok(None) => {}
            Ok(Some(frame)) => return frame_verdict(alloc, frame, bytes, at + 1),
            Err(ReadFault::Bad { place, kind }) => return Ok(Some(Verdict::Bad { place, kind })),
            Err(ReadFault::Memory) => return Err(AllocError),
        }
    }
    Ok(Some(Verdict::Begun))
}

// What bytes are, of which the first ones are this frame.
fn frame_verdict(
    alloc: Global,
    frame: Frame,
    bytes: &[u8],
    taken: usize,
) -> Result<Option<Verdict>, AllocError>
    requires within { taken ≤ length bytes.now }
    requires front { AreBytesOf (take taken bytes.now) frame }
    ensures { IfOk result (λ verdict. AreJust bytes.now verdict) }
{
    let written = is_written(alloc, &frame, bytes);
    drop(frame);
    if taken < bytes.len() {
        return Ok(None);
    }
    match written {
        Ok(true) => Ok(Some(Verdict::Whole)),
        Ok(false) => Ok(None),
        Err(fault) => Err(fault),
    }
}

// The frame is written as these bytes.
fn is_written(alloc: Global, frame: &Frame, bytes: &[u8]) -> Result<bool, AllocError>
    ensures { IfOk result (λ written. Tells written (IsWritten frame.now bytes.now)) }
{
    match encode(alloc, frame) {
        Ok(written) => Ok(written.as_slice() == bytes),
        Err(FrameFault::TooLarge) => Ok(false),
        Err(FrameFault::Memory) => Err(AllocError),
    }
}
