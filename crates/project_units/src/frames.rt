// The frames that a child is shown.
ghost use Rattle.std.specs.Prelude.{◌≡◌, not, IfOk};
ghost use Rattle.wire_frames.specs.Frames.{spelling};
ghost use Rattle.wire_frames.specs.Limits.{is_too_large};
ghost use Rattle.project_units.specs.Plans.{init_of, init_frame, plan_of, init_fits, inits_fit};

use apt_base::{List, Name, NoMemory};
use record_forms::Key;
use std::alloc::Global;
use wire_frames::{Frame, FrameFault, Init, copy_options, encode};

// A frame's bytes. A frame past the limit of a frame is answered as out of memory.
fn bytes_of(alloc: Global, frame: &Frame) -> Result<List<u8>, NoMemory>
    ensures { IfOk result (λ bytes. bytes ≡ spelling frame.now) }
{
    match encode(alloc, frame) {
        Ok(bytes) => Ok(bytes),
        Err(_) => Err(NoMemory),
    }
}

// The host's first frame to the processor with this name.
fn init_of(alloc: Global, key: &Key, name: &Name) -> Result<Frame, NoMemory>
    ensures { IfOk result (λ frame. frame ≡ init_of (plan_of key.now) name.now) }
{
    let init = Init {
        name: name.copy()?,
        level: key.level,
        options: copy_options(alloc, key.options.as_slice())?,
    };
    Ok(Frame::Init(init))
}

/// The bytes of the host's first frame to the processor with this name.
pub fn init_bytes(alloc: Global, key: &Key, name: &Name) -> Result<List<u8>, NoMemory>
    ensures { IfOk result (λ bytes. bytes ≡ init_frame (plan_of key.now) name.now) }
{
    let frame = init_of(alloc, key, name)?;
    let bytes = bytes_of(alloc, &frame);
    drop(frame);
    bytes
}

// Whether a frame is within the limits of one. It is spelled to be measured.
fn is_sent(alloc: Global, frame: &Frame) -> Result<bool, NoMemory>
    ensures { IfOk result (λ sent. sent ≡ not (is_too_large frame.now)) }
{
    match encode(alloc, frame) {
        Ok(_) => Ok(true),
        Err(FrameFault::TooLarge) => Ok(false),
        Err(FrameFault::Memory) => Err(NoMemory),
    }
}

// Whether the host's first frame to the processor with this name is within the limit.
fn init_fits(alloc: Global, key: &Key, name: &Name) -> Result<bool, NoMemory>
    ensures { IfOk result (λ fits. fits ≡ init_fits (plan_of key.now) name.now) }
{
    let frame = init_of(alloc, key, name)?;
    let sent = is_sent(alloc, &frame);
    drop(frame);
    sent
}

/// Whether the first frame to each processor of the key has at most 134,217,728 bytes, its length included.
pub fn inits_fit(alloc: Global, key: &Key) -> Result<bool, NoMemory>
    ensures { IfOk result (λ fit. fit ≡ inits_fit (plan_of key.now)) }
{
    for processor in key.processors.as_slice() {
        let fits = init_fits(alloc, key, &processor.name)?;
        if !fits {
            return Ok(false);
        }
    }
    Ok(true)
}
