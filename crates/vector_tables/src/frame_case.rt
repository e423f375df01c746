// A case of frames: bytes, and what they are to be.
ghost use Rattle.std.specs.Prelude.{◌≡◌, IfOk};
ghost use Rattle.std.specs.List.{All};
ghost use Rattle.vector_tables.specs.Cases.{Tells};
ghost use Rattle.vector_tables.specs.FrameCases.{IsFramePassed};

use crate::verdict::{Verdict, verdict_on};
use std::alloc::{AllocError, Global};

/// Bytes, and what they are to be.
#[derive(Clone, Copy)]
pub struct FrameCase<'a> {
    /// What the case is called.
    pub name: &'a str,
    /// The bytes that a new reader is fed, one at a time.
    pub bytes: &'a [u8],
    /// What they are to be.
    pub expected: Verdict,
}

// The two are the same.
fn is_same(verdict: Verdict, expected: Verdict) -> bool
    ensures { Tells result (verdict ≡ expected) }
{
    verdict == expected
}

/// A case passes exactly where its bytes are what is expected. The one error is out of memory.
pub fn frame_passes(alloc: Global, case: &FrameCase<'_>) -> Result<bool, AllocError>
    ensures { IfOk result (λ passed. Tells passed (IsFramePassed case.now)) }
{
    match verdict_on(alloc, case.bytes) {
        Ok(Some(verdict)) => Ok(is_same(verdict, case.expected)),
        Ok(None) => Ok(false),
        Err(fault) => Err(fault),
    }
}

/// These cases pass exactly where each of them does. The one error is out of memory.
pub fn all_frames_pass(alloc: Global, cases: &[FrameCase<'_>]) -> Result<bool, AllocError>
    ensures { IfOk result (λ passed. Tells passed (All IsFramePassed cases.now)) }
{
    for case in cases {
        if !frame_passes(alloc, case)? {
            return Ok(false);
        }
    }
    Ok(true)
}
