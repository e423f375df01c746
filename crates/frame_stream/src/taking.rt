// Takes one byte more of a stream.
ghost use Rattle.std.specs.Prelude.{◌≡◌, ◌≤◌, ◌-◌, [], Some, length, take, IfOk, OnOk, OnErr};
ghost use Rattle.wire_frames.specs.Frames.{AreBytesOf};
ghost use Rattle.frame_reader.specs.Stages.{found_in, fed, IsWholeFrame, wanted_in};
ghost use Rattle.frame_reader.specs.declared.found.Found.TheVariants as founds;
ghost use Rattle.frame_stream.specs.Streams.{frame_at, pending, Comes, ComesOf, most_bytes};

use crate::reader::{Progress, ReadFault};
use apt_base::NoMemory;
use frame_decoder::decode;
use frame_reader::{Found, FrameScanner};
use std::alloc::Global;
use wire_frames::Frame;

/// How many bytes a length has.
const LENGTH_BYTES: usize = 4;

// A scanner of these bytes.
fn scanner_of(alloc: Global, bytes: &[u8]) -> Result<FrameScanner, NoMemory>
    requires begun { found_in bytes.now ≡ founds.Begun }
    ensures { IfOk result (λ scanner. scanner ≡ bytes.now) }
{
    let mut scanner = FrameScanner::new(alloc);
    for byte in bytes {
        scanner.take(*byte)?;
    }
    Ok(scanner)
}

// A scanner of the bytes of a frame without the last one.
fn without_last(alloc: Global, bytes: &[u8]) -> Result<FrameScanner, NoMemory>
    requires whole { IsWholeFrame bytes.now }
    ensures { IfOk result (λ scanner. scanner ≡ take (length bytes.now - 1) bytes.now) }
{
    scanner_of(alloc, &bytes[..bytes.len().saturating_sub(1)])
}

// The frame that the bytes are.
fn frame_of(alloc: Global, bytes: &[u8]) -> Result<Frame, NoMemory>
    requires whole { IsWholeFrame bytes.now }
    ensures frame { IfOk result (λ frame. AreBytesOf bytes.now frame) }
    ensures stands { IfOk result (λ frame. frame_at bytes.now ≡ Some (frame, [])) }
{
    match decode(alloc, &bytes[LENGTH_BYTES..])? {
        Some(frame) => Ok(frame),
        None => unreachable!(),
    }
}

// Gives the whole frame and lets it go.
fn give(alloc: Global, scanner: &mut FrameScanner) -> Result<Frame, NoMemory>
    requires whole { IsWholeFrame scanner.old }
    ensures frame { IfOk result (λ frame. AreBytesOf scanner.old frame) }
    ensures stands { IfOk result (λ frame. frame_at scanner.old ≡ Some (frame, [])) }
    ensures ok { OnOk result (scanner.new ≡ []) }
    ensures err { OnErr result (scanner.new ≡ scanner.old) }
{
    let frame = frame_of(alloc, scanner.bytes())?;
    scanner.release();
    Ok(frame)
}

// Takes a byte behind the beginning of a frame.
fn take_next(
    alloc: Global,
    scanner: &mut FrameScanner,
    byte: u8,
) -> Result<Option<Frame>, ReadFault>
    requires begun { found_in scanner.old ≡ founds.Begun }
    ensures { Comes result scanner.old (fed scanner.old byte) (pending scanner.new) }
{
    match scanner.take(byte) {
        Ok(()) => {}
        Err(NoMemory) => return Err(ReadFault::Memory),
    }
    match scanner.found() {
        Found::Begun => Ok(None),
        Found::Bad { place, kind } => Err(ReadFault::Bad { place, kind }),
        Found::Whole => match give(alloc, scanner) {
            Ok(frame) => Ok(Some(frame)),
            Err(NoMemory) => Err(ReadFault::Memory),
        },
    }
}

/// Takes the next byte of a stream. A whole frame that stands was not given because memory ran out: it is taken anew, up to its last byte.
pub(crate) fn take_byte(
    alloc: Global,
    scanner: &mut FrameScanner,
    byte: u8,
) -> Result<Option<Frame>, ReadFault>
    ensures { Comes result (pending scanner.old) (fed (pending scanner.old) byte) (pending scanner.new) }
{
    match scanner.found() {
        Found::Bad { place, kind } => Err(ReadFault::Bad { place, kind }),
        Found::Begun => take_next(alloc, scanner, byte),
        Found::Whole => match without_last(alloc, scanner.bytes()) {
            Ok(front) => {
                *scanner = front;
                take_next(alloc, scanner, byte)
            }
            Err(NoMemory) => Err(ReadFault::Memory),
        },
    }
}

// Takes bytes behind the beginning of a frame.
fn take_front(alloc: Global, scanner: &mut FrameScanner, bytes: &[u8]) -> Progress
    requires begun { found_in scanner.old ≡ founds.Begun }
    ensures within { result.taken ≤ length bytes.now }
    ensures comes { ComesOf result.answer result.taken bytes.now scanner.old (pending scanner.new) }
{
    let taken = match scanner.feed(bytes) {
        Ok(taken) => taken,
        Err(interrupted) => {
            return Progress {
                taken: interrupted.taken,
                answer: Err(ReadFault::Memory),
            };
        }
    };
    match scanner.found() {
        Found::Begun => Progress {
            taken,
            answer: Ok(None),
        },
        Found::Bad { place, kind } => Progress {
            taken,
            answer: Err(ReadFault::Bad { place, kind }),
        },
        Found::Whole => match give(alloc, scanner) {
            Ok(frame) => Progress {
                taken,
                answer: Ok(Some(frame)),
            },
            Err(NoMemory) => Progress {
                taken: taken.saturating_sub(1),
                answer: Err(ReadFault::Memory),
            },
        },
    }
}

/// Takes bytes of a stream up to the first one that ends a frame or is bad. A whole frame that stands was not given because memory ran out: it is taken anew, up to its last byte.
pub(crate) fn take_slice(alloc: Global, scanner: &mut FrameScanner, bytes: &[u8]) -> Progress
    ensures within { result.taken ≤ length bytes.now }
    ensures comes { ComesOf result.answer result.taken bytes.now (pending scanner.old) (pending scanner.new) }
{
    match scanner.found() {
        Found::Bad { place, kind } => Progress {
            taken: 0,
            answer: Err(ReadFault::Bad { place, kind }),
        },
        Found::Begun => take_front(alloc, scanner, bytes),
        Found::Whole => {
            if bytes.is_empty() {
                return Progress {
                    taken: 0,
                    answer: Ok(None),
                };
            }
            match without_last(alloc, scanner.bytes()) {
                Ok(begun) => {
                    *scanner = begun;
                    take_front(alloc, scanner, bytes)
                }
                Err(NoMemory) => Progress {
                    taken: 0,
                    answer: Err(ReadFault::Memory),
                },
            }
        }
    }
}

/// How many bytes were taken of the frame that is begun.
pub(crate) fn waiting_in(scanner: &FrameScanner) -> u32
    requires short { length (pending scanner.now) ≤ most_bytes }
    ensures { result ≡ length (pending scanner.now) }
{
    match scanner.found() {
        Found::Whole => scanner.waiting().saturating_sub(1) as u32,
        Found::Begun => scanner.waiting() as u32,
        Found::Bad { .. } => scanner.waiting() as u32,
    }
}

/// How many bytes come next of the frame that is begun.
pub(crate) fn wanted_behind(scanner: &FrameScanner) -> usize
    ensures { result ≡ wanted_in (pending scanner.now) }
{
    match scanner.found() {
        Found::Whole => 1,
        Found::Begun => scanner.wanted(),
        Found::Bad { .. } => scanner.wanted(),
    }
}
