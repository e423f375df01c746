// What a child sends in answer to a frame, as far as a refusal is said by it.
use crate::shown::Shown;
use frame_forms::BadKind;
use frame_stream::{ReadFault, Reader};
use std::alloc::Global;
use std::fmt::{Display, Formatter};
use std::io::Stderr;
use std::{fmt, io};
use wire_frames::tags;

/// How many bytes are kept of a frame that creates no source.
const MOST_KEPT: usize = 65_536;

/// The frame with which the host accepts a creation.
const ACCEPTED: &[u8] = &[0, 0, 0, 2, tags::CREATED, 0];

/// The frame that a child sends, or begins, in answer to a frame of the host, and the sources that were created in the round.
#[derive(Drop)]
pub struct Talk {
    /// How many bytes the child had sent before the frame.
    offset: u64,
    /// How many bytes of the frame came.
    received: usize,
    /// The first of them, or all.
    frame: Vec<u8>,
    /// Whether the child's output has ended.
    is_over: bool,
    /// The number of the round.
    round: u32,
    /// The frames by which sources were created in it, one behind the other. One for which there was no memory is not
    /// among them.
    sources: Vec<u8>,
}

/// How a frame is off the protocol.
#[derive(Drop)]
enum Departure {
    /// The byte at this place of the frame is bad.
    Bad { place: u32, kind: BadKind },
    /// The child's output ended after that many bytes of the frame.
    Ended { received: usize },
    /// It is a frame, and may not stand there.
    Misplaced,
    /// It is not known of these bytes, which alone were kept.
    Cut { kept: usize },
}

impl Talk {
    /// Nothing was sent yet.
    pub fn new(alloc: Global) -> Self {
        Talk {
            offset: 0,
            received: 0,
            frame: Vec::new(alloc),
            is_over: false,
            round: 0,
            sources: Vec::new(alloc),
        }
    }

    /// The host sends this frame to a child that has sent this many bytes, and which answers it next.
    pub fn begin_answer(&mut self, frame: &[u8], offset: u64) {
        if frame == ACCEPTED {
            self.keep_source();
        }
        if let Some(round) = round_of(frame) {
            self.begin_round(round);
        }
        self.offset = offset;
        self.received = 0;
        self.frame.clear();
        self.is_over = false;
    }

    /// Takes what was received of the child's frame into a room; nothing came where the child's output has ended.
    pub fn take(&mut self, room: &[u8], received: &io::Result<usize>) {
        if let Ok(count) = received {
            self.take_bytes(room.get(..*count).unwrap_or(room));
        }
    }

    fn take_bytes(&mut self, bytes: &[u8]) {
        self.is_over = bytes.is_empty();
        if self.is_whole() {
            let kept = self.kept_of(bytes);
            // Where there is no memory for them the frame is not whole.
            let _ = self.frame.extend_from_slice(kept);
        }
        self.received = self.received.saturating_add(bytes.len());
    }

    /// Says how the processor of this name left the protocol by this frame. Where there is no memory to read it nothing
    /// is said.
    pub fn say_departure(&self, alloc: Global, messages: Stderr, processor: &str) {
        let Some(departure) = self.departure(alloc) else {
            return;
        };
        let processor = Shown(processor.as_bytes());
        let offset = self.offset;
        let _ = match tag_of(self.frame.as_slice()) {
            Some(tag) => eprintln!(messages;
                "apt_cli: processor {processor}: frame at offset {offset}, tag {tag}: {departure}"
            ),
            None => eprintln!(messages;
                "apt_cli: processor {processor}: frame at offset {offset}: {departure}"
            ),
        };
    }

    /// The source that was created in this round and has this path in the output; None also where there was no memory
    /// to keep it.
    pub fn source_at(&self, path: &str) -> Option<&[u8]> {
        let mut rest = self.sources.as_slice();
        for _ in 0..self.sources.len() {
            let (frame, others) = split_counted(rest)?;
            let (name, fields) = split_counted(frame.get(1..)?)?;
            let (content, _) = split_counted(fields)?;
            if is_path_of(path, name) {
                return Some(content);
            }
            rest = others;
        }
        None
    }

    fn is_whole(&self) -> bool {
        self.frame.len() == self.received
    }

    fn creates_source(&self) -> bool {
        tag_of(self.frame.as_slice()) == Some(tags::SOURCE)
    }

    /// What is kept of bytes that come next of the frame.
    fn kept_of<'a>(&self, bytes: &'a [u8]) -> &'a [u8] {
        let room = MOST_KEPT.saturating_sub(self.frame.len());
        if self.creates_source() {
            bytes
        } else {
            bytes.get(..room).unwrap_or(bytes)
        }
    }

    fn keep_source(&mut self) {
        if self.is_whole() && self.creates_source() {
            let _ = self.sources.extend_from_slice(self.frame.as_slice());
        }
    }

    fn begin_round(&mut self, round: u32) {
        if self.round != round {
            self.sources.clear();
        }
        self.round = round;
    }

    /// How the frame is off the protocol; None where there is no memory to read it.
    fn departure(&self, alloc: Global) -> Option<Departure> {
        if self.is_over {
            let received = self.received;
            return Some(Departure::Ended { received });
        }
        let answer = Reader::new(alloc).feed_slice(self.frame.as_slice()).answer;
        match answer.map(is_there) {
            Ok(true) => Some(Departure::Misplaced),
            Ok(false) => Some(Departure::Cut {
                kept: self.frame.len(),
            }),
            Err(ReadFault::Bad { place, kind }) => Some(Departure::Bad { place, kind }),
            Err(ReadFault::Memory) => None,
        }
    }
}

fn is_there<T: Drop>(value: Option<T>) -> bool {
    value.is_some()
}

/// The tag of a frame, behind the four bytes of its length; None where it didn't come.
fn tag_of(frame: &[u8]) -> Option<u8> {
    match frame {
        [_, _, _, _, tag, ..] => Some(*tag),
        _ => None,
    }
}

/// The number of the round that a frame of the host begins.
fn round_of(frame: &[u8]) -> Option<u32> {
    match frame {
        [_, _, _, _, tags::ROUND, a, b, c, d, ..] => Some(u32::from_be_bytes([*a, *b, *c, *d])),
        _ => None,
    }
}

/// The bytes that a number in front counts, and those behind them.
fn split_counted(bytes: &[u8]) -> Option<(&[u8], &[u8])> {
    match bytes {
        [a, b, c, d, rest @ ..] => {
            rest.split_at_checked(u32::from_be_bytes([*a, *b, *c, *d]) as usize)
        }
        _ => None,
    }
}

/// Whether this is the path of the source of this name: `SOURCE_OUTPUT/a/b/C.java` of `a.b.C`.
fn is_path_of(path: &str, name: &[u8]) -> bool {
    let below = path.strip_prefix("SOURCE_OUTPUT/").unwrap_or("");
    let folders = below.strip_suffix(".java").unwrap_or("").as_bytes();
    folders.len() == name.len()
        && folders.iter().zip(name.iter()).all(|(left, right)| *left == *right
            || *left == b'/' && *right == b'.')
}

impl Display for Departure {
    fn fmt<W: fmt::Write>(&self, f: &mut Formatter<W>) -> fmt::Result {
        match self {
            Departure::Bad { place, kind } => {
                let flaw = flaw_of(*kind);
                write!(f, "{flaw}, at byte {place} of it")
            }
            Departure::Ended { received } => {
                write!(f, "end of stream after {received} bytes of it")
            }
            Departure::Misplaced => f.write_str("it may not stand there"),
            Departure::Cut { kept } => {
                write!(f, "what is wrong is not known of its first {kept} bytes")
            }
        }
    }
}

/// What is wrong with a byte.
fn flaw_of(kind: BadKind) -> &'static str {
    match kind {
        BadKind::Length => "bad length",
        BadKind::Tag => "bad tag",
        BadKind::Field => "bad field",
        BadKind::Pattern => "bad pattern",
        BadKind::Rest => "more than its fields",
    }
}
