// Reads the frames of a stream.
ghost use Rattle.std.specs.Prelude.{◌≡◌, ◌≤◌, [], length, IfOk};
ghost use Rattle.frame_reader.specs.Stages.{fed, wanted_in};
ghost use Rattle.frame_stream.specs.Streams.{Comes, ComesOf};
ghost use Rattle.frame_stream.specs.declared.reader.ReadFault.TheVariants as faults;

use crate::taking::{take_byte, take_slice, waiting_in, wanted_behind};
use apt_base::NoMemory;
use frame_forms::BadKind;
use frame_reader::FrameScanner;
use std::alloc::Global;
use std::marker::Model;
use wire_frames::Frame;

/// Why a byte gives no frame and begins none.
#[derive(Clone, Copy, Debug, PartialEq, Eq)]
pub enum ReadFault {
    /// The bytes since the last frame are no frame's, nor the beginning of one's.
    Bad {
        /// The place of the first bad byte, from 0 at the first byte of the length.
        place: u32,
        /// What is wrong with it.
        kind: BadKind,
    },
    /// Out of memory.
    Memory,
}

impl From<NoMemory> for ReadFault {
    ghost from_gives = { λ _ fault. fault ≡ faults.Memory };

    fn from(_: NoMemory) -> ReadFault {
        ReadFault::Memory
    }
}

/// What the front of some bytes comes to.
#[derive(Drop)]
pub struct Progress {
    /// How many of the bytes were taken, a bad one among them.
    pub taken: usize,
    /// What the last one of them is answered, as by `Reader::feed`: None where all were taken and end no frame.
    pub answer: Result<Option<Frame>, ReadFault>,
}

fn copy_answer(
    alloc: Global,
    answer: &Result<Option<Frame>, ReadFault>,
) -> Result<Result<Option<Frame>, ReadFault>, NoMemory>
    ensures { IfOk result (λ copy. copy ≡ answer.now) }
{
    match answer {
        Ok(None) => Ok(Ok(None)),
        Ok(Some(frame)) => Ok(Ok(Some(frame.copy(alloc)?))),
        Err(fault) => Ok(Err(*fault)),
    }
}

impl Progress {
    /// An equal progress. It fails only when memory runs out.
    pub fn copy(&self, alloc: Global) -> Result<Progress, NoMemory>
        ensures { IfOk result (λ progress. progress ≡ self.now) }
    {
        Ok(Progress {
            taken: self.taken,
            answer: copy_answer(alloc, &self.answer)?,
        })
    }
}

/// Reads the frames of a stream. Contracts see it as the bytes since the last frame.
#[derive(Drop)]
pub struct Reader {
    alloc: Global,
    scanner: FrameScanner,
}

impl Model for Reader {
    ghost use Rattle.std.specs.Prelude.{List, ℕ, ◌≤◌, length};
    ghost use Rattle.frame_stream.specs.Streams.{pending, most_bytes};

    ghost Value = { List ℕ };

    ghost view = { λ a. pending a.scanner };

    ghost invariant = { λ a. length (pending a.scanner) ≤ most_bytes };
}

impl Reader {
    /// A reader at the beginning of a stream. It takes no memory.
    pub fn new(alloc: Global) -> Reader
        ensures { result ≡ [] }
    {
        Reader {
            alloc,
            scanner: FrameScanner::new(alloc),
        }
    }

    /// Takes the next byte of the stream, and gives the frame that it ends: None while the bytes since the last frame begin one and none of them is bad.
    ///
    /// `Bad` comes exactly where this byte is the first bad one by the table of all frames, the fourth byte of a length out of range among them; from then on each call answers the same. `Memory` is out of memory, and the reader is then as it was.
    pub fn feed(&mut self, byte: u8) -> Result<Option<Frame>, ReadFault>
        ensures { Comes result self.old (fed self.old byte) self.new }
    {
        take_byte(self.alloc, &mut self.scanner, byte)
    }

    /// Takes bytes of the stream up to the first one that ends a frame or is bad, and gives how many it took with what `feed` answers the last one. The bytes behind it are for the next call.
    ///
    /// The outcome is that of feeding the bytes one by one; a text or the content of a file is copied at once, as far as it is there, and no memory is taken for bytes that have not come. After a bad byte no byte is taken, and each call answers the same. `Memory` is out of memory: those that are counted were taken, and the others can be fed again.
    pub fn feed_slice(&mut self, bytes: &[u8]) -> Progress
        ensures within { result.taken ≤ length bytes.now }
        ensures comes { ComesOf result.answer result.taken bytes.now self.old self.new }
    {
        take_slice(self.alloc, &mut self.scanner, bytes)
    }

    /// How many bytes there are since the last frame. After a bad byte it counts those up to it.
    pub fn waiting(&self) -> u32
        ensures { result ≡ length self.now }
    {
        waiting_in(&self.scanner)
    }

    /// How many bytes to read next: the rest of the frame's length while the length is incomplete, and after it the rest of the frame. 0 after a bad byte.
    pub fn wanted(&self) -> usize
        ensures { result ≡ wanted_in self.now }
    {
        wanted_behind(&self.scanner)
    }
}
