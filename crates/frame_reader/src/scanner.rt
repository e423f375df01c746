// Finds frames in a stream.
ghost use Rattle.std.specs.Prelude.{◌≡◌, ◌++◌, ◌∷◌, ◌<◌, ◌≤◌, [], length, take, IfOk, OnOk, OnErr, if◌then◌else◌};
ghost use Rattle.frame_reader.specs.Stages.{found_in, is_begun, is_whole, EndsThere, fed, released, wanted_in, taken_of, IsBegun, TakesRun, TakesFront, TakesPiece};

use crate::fields::FieldsReader;
use crate::found::{Found, Interrupted};
use crate::stage::{LENGTH_BYTES, Stage, next_stage};
use apt_base::NoMemory;
use std::alloc::Global;
use std::marker::Model;

/// Finds the frames of a stream, one after another, and never reads one again from its beginning. Contracts see it as the bytes since the last frame was released.
///
/// Where a frame is whole or a byte is bad, no byte is taken.
#[derive(Drop)]
pub struct FrameScanner {
    bytes: Vec<u8>,
    stage: Stage,
    fields: FieldsReader,
}

impl Model for FrameScanner {
    ghost use Rattle.std.specs.Prelude.{List, ℕ};
    ghost use Rattle.frame_reader.specs.Stages.{InStage};

    ghost Value = { List ℕ };

    ghost view = { λ a. a.bytes.items };

    ghost invariant = { λ a. InStage a.stage a.fields a.bytes.items };
}

impl FrameScanner {
    /// A scanner at the beginning of a stream. It takes no memory.
    pub fn new(alloc: Global) -> FrameScanner
        ensures { result ≡ [] }
    {
        FrameScanner {
            bytes: Vec::new(alloc),
            stage: Stage::Length,
            fields: FieldsReader::new(alloc),
        }
    }

    /// What stands at the front of the bytes since the last frame was released.
    pub fn found(&self) -> Found
        ensures found { result ≡ found_in self.now }
        ensures frame { EndsThere result self.now }
    {
        match self.stage {
            Stage::Length => Found::Begun,
            Stage::Fields(_) => Found::Begun,
            Stage::Whole => Found::Whole,
            Stage::Bad(place, kind) => Found::Bad { place, kind },
        }
    }

    fn is_open(&self) -> bool
        ensures { result ≡ is_begun (found_in self.now) }
    {
        match self.found() {
            Found::Begun => true,
            Found::Whole => false,
            Found::Bad { .. } => false,
        }
    }

    fn is_whole(&self) -> bool
        ensures { result ≡ is_whole (found_in self.now) }
    {
        match self.found() {
            Found::Begun => false,
            Found::Whole => true,
            Found::Bad { .. } => false,
        }
    }

    /// The bytes since the last frame was released: a whole frame's length, tag and fields where one is found.
    pub fn bytes(&self) -> &[u8]
        ensures { result.now ≡ self.now }
    {
        self.bytes.as_slice()
    }

    /// Takes the next byte of the stream, while no frame is whole and no byte is bad. It fails only when memory runs out, and the scanner is then as it was.
    pub fn take(&mut self, byte: u8) -> Result<(), NoMemory>
        ensures ok { OnOk result (self.new ≡ fed self.old byte) }
        ensures err { OnErr result (self.new ≡ self.old) }
    {
        if !self.is_open() {
            return Ok(());
        }
        self.bytes.push(byte)?;
        match next_stage(self.stage, &mut self.fields, self.bytes.as_slice(), byte) {
            Ok(stage) => {
                self.stage = stage;
                Ok(())
            }
            Err(fault) => {
                self.bytes.pop();
                Err(fault)
            }
        }
    }

    // Takes at once those bytes at the front of a piece that belong to the ones before them and of which nothing is asked yet. Without memory nothing changes.
    fn take_run(&mut self, piece: &[u8]) -> Result<usize, NoMemory>
        requires open { IsBegun self.old }
        ensures ok { IfOk result (λ taken. TakesRun taken piece.now self.old self.new) }
        ensures err { OnErr result (self.new ≡ self.old) }
    {
        let Stage::Fields(end) = self.stage else {
            return Ok(0);
        };
        let room = end - self.bytes.len();
        let run = piece.len().min(room - 1).min(self.fields.ahead() as usize);
        if run == 0 {
            return Ok(0);
        }
        self.bytes.reserve(piece.len().min(room))?;
        self.bytes.extend_from_slice(&piece[..run])?;
        self.fields.skip(run as u32);
        Ok(run)
    }

    // Takes some bytes at the front of a piece. Without memory nothing changes.
    fn take_front(&mut self, piece: &[u8]) -> Result<usize, NoMemory>
        requires some { 0 < length piece.now }
        requires open { IsBegun self.old }
        ensures ok { IfOk result (λ taken. TakesFront taken piece.now self.old self.new) }
        ensures err { OnErr result (self.new ≡ self.old) }
    {
        let run = self.take_run(piece)?;
        if run > 0 {
            return Ok(run);
        }
        self.take(piece[0])?;
        Ok(1)
    }

    /// Takes the bytes of a piece, up to the end of the first frame or to the first bad byte, and gives how many it took. The others are for the next call, behind `release`. Texts and contents are copied at once, as far as they are in the piece; no memory is taken for bytes that have not come.
    ///
    /// It fails only when memory runs out. The scanner has then taken the bytes that `Interrupted` counts, as far as there was memory for them, and a frame is begun; those behind them are for the next call.
    pub fn feed(&mut self, piece: &[u8]) -> Result<usize, Interrupted>
        ensures within { taken_of result ≤ length piece.now }
        ensures bytes { self.new ≡ self.old ++ take (taken_of result) piece.now }
        ensures up_to { TakesPiece result piece.now self.old self.new }
    {
        let mut taken = 0;
        while taken < piece.len() {
            if !self.is_open() {
                return Ok(taken);
            }
            match self.take_front(&piece[taken..]) {
                Ok(more) => taken += more,
                Err(NoMemory) => return Err(Interrupted { taken }),
            }
        }
        Ok(taken)
    }

    /// How many bytes there are since the last frame was released.
    pub fn waiting(&self) -> usize
        ensures { result ≡ length self.now }
    {
        self.bytes.len()
    }

    /// How many bytes to read next: the rest of the frame's length while the length is incomplete, and after it the rest of the frame. 0 where the frame is whole and after a bad byte.
    pub fn wanted(&self) -> usize
        ensures { result ≡ wanted_in self.now }
    {
        match self.stage {
            Stage::Length => LENGTH_BYTES - self.bytes.len(),
            Stage::Fields(end) => end - self.bytes.len(),
            Stage::Whole => 0,
            Stage::Bad(_, _) => 0,
        }
    }

    /// Lets a whole frame go, so that the next one is found behind it. Otherwise nothing changes.
    pub fn release(&mut self)
        ensures { self.new ≡ released self.old }
    {
        if self.is_whole() {
            self.bytes.clear();
            self.stage = Stage::Length;
        }
    }
}
