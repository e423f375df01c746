// How far the bytes of one frame are.
ghost use Rattle.std.specs.Prelude.{◌≡◌, ◌-◌, ◌<◌, ◌≤◌, ◌∷◌, [], None, length, IfOk, OnOk, OnErr};
ghost use Rattle.std.specs.Int.{w32, from_be_bytes};
ghost use Rattle.frame_forms.specs.Frames.{is_out_of_range};
ghost use Rattle.frame_reader.specs.Stages.{CanTake, TakesTo, LengthTo, StaysIn};
ghost use Rattle.frame_reader.specs.declared.stage.Stage.TheVariants as stages;

use crate::fields::{FieldsReader, number_of};
use crate::task::Taken;
use apt_base::NoMemory;
use frame_forms::BadKind;

/// The most bytes of a tag with its fields.
const MOST_FIELDS: u32 = 134_217_724;

/// How many bytes a length has.
pub(crate) const LENGTH_BYTES: usize = 4;

/// How far the bytes of a frame are.
#[derive(Clone, Copy)]
pub enum Stage {
    /// They are some bytes of its length.
    Length,
    /// They are its length and some bytes of its tag and fields, with the place behind its last byte.
    Fields(usize),
    /// They are a whole frame.
    Whole,
    /// The last one is bad: its place, and what is wrong with it.
    Bad(u32, BadKind),
}

fn is_out_of_range(count: u32) -> bool
    ensures { result ≡ is_out_of_range count }
{
    count == 0 || MOST_FIELDS < count
}

// The byte is one of a length.
fn in_length(fields: &mut FieldsReader, bytes: &[u8]) -> Result<Stage, NoMemory>
    requires some { 0 < length bytes.now }
    requires few { length bytes.now ≤ 4 }
    ensures { IfOk result (λ stage. LengthTo stage fields.new bytes.now) }
{
    if bytes.len() < LENGTH_BYTES {
        return Ok(Stage::Length);
    }
    let count = number_of(bytes);
    if is_out_of_range(count) {
        return Ok(Stage::Bad(3, BadKind::Length));
    }
    fields.start()?;
    Ok(Stage::Fields(LENGTH_BYTES + count as usize))
}

// The byte is one of the tag and the fields, which end at this place.
fn in_fields(
    end: usize,
    fields: &mut FieldsReader,
    bytes: &[u8],
    byte: u8,
) -> Result<Stage, NoMemory>
    requires some { 0 < length bytes.now }
    requires can { CanTake (stages.Fields end) fields.old (length bytes.now - 1) }
    ensures ok { IfOk result (λ new. TakesTo (stages.Fields end) new fields.old fields.new bytes.now byte) }
    ensures err { OnErr result (fields.new ≡ fields.old) }
{
    let place = (bytes.len() - 1) as u32;
    match fields.take(bytes, byte)? {
        Taken::Bad(kind) => Ok(Stage::Bad(place, kind)),
        Taken::Behind => Ok(Stage::Bad(place, BadKind::Rest)),
        Taken::On => {
            if bytes.len() < end {
                return Ok(Stage::Fields(end));
            }
            if fields.is_done() {
                // Its value takes memory next.
                fields.forget_texts();
                return Ok(Stage::Whole);
            }
            Ok(Stage::Bad(place, BadKind::Field))
        }
    }
}

/// Where the bytes are, of which the last one is new. Without memory they are where they were without it.
pub(crate) fn next_stage(
    stage: Stage,
    fields: &mut FieldsReader,
    bytes: &[u8],
    byte: u8,
) -> Result<Stage, NoMemory>
    requires some { 0 < length bytes.now }
    requires can { CanTake stage fields.old (length bytes.now - 1) }
    ensures ok { IfOk result (λ new. TakesTo stage new fields.old fields.new bytes.now byte) }
    ensures err { OnErr result (StaysIn stage fields.old fields.new) }
{
    match stage {
        Stage::Length => in_length(fields, bytes),
        Stage::Fields(end) => in_fields(end, fields, bytes, byte),
        Stage::Whole | Stage::Bad(_, _) => unreachable!(),
    }
}
