// The frame whose tag and fields are bytes.
ghost use Rattle.std.specs.Prelude.{◌≡◌, IfOk, IfSome, IfNone};
ghost use Rattle.apt_base.specs.Forms.{mapped};
ghost use Rattle.apt_base.specs.Readings.{Gives, GivesAll};
ghost use Rattle.wire_frames.specs.Frames.{AreFieldsOf};
ghost use Rattle.frame_decoder.specs.QuestionReadings.{question_next};
ghost use Rattle.frame_decoder.specs.HostReadings.{reply_next};
ghost use Rattle.frame_decoder.specs.Decodings.{reply_of, ask_of, tagged_next, frame_next, decoded, AreNoFields};

use crate::host_reading::{read_init, read_round};
use crate::question_reading::read_question;
use crate::quota::Quota;
use crate::reply_reading::read_reply;
use apt_base::{FieldReader, FormFault, NoMemory, read_byte};
use std::alloc::Global;
use wire_frames::{Frame, read_child_fields, tags};

fn reply(
    alloc: Global,
    tag: u8,
    reader: &mut FieldReader<'_>,
    quota: &mut Quota,
) -> Result<Frame, FormFault>
    ensures { Gives result (mapped reply_of (reply_next tag) reader.old) reader.new }
{
    let reply = read_reply(alloc, tag, reader, quota)?;
    Ok(Frame::Reply(reply))
}

fn question(
    alloc: Global,
    tag: u8,
    reader: &mut FieldReader<'_>,
    quota: &mut Quota,
) -> Result<Frame, FormFault>
    ensures { Gives result (mapped ask_of (question_next tag) reader.old) reader.new }
{
    let question = read_question(alloc, tag, reader, quota)?;
    Ok(Frame::Ask(question))
}

fn tagged(
    alloc: Global,
    tag: u8,
    reader: &mut FieldReader<'_>,
    quota: &mut Quota,
) -> Result<Frame, FormFault>
    ensures { Gives result (tagged_next tag reader.old) reader.new }
{
    if tag == tags::INIT {
        return read_init(alloc, reader);
    }
    if tag == tags::ROUND {
        return read_round(alloc, reader);
    }
    if tag < tags::HELLO {
        return reply(alloc, tag, reader, quota);
    }
    if tag < tags::FIRST_QUESTION {
        return read_child_fields(alloc, tag, reader);
    }
    question(alloc, tag, reader, quota)
}

#[tactic(auto, unfolding(crate::specs::Decodings::frame_next))]
fn frame(alloc: Global, reader: &mut FieldReader<'_>, quota: &mut Quota) -> Result<Frame, FormFault>
    ensures { Gives result (frame_next reader.old) reader.new }
{
    let tag = read_byte(reader)?;
    tagged(alloc, tag, reader, quota)
}

#[tactic(auto, unfolding(crate::specs::Decodings::decoded))]
fn frame_of(alloc: Global, bytes: &[u8]) -> Result<Frame, FormFault>
    ensures { GivesAll result (decoded bytes.now) }
{
    let mut reader = FieldReader::new(bytes);
    let mut quota = Quota::of_frame(bytes.len());
    let frame = frame(alloc, &mut reader, &mut quota)?;
    if reader.left() == 0 {
        return Ok(frame);
    }
    drop(frame);
    Err(FormFault::Bad)
}

fn decoded(alloc: Global, bytes: &[u8]) -> Result<Option<Frame>, NoMemory>
    ensures { IfOk result (λ found. found ≡ decoded bytes.now) }
{
    match frame_of(alloc, bytes) {
        Ok(frame) => Ok(Some(frame)),
        Err(FormFault::Bad) => Ok(None),
        Err(FormFault::Memory) => Err(NoMemory),
    }
}

/// The frame whose tag and fields are these bytes, all of them, by the table of all frames.
///
/// None comes exactly where the table has no such frame. The only error is `NoMemory`, which also comes where the mirrors, values and annotations of the frame would take more than 12 bytes for each of its bytes, and more than 1,048,576.
pub fn decode(alloc: Global, bytes: &[u8]) -> Result<Option<Frame>, NoMemory>
    ensures exact { IfOk result (λ found. found ≡ decoded bytes.now) }
    // What is given is the frame of the table that is spelled so.
    ensures found { IfOk result (λ found. IfSome found (λ frame. AreFieldsOf bytes.now frame)) }
    // Where none is given the table has none.
    ensures none { IfOk result (λ found. IfNone found (AreNoFields bytes.now)) }
{
    decoded(alloc, bytes)
}
