// Reads the host's replies.
ghost use Rattle.std.specs.Prelude.{slice_get};
ghost use Rattle.apt_base.specs.Fields.{text_next};
ghost use Rattle.apt_base.specs.Forms.{numbered, list_next};
ghost use Rattle.apt_base.specs.Readings.{Gives};
ghost use Rattle.frame_decoder.specs.HostReadings.{info_next, entry_next, annotation_next, all_created, all_refused, reply_next};

use crate::counted_reading::read_counted_text;
use crate::mirror_reading::read_mirrors;
use crate::quota::{Quota, list_with_room};
use crate::value_reading::{read_annotation, read_value};
use apt_base::{
    FieldReader, FormFault, List, Name, read_byte, read_count, read_text, read_texts, read_truth,
};
use frame_forms::MOST_NESTED;
use std::alloc::Global;
use std::mem::size_of;
use type_mirror::{Annotation, Value};
use wire_frames::{Created, Info, Refused, Reply, read_below, read_elements, read_step, tags};

#[tactic(auto, unfolding(crate::specs::HostReadings::info_next))]
fn info(alloc: Global, reader: &mut FieldReader<'_>) -> Result<Reply, FormFault>
    ensures { Gives result (info_next reader.old) reader.new }
{
    let kind = read_below(11, reader)?;
    let modifiers = read_step(reader)?;
    let simple = read_text(alloc, reader)?;
    let canonical = read_text(alloc, reader)?;
    let varargs = read_truth(reader)?;
    Ok(Reply::Info(Info {
        kind,
        modifiers,
        simple,
        canonical,
        varargs,
    }))
}

#[tactic(auto, unfolding(crate::specs::HostReadings::annotation_next))]
fn annotation(
    alloc: Global,
    reader: &mut FieldReader<'_>,
    quota: &mut Quota,
) -> Result<Annotation, FormFault>
    ensures { Gives result (annotation_next MOST_NESTED reader.old) reader.new }
{
    read_annotation(alloc, MOST_NESTED, reader, quota)
}

#[tactic(auto, unfolding(apt_base::specs::Forms::list_next))]
fn annotations(
    alloc: Global,
    reader: &mut FieldReader<'_>,
    quota: &mut Quota,
) -> Result<List<Annotation>, FormFault>
    ensures { Gives result (list_next (annotation_next MOST_NESTED) reader.old) reader.new }
{
    let count = read_count(reader)?;
    let mut items = list_with_room(alloc, count, reader.left(), size_of::<Annotation>(), quota)?;
    for _ in 0..count {
        let item = annotation(alloc, reader, quota)?;
        items.push(item)?;
    }
    Ok(items)
}

// A value with a name.
#[tactic(auto, unfolding(crate::specs::HostReadings::entry_next))]
fn entry(
    alloc: Global,
    reader: &mut FieldReader<'_>,
    quota: &mut Quota,
) -> Result<(Name, Value), FormFault>
    ensures { Gives result (entry_next MOST_NESTED reader.old) reader.new }
{
    let name = read_counted_text(alloc, reader, quota)?;
    let value = read_value(alloc, MOST_NESTED, reader, quota)?;
    Ok((name, value))
}

#[tactic(auto, unfolding(apt_base::specs::Forms::list_next))]
fn entries(
    alloc: Global,
    reader: &mut FieldReader<'_>,
    quota: &mut Quota,
) -> Result<List<(Name, Value)>, FormFault>
    ensures { Gives result (list_next (entry_next MOST_NESTED) reader.old) reader.new }
{
    let count = read_count(reader)?;
    let mut items = list_with_room(
        alloc,
        count,
        reader.left(),
        size_of::<(Name, Value)>(),
        quota,
    )?;
    for _ in 0..count {
        let item = entry(alloc, reader, quota)?;
        items.push(item)?;
    }
    Ok(items)
}

fn created(reader: &mut FieldReader<'_>) -> Result<Created, FormFault>
    ensures { Gives result (numbered (slice_get all_created) reader.old) reader.new }
{
    match read_byte(reader)? {
        0 => Ok(Created::Accepted),
        1 => Ok(Created::Exists),
        2 => Ok(Created::Unsupported),
        3 => Ok(Created::BadName),
        4 => Ok(Created::TooLarge),
        _ => Err(FormFault::Bad),
    }
}

fn refused(reader: &mut FieldReader<'_>) -> Result<Refused, FormFault>
    ensures { Gives result (numbered (slice_get all_refused) reader.old) reader.new }
{
    match read_byte(reader)? {
        0 => Ok(Refused::NoSuch),
        1 => Ok(Refused::WrongKind),
        2 => Ok(Refused::TooDeep),
        3 => Ok(Refused::TooLarge),
        _ => Err(FormFault::Bad),
    }
}

fn elements_reply(alloc: Global, reader: &mut FieldReader<'_>) -> Result<Reply, FormFault>
    ensures { Gives result (reply_next 16 reader.old) reader.new }
{
    let elements = read_elements(alloc, reader)?;
    Ok(Reply::Elements(elements))
}

fn texts_reply(alloc: Global, reader: &mut FieldReader<'_>) -> Result<Reply, FormFault>
    ensures { Gives result (reply_next 18 reader.old) reader.new }
{
    let texts = read_texts(alloc, reader)?;
    Ok(Reply::Texts(texts))
}

fn annotations_reply(
    alloc: Global,
    reader: &mut FieldReader<'_>,
    quota: &mut Quota,
) -> Result<Reply, FormFault>
    ensures { Gives result (reply_next 19 reader.old) reader.new }
{
    let annotations = annotations(alloc, reader, quota)?;
    Ok(Reply::Annotations(annotations))
}

fn values_reply(
    alloc: Global,
    reader: &mut FieldReader<'_>,
    quota: &mut Quota,
) -> Result<Reply, FormFault>
    ensures { Gives result (reply_next 20 reader.old) reader.new }
{
    let values = entries(alloc, reader, quota)?;
    Ok(Reply::Values(values))
}

fn mirrors_reply(
    alloc: Global,
    reader: &mut FieldReader<'_>,
    quota: &mut Quota,
) -> Result<Reply, FormFault>
    ensures { Gives result (reply_next 21 reader.old) reader.new }
{
    let mirrors = read_mirrors(alloc, MOST_NESTED, reader, quota)?;
    Ok(Reply::Mirrors(mirrors))
}

fn truth_reply(reader: &mut FieldReader<'_>) -> Result<Reply, FormFault>
    ensures { Gives result (reply_next 22 reader.old) reader.new }
{
    let truth = read_truth(reader)?;
    Ok(Reply::Truth(truth))
}

fn created_reply(reader: &mut FieldReader<'_>) -> Result<Reply, FormFault>
    ensures { Gives result (reply_next 23 reader.old) reader.new }
{
    let became = created(reader)?;
    Ok(Reply::Created(became))
}

fn refused_reply(reader: &mut FieldReader<'_>) -> Result<Reply, FormFault>
    ensures { Gives result (reply_next 25 reader.old) reader.new }
{
    let why = refused(reader)?;
    Ok(Reply::Refused(why))
}

/// The reply with this tag whose fields stand next. It is Bad where they are not the tag's fields, and for a tag that no reply has, and Memory when memory runs out.
pub(crate) fn read_reply(
    alloc: Global,
    tag: u8,
    reader: &mut FieldReader<'_>,
    quota: &mut Quota,
) -> Result<Reply, FormFault>
    ensures { Gives result (reply_next tag reader.old) reader.new }
{
    match tag {
        tags::ELEMENTS => elements_reply(alloc, reader),
        tags::INFO => info(alloc, reader),
        tags::TEXTS => texts_reply(alloc, reader),
        tags::ANNOTATIONS => annotations_reply(alloc, reader, quota),
        tags::VALUES => values_reply(alloc, reader, quota),
        tags::MIRRORS => mirrors_reply(alloc, reader, quota),
        tags::TRUTH => truth_reply(reader),
        tags::CREATED => created_reply(reader),
        tags::NOTED => Ok(Reply::Noted),
        tags::REFUSED => refused_reply(reader),
        _ => Err(FormFault::Bad),
    }
}
