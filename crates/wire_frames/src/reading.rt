// Reads the frames of a child.
ghost use Rattle.std.specs.Prelude.{◌≡◌, [], IfOk};
ghost use Rattle.std.specs.List.{list_all};
ghost use Rattle.apt_base.specs.Fields.{u16_next, bytes_next, text_next};
ghost use Rattle.apt_base.specs.Forms.{mapped, opt_next, list_next};
ghost use Rattle.apt_base.specs.Identifiers.{is_pattern};
ghost use Rattle.apt_base.specs.Readings.{Gives};
ghost use Rattle.wire_frames.specs.Readings.{are_distinct, distinct_next, patterns_next, below_next, claim_next, element_next, hello_next, done_next, file_next, source_of, class_of, resource_next, message_next, fields_next};

use crate::frame::{Creation, Frame, Hello, Message};
use crate::tags;
use apt_base::{
    Claim, ElementRef, FieldReader, FormFault, List, Name, NoMemory, is_pattern, read_byte,
    read_count, read_text, read_truth,
};
use std::alloc::Global;
use std::collections::BTreeSet;

// ---- fields

fn are_distinct(alloc: Global, texts: &[Name]) -> Result<bool, NoMemory>
    ensures { IfOk result (λ distinct. distinct ≡ are_distinct texts.now) }
{
    let set: BTreeSet<&str> = texts.iter().map(|text| text.as_str()).collect(alloc)?;
    Ok(set.len() == texts.len())
}

// An empty list that has room for this many texts, but for no more than so many bytes may spell, each of them four and
// more.
fn list_of_texts(alloc: Global, count: u32, bytes: usize) -> Result<List<Name>, NoMemory>
    ensures { IfOk result (λ texts. texts ≡ []) }
{
    let room = (count as usize).min(bytes / 4);
    Ok(List::from_vec(Vec::with_capacity(alloc, room)?))
}

// Texts behind their number.
#[tactic(auto, unfolding(apt_base::specs::Forms::list_next))]
fn any_texts(alloc: Global, reader: &mut FieldReader<'_>) -> Result<List<Name>, FormFault>
    ensures { Gives result (list_next text_next reader.old) reader.new }
{
    let count = read_count(reader)?;
    let mut items = list_of_texts(alloc, count, reader.left())?;
    for _ in 0..count {
        let item = read_text(alloc, reader)?;
        items.push(item)?;
    }
    Ok(items)
}

#[tactic(auto, unfolding(crate::specs::Readings::distinct_next))]
fn distinct_texts(alloc: Global, reader: &mut FieldReader<'_>) -> Result<List<Name>, FormFault>
    ensures { Gives result (distinct_next reader.old) reader.new }
{
    let texts = any_texts(alloc, reader)?;
    if are_distinct(alloc, texts.as_slice())? {
        Ok(texts)
    } else {
        Err(FormFault::Bad)
    }
}

fn are_patterns(texts: &[Name]) -> bool
    ensures { result ≡ list_all is_pattern texts.now }
{
    for text in texts {
        if !is_pattern(text.as_str()) {
            return false;
        }
    }
    true
}

#[tactic(auto, unfolding(crate::specs::Readings::patterns_next))]
fn patterns(alloc: Global, reader: &mut FieldReader<'_>) -> Result<List<Name>, FormFault>
    ensures { Gives result (patterns_next reader.old) reader.new }
{
    let texts = distinct_texts(alloc, reader)?;
    if are_patterns(texts.as_slice()) {
        Ok(texts)
    } else {
        Err(FormFault::Bad)
    }
}

/// The number of one byte that is below the bound. The only fault is Bad: another byte stands there, or none.
#[tactic(auto, unfolding(crate::specs::Readings::below_next))]
pub fn read_below(bound: u8, reader: &mut FieldReader<'_>) -> Result<u8, FormFault>
    ensures { Gives result (below_next bound reader.old) reader.new }
{
    let number = read_byte(reader)?;
    if number < bound {
        Ok(number)
    } else {
        Err(FormFault::Bad)
    }
}

#[tactic(auto, unfolding(crate::specs::Readings::claim_next))]
fn claim(reader: &mut FieldReader<'_>) -> Result<Claim, FormFault>
    ensures { Gives result (claim_next reader.old) reader.new }
{
    match read_byte(reader)? {
        0 => Ok(Claim::Always),
        1 => Ok(Claim::Never),
        2 => Ok(Claim::Varies),
        _ => Err(FormFault::Bad),
    }
}

fn content(alloc: Global, reader: &mut FieldReader<'_>) -> Result<List<u8>, FormFault>
    ensures { Gives result (bytes_next reader.old) reader.new }
{
    let Some(bytes) = reader.bytes() else {
        return Err(FormFault::Bad);
    };
    match bytes.to_vec(alloc) {
        Ok(bytes) => Ok(List::from_vec(bytes)),
        Err(_) => Err(FormFault::Memory),
    }
}

// ---- elements

/// The number of two bytes that stands next. The only fault is Bad: fewer stand there.
pub fn read_step(reader: &mut FieldReader<'_>) -> Result<u16, FormFault>
    ensures { Gives result (u16_next reader.old) reader.new }
{
    match reader.u16() {
        Some(step) => Ok(step),
        None => Err(FormFault::Bad),
    }
}

#[tactic(auto, unfolding(apt_base::specs::Forms::list_next))]
fn path(alloc: Global, reader: &mut FieldReader<'_>) -> Result<List<u16>, FormFault>
    ensures { Gives result (list_next u16_next reader.old) reader.new }
{
    let count = read_count(reader)?;
    let mut items = List::new(alloc);
    for _ in 0..count {
        let item = read_step(reader)?;
        items.push(item)?;
    }
    Ok(items)
}

/// The reference of an element that stands next. It is Bad where none stands there, and Memory when memory runs out.
#[tactic(auto, unfolding(crate::specs::Readings::element_next))]
pub fn read_element(alloc: Global, reader: &mut FieldReader<'_>) -> Result<ElementRef, FormFault>
    ensures { Gives result (element_next reader.old) reader.new }
{
    let unit = read_text(alloc, reader)?;
    let path = path(alloc, reader)?;
    Ok(ElementRef { unit, path })
}

/// The references of elements that stand next, behind their number. It is Bad where there is no such list, and
/// Memory when memory runs out.
#[tactic(auto, unfolding(apt_base::specs::Forms::list_next))]
pub fn read_elements(
    alloc: Global,
    reader: &mut FieldReader<'_>,
) -> Result<List<ElementRef>, FormFault>
    ensures { Gives result (list_next element_next reader.old) reader.new }
{
    let count = read_count(reader)?;
    let mut items = List::new(alloc);
    for _ in 0..count {
        let item = read_element(alloc, reader)?;
        items.push(item)?;
    }
    Ok(items)
}

#[tactic(auto, unfolding(apt_base::specs::Forms::opt_next))]
fn optional_element(
    alloc: Global,
    reader: &mut FieldReader<'_>,
) -> Result<Option<ElementRef>, FormFault>
    ensures { Gives result (opt_next element_next reader.old) reader.new }
{
    if read_truth(reader)? {
        let value = read_element(alloc, reader)?;
        Ok(Some(value))
    } else {
        Ok(None)
    }
}

// ---- frames

#[tactic(auto, unfolding(crate::specs::Readings::hello_next))]
fn hello(alloc: Global, reader: &mut FieldReader<'_>) -> Result<Frame, FormFault>
    ensures { Gives result (hello_next reader.old) reader.new }
{
    let patterns = patterns(alloc, reader)?;
    let options = distinct_texts(alloc, reader)?;
    let claim = claim(reader)?;
    Ok(Frame::Hello(Hello {
        patterns,
        options,
        claim,
    }))
}

#[tactic(auto, unfolding(crate::specs::Readings::done_next))]
fn done(reader: &mut FieldReader<'_>) -> Result<Frame, FormFault>
    ensures { Gives result (done_next reader.old) reader.new }
{
    let claimed = read_truth(reader)?;
    Ok(Frame::Done { claimed })
}

#[tactic(auto, unfolding(crate::specs::Readings::file_next))]
fn source(alloc: Global, reader: &mut FieldReader<'_>) -> Result<Frame, FormFault>
    ensures { Gives result (mapped source_of file_next reader.old) reader.new }
{
    let name = read_text(alloc, reader)?;
    let content = content(alloc, reader)?;
    let origins = read_elements(alloc, reader)?;
    Ok(Frame::Create(Creation::Source {
        name,
        content,
        origins,
    }))
}

#[tactic(auto, unfolding(crate::specs::Readings::resource_next, crate::specs::Readings::file_next))]
fn resource(alloc: Global, reader: &mut FieldReader<'_>) -> Result<Frame, FormFault>
    ensures { Gives result (resource_next reader.old) reader.new }
{
    let location = read_below(3, reader)?;
    let package = read_text(alloc, reader)?;
    let relative = read_text(alloc, reader)?;
    let content = content(alloc, reader)?;
    let origins = read_elements(alloc, reader)?;
    Ok(Frame::Create(Creation::Resource {
        location,
        package,
        relative,
        content,
        origins,
    }))
}

#[tactic(auto, unfolding(crate::specs::Readings::file_next))]
fn class(alloc: Global, reader: &mut FieldReader<'_>) -> Result<Frame, FormFault>
    ensures { Gives result (mapped class_of file_next reader.old) reader.new }
{
    let name = read_text(alloc, reader)?;
    let content = content(alloc, reader)?;
    let origins = read_elements(alloc, reader)?;
    Ok(Frame::Create(Creation::Class {
        name,
        content,
        origins,
    }))
}

#[tactic(auto, unfolding(crate::specs::Readings::message_next))]
fn message(alloc: Global, reader: &mut FieldReader<'_>) -> Result<Frame, FormFault>
    ensures { Gives result (message_next reader.old) reader.new }
{
    let kind = read_below(5, reader)?;
    let element = optional_element(alloc, reader)?;
    let text = read_text(alloc, reader)?;
    Ok(Frame::Message(Message {
        kind,
        element,
        text,
    }))
}

/// The frame of a child that has this tag and the fields that stand next: `Hello`, `Done`, `Create` or `Message`.
/// It is Bad where they are not the tag's fields, and for any other tag, and Memory when memory runs out.
pub fn read_child_fields(
    alloc: Global,
    tag: u8,
    reader: &mut FieldReader<'_>,
) -> Result<Frame, FormFault>
    ensures { Gives result (fields_next tag reader.old) reader.new }
{
    match tag {
        tags::HELLO => hello(alloc, reader),
        tags::DONE => done(reader),
        tags::SOURCE => source(alloc, reader),
        tags::RESOURCE => resource(alloc, reader),
        tags::CLASS => class(alloc, reader),
        tags::MESSAGE => message(alloc, reader),
        _ => Err(FormFault::Bad),
    }
}
