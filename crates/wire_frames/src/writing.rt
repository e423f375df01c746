// Spells the frames.
ghost use Rattle.std.specs.Prelude.{◌≡◌, ◌≤◌, true, [], ◌∷◌, ◌++◌, length, IfOk, OnOk, IsErrOf, Err};
ghost use Rattle.std.specs.Int.{w32, to_be_bytes};
ghost use Rattle.apt_base.specs.Fields.{bytes_form};
ghost use Rattle.frame_forms.specs.Forms.{opt_spelling, plain_frame};
ghost use Rattle.frame_forms.specs.MirrorForms.{bool_number};
ghost use Rattle.frame_forms.specs.FrameTable.{claim_number};
ghost use Rattle.wire_frames.specs.Frames.{shown, init_shown, reply_shown, info_shown, hello_shown, creation_shown, message_shown, created_number, refused_number, spelling, IsInTable, AreBytesOf};
ghost use Rattle.wire_frames.specs.Limits.{is_too_long, is_too_large};
ghost use Rattle.wire_frames.specs.Outputs.{Adds, added, counted};
ghost use Rattle.wire_frames.specs.Spellings.{list_spelled, fields_spelled, element_spelled, option_spelled, value_with_name_spelled, heading_spelled, texts_spelled, round_spelled, values_with_names_spelled, file_spelled, AddsResource};
ghost use Rattle.wire_frames.specs.declared.writing.FrameFault.TheVariants as faults;

use crate::form_writing::{
    put_annotations, put_element, put_elements, put_mirrors, put_texts, put_value,
};
use crate::frame::{Creation, Frame, Hello, Init, Message};
use crate::limits::nesting;
use crate::output::Output;
use crate::question_writing::put_question;
use crate::reply::{Created, Info, Refused, Reply};
use crate::tags;
use apt_base::{Claim, ElementRef, FieldWriter, List, Name, NoMemory};
use frame_forms::MOST_NESTED;
use std::alloc::Global;
use type_mirror::Value;

/// How many bytes a frame has at most, its length among them.
pub const MAX_FRAME: usize = 134_217_728;

/// Why a frame has no spelling.
#[derive(Clone, Copy, Debug, PartialEq, Eq)]
pub enum FrameFault {
    /// The frame would be longer than `MAX_FRAME`, or it holds mirrors or values that are nested more than 256 deep.
    TooLarge,
    /// Out of memory.
    Memory,
}

impl From<NoMemory> for FrameFault {
    ghost from_gives = { λ _ fault. fault ≡ faults.Memory };

    fn from(_: NoMemory) -> FrameFault {
        FrameFault::Memory
    }
}

// ---- the host's frames

#[tactic(auto, using(crate::proofs::Added::adds))]
fn put_option(output: &mut Output, option: &(Name, Name)) -> Result<(), NoMemory>
    ensures { Adds result output.old output.new (option_spelled option.now) }
{
    output.text(&option.0)?;
    output.text(&option.1)
}

#[tactic(auto, using(crate::proofs::Added::adds))]
fn put_options(output: &mut Output, options: &[(Name, Name)]) -> Result<(), NoMemory>
    ensures { Adds result output.old output.new (list_spelled option_spelled options.now) }
{
    output.count(options.len())?;
    for each in options {
        put_option(output, each)?;
    }
    Ok(())
}

#[tactic(auto, using(crate::proofs::Added::adds, crate::proofs::Rows::frame_rows))]
fn put_init(output: &mut Output, init: &Init) -> Result<(), NoMemory>
    ensures { Adds result output.old output.new (fields_spelled (init_shown init.now)) }
{
    output.u8(tags::INIT)?;
    output.text(&init.name)?;
    output.u16(init.level)?;
    put_options(output, init.options.as_slice())
}

// The number of a round, and its flags.
#[tactic(auto, using(crate::proofs::Added::adds))]
fn put_heading(output: &mut Output, number: u32, over: bool, error: bool) -> Result<(), NoMemory>
    ensures { Adds result output.old output.new (2 ∷ heading_spelled number over error) }
{
    output.u8(tags::ROUND)?;
    output.u32(number)?;
    output.bool(over)?;
    output.bool(error)
}

#[tactic(auto, using(crate::proofs::Added::adds))]
fn put_two_lists(output: &mut Output, one: &List<Name>, other: &List<Name>) -> Result<(), NoMemory>
    ensures { Adds result output.old output.new (texts_spelled one.now ++ texts_spelled other.now) }
{
    put_texts(output, one.as_slice())?;
    put_texts(output, other.as_slice())
}

#[tactic(auto, using(crate::proofs::Added::adds, crate::proofs::Rows::frame_rows))]
fn put_round(
    output: &mut Output,
    number: u32,
    over: bool,
    error: bool,
    offered: &List<Name>,
    roots: &List<Name>,
) -> Result<(), NoMemory>
    ensures { Adds result output.old output.new (round_spelled number over error offered.now roots.now) }
{
    put_heading(output, number, over, error)?;
    put_two_lists(output, offered, roots)
}

// ---- replies

#[tactic(auto, using(crate::proofs::Added::adds))]
fn put_named_value(output: &mut Output, named: &(Name, Value)) -> Result<(), NoMemory>
    ensures { Adds result output.old output.new (value_with_name_spelled MOST_NESTED named.now) }
{
    output.text(&named.0)?;
    put_value(output, &named.1, MOST_NESTED)
}

#[tactic(auto, using(crate::proofs::Added::adds))]
fn put_named_values(output: &mut Output, values: &[(Name, Value)]) -> Result<(), NoMemory>
    ensures { Adds result output.old output.new (values_with_names_spelled values.now) }
{
    output.count(values.len())?;
    for each in values {
        put_named_value(output, each)?;
    }
    Ok(())
}

#[tactic(auto, using(crate::proofs::Added::adds, crate::proofs::Rows::reply_rows))]
fn put_info(output: &mut Output, info: &Info) -> Result<(), NoMemory>
    ensures { Adds result output.old output.new (fields_spelled (info_shown info.now)) }
{
    output.u8(tags::INFO)?;
    output.u8(info.kind)?;
    output.u16(info.modifiers)?;
    output.text(&info.simple)?;
    output.text(&info.canonical)?;
    output.bool(info.varargs)
}

#[tactic(auto, using(crate::proofs::Added::adds))]
fn put_pair(output: &mut Output, tag: u8, number: u8) -> Result<(), NoMemory>
    ensures { Adds result output.old output.new (tag ∷ number ∷ []) }
{
    output.u8(tag)?;
    output.u8(number)
}

fn number_of_created(created: Created) -> u8
    ensures { result ≡ created_number created }
{
    match created {
        Created::Accepted => 0,
        Created::Exists => 1,
        Created::Unsupported => 2,
        Created::BadName => 3,
        Created::TooLarge => 4,
    }
}

fn number_of_refused(refused: Refused) -> u8
    ensures { result ≡ refused_number refused }
{
    match refused {
        Refused::NoSuch => 0,
        Refused::WrongKind => 1,
        Refused::TooDeep => 2,
        Refused::TooLarge => 3,
    }
}

#[tactic(auto, using(crate::proofs::Added::adds, crate::proofs::Rows::reply_rows))]
fn put_reply(output: &mut Output, reply: &Reply) -> Result<(), NoMemory>
    ensures { Adds result output.old output.new (fields_spelled (reply_shown reply.now)) }
{
    match reply {
        Reply::Elements(elements) => {
            output.u8(tags::ELEMENTS)?;
            put_elements(output, elements.as_slice())
        }
        Reply::Info(info) => put_info(output, info),
        Reply::Texts(texts) => {
            output.u8(tags::TEXTS)?;
            put_texts(output, texts.as_slice())
        }
        Reply::Annotations(annotations) => {
            output.u8(tags::ANNOTATIONS)?;
            put_annotations(output, annotations.as_slice(), MOST_NESTED)
        }
        Reply::Values(values) => {
            output.u8(tags::VALUES)?;
            put_named_values(output, values.as_slice())
        }
        Reply::Mirrors(mirrors) => {
            output.u8(tags::MIRRORS)?;
            put_mirrors(output, mirrors.as_slice(), MOST_NESTED)
        }
        Reply::Truth(truth) => {
            output.u8(tags::TRUTH)?;
            output.bool(*truth)
        }
        Reply::Created(created) => put_pair(output, tags::CREATED, number_of_created(*created)),
        Reply::Noted => output.u8(tags::NOTED),
        Reply::Refused(refused) => put_pair(output, tags::REFUSED, number_of_refused(*refused)),
    }
}

// ---- a child's frames

#[tactic(auto, using(crate::proofs::Added::adds))]
fn put_claim(output: &mut Output, claim: Claim) -> Result<(), NoMemory>
    ensures { Adds result output.old output.new (claim_number claim ∷ []) }
{
    output.u8(claim as u8)
}

#[tactic(auto, using(crate::proofs::Added::adds, crate::proofs::Rows::frame_rows))]
fn put_hello(output: &mut Output, hello: &Hello) -> Result<(), NoMemory>
    ensures { Adds result output.old output.new (fields_spelled (hello_shown hello.now)) }
{
    output.u8(tags::HELLO)?;
    put_texts(output, hello.patterns.as_slice())?;
    put_texts(output, hello.options.as_slice())?;
    put_claim(output, hello.claim)
}

#[tactic(auto, using(crate::proofs::Added::adds, crate::proofs::Rows::frame_rows))]
fn put_done(output: &mut Output, claimed: bool) -> Result<(), NoMemory>
    ensures { Adds result output.old output.new (fields_spelled (plain_frame 65, claimed)) }
{
    output.u8(tags::DONE)?;
    output.bool(claimed)
}

#[tactic(auto, using(crate::proofs::Added::adds))]
fn put_file(
    output: &mut Output,
    tag: u8,
    name: &Name,
    content: &List<u8>,
    origins: &List<ElementRef>,
) -> Result<(), NoMemory>
    ensures { Adds result output.old output.new (tag ∷ file_spelled name.now content.now origins.now) }
{
    output.u8(tag)?;
    output.text(name)?;
    output.bytes(content.as_slice())?;
    put_elements(output, origins.as_slice())
}

#[tactic(auto, using(crate::proofs::Added::adds, crate::proofs::Rows::frame_rows))]
fn put_resource(
    output: &mut Output,
    location: u8,
    folder: &Name,
    path: &Name,
    content: &List<u8>,
    origins: &List<ElementRef>,
) -> Result<(), NoMemory>
    ensures { AddsResource result output.old output.new location folder.now path.now content.now origins.now }
{
    output.u8(tags::RESOURCE)?;
    output.u8(location)?;
    output.text(folder)?;
    output.text(path)?;
    output.bytes(content.as_slice())?;
    put_elements(output, origins.as_slice())
}

#[tactic(auto, using(crate::proofs::Added::adds, crate::proofs::Rows::frame_rows))]
fn put_creation(output: &mut Output, creation: &Creation) -> Result<(), NoMemory>
    ensures { Adds result output.old output.new (fields_spelled (creation_shown creation.now)) }
{
    match creation {
        Creation::Source {
            name,
            content,
            origins,
        } => put_file(output, tags::SOURCE, name, content, origins),
        Creation::Resource {
            location,
            package,
            relative,
            content,
            origins,
        } => put_resource(output, *location, package, relative, content, origins),
        Creation::Class {
            name,
            content,
            origins,
        } => put_file(output, tags::CLASS, name, content, origins),
    }
}

#[tactic(auto, using(crate::proofs::Added::adds))]
fn put_optional_element(output: &mut Output, element: &Option<ElementRef>) -> Result<(), NoMemory>
    ensures { Adds result output.old output.new (opt_spelling {A = ElementRef} element_spelled element.now) }
{
    match element {
        None => output.u8(0),
        Some(element) => {
            output.u8(1)?;
            put_element(output, element)
        }
    }
}

#[tactic(auto, using(crate::proofs::Added::adds, crate::proofs::Rows::frame_rows))]
fn put_message(output: &mut Output, message: &Message) -> Result<(), NoMemory>
    ensures { Adds result output.old output.new (fields_spelled (message_shown message.now)) }
{
    output.u8(tags::MESSAGE)?;
    output.u8(message.kind)?;
    put_optional_element(output, &message.element)?;
    output.text(&message.text)
}

// ---- whole frames

#[tactic(auto, using(crate::proofs::Added::adds, crate::proofs::Rows::frame_rows))]
fn put_fields(output: &mut Output, frame: &Frame) -> Result<(), NoMemory>
    ensures { Adds result output.old output.new (fields_spelled (shown frame.now)) }
{
    match frame {
        Frame::Init(init) => put_init(output, init),
        Frame::Round {
            number,
            over,
            error,
            offered,
            roots,
        } => put_round(output, *number, *over, *error, offered, roots),
        Frame::Reply(reply) => put_reply(output, reply),
        Frame::Hello(hello) => put_hello(output, hello),
        Frame::Done { claimed } => put_done(output, *claimed),
        Frame::Create(creation) => put_creation(output, creation),
        Frame::Message(message) => put_message(output, message),
        Frame::Ask(question) => put_question(output, question),
    }
}

// The number of bytes in a frame's tag and fields, or the largest `usize` where there are more.
fn size_of(frame: &Frame) -> usize
    ensures { result ≡ counted 0 (length (fields_spelled (shown frame.now))) }
{
    let mut output = Output::Counted(0);
    match put_fields(&mut output, frame) {
        Ok(()) => output.size(),
        // No count fails.
        Err(_) => 0,
    }
}

// The length, and the tag and the fields.
fn written(alloc: Global, size: u32, frame: &Frame) -> Result<List<u8>, NoMemory>
    ensures { IfOk result (λ bytes. bytes ≡ to_be_bytes w32 size ++ fields_spelled (shown frame.now)) }
{
    let mut output = Output::Written(FieldWriter::new(alloc));
    output.u32(size)?;
    put_fields(&mut output, frame)?;
    Ok(output.into_bytes(alloc))
}

/// Whether a frame is too large to be sent: nested too deep, or too long. It takes no memory.
#[tactic(auto, unfolding(crate::specs::Limits::is_too_large, crate::specs::Spellings::fields_spelled))]
pub fn is_too_large(frame: &Frame) -> bool
    ensures { result ≡ is_too_large frame.now }
{
    nesting(frame) > MOST_NESTED as u32 || size_of(frame) > MAX_FRAME - 4
}

// The bytes of a frame, unless they are too many.
#[tactic(auto, unfolding(crate::specs::Frames::spelling, crate::specs::Spellings::fields_spelled))]
fn encoded(alloc: Global, frame: &Frame) -> Result<List<u8>, FrameFault>
    ensures spelled { IfOk result (λ bytes. bytes ≡ spelling frame.now) }
    ensures fits { OnOk result (length (spelling frame.now) ≤ MAX_FRAME) }
    ensures large { IsErrOf result faults.TooLarge → is_too_long frame.now ≡ true }
    ensures past { is_too_long frame.now ≡ true → result ≡ Err faults.TooLarge }
{
    let size = size_of(frame);
    if size > MAX_FRAME - 4 {
        return Err(FrameFault::TooLarge);
    }
    Ok(written(alloc, size as u32, frame)?)
}

/// The bytes of a frame: the length of its tag and fields in four bytes, the tag, and the fields in
/// order.
///
/// `TooLarge` comes exactly where these would be more than `MAX_FRAME`, or where the frame holds mirrors or values that
/// are nested more than 256 deep, and before any memory is taken, so that no such frame is answered `Memory`, the other
/// error. Nothing is ever left out. Every other value of `Frame` has its bytes, also one that no frame is read as: a
/// number that is out of its range, a text that repeats where none may, or one that does not ascend, is spelled as it is.
pub fn encode(alloc: Global, frame: &Frame) -> Result<List<u8>, FrameFault>
    ensures spelled { IfOk result (λ bytes. bytes ≡ spelling frame.now) }
    ensures large { IsErrOf result faults.TooLarge → is_too_large frame.now ≡ true }
    ensures past { is_too_large frame.now ≡ true → result ≡ Err faults.TooLarge }
    // A frame that the table has is read back from these bytes, and no other one.
    ensures again { IsInTable frame.now → IfOk result (λ bytes. AreBytesOf bytes frame.now) }
{
    if nesting(frame) > MOST_NESTED as u32 {
        return Err(FrameFault::TooLarge);
    }
    encoded(alloc, frame)
}
