// What a reply holds, and the frames that are sent.
ghost use Rattle.std.specs.Prelude.{◌≡◌, is_some, take, IfOk};
ghost use Rattle.std.specs.Option.{option_copied};
ghost use Rattle.type_mirror.specs.declared.mirror.BaseMirror.{out-BaseMirror};
ghost use Rattle.local_procs.specs.Contents.{elements_in, info_in, annotations_in, text_in, mirror_in, is_accepted, is_unit_itself, is_declared_of, is_type_of, is_annotation_of, carries, about, message_at, roots_frame};

use apt_base::{ElementRef, List, Name, NoMemory};
use frame_forms::ElementQuestion;
use std::alloc::Global;
use type_mirror::{Annotation, BaseMirror, Mirror};
use wire_frames::{Created, Frame, Info, Message, Question, Reply};

/// The facts of an element, where the reply has them.
pub(crate) fn info_in(reply: &Reply) -> Option<&Info>
    ensures { option_copied result ≡ info_in reply.now }
{
    match reply {
        Reply::Info(info) => Some(info),
        _ => None,
    }
}

/// Whether a reply has a text.
pub(crate) fn has_text(reply: &Reply) -> bool
    ensures { result ≡ is_some (text_in reply.now) }
{
    match reply {
        Reply::Texts(texts) => !texts.is_empty(),
        _ => false,
    }
}

/// The annotations of a reply.
pub(crate) fn annotations_in(reply: &Reply) -> &[Annotation]
    ensures { result.now ≡ annotations_in reply.now }
{
    match reply {
        Reply::Annotations(annotations) => annotations.as_slice(),
        _ => &[],
    }
}

// Whether an element is the top-level type of this name.
fn is_unit_itself(name: &str, element: &ElementRef) -> bool
    ensures { result ≡ is_unit_itself name.now element.now }
{
    element.unit.as_str() == name && element.path.is_empty()
}

fn is_declared_of(name: &str, base: &BaseMirror) -> bool
    ensures { result ≡ is_declared_of name.now (out-BaseMirror base.now) }
{
    match base {
        BaseMirror::Declared(declared) => is_unit_itself(name, &declared.element),
        _ => false,
    }
}

// Whether a mirror is the class or interface type with the name of its unit.
fn is_type_of(name: &str, mirror: &Mirror) -> bool
    ensures { result ≡ is_type_of name.now mirror.now }
{
    mirror.around.is_empty() && is_declared_of(name, &mirror.base)
}

/// Whether an annotation has this name.
pub(crate) fn is_annotation_of(name: &str, annotation: &Annotation) -> bool
    ensures { result ≡ is_annotation_of name.now annotation.now }
{
    is_type_of(name, &annotation.annotation_type)
}

/// Whether an annotation of this name is among those of a reply.
#[tactic(auto, unfolding(crate::specs::Contents::carries))]
pub(crate) fn carries(name: &str, reply: &Reply) -> bool
    ensures { result ≡ carries name.now reply.now }
{
    for annotation in annotations_in(reply) {
        if is_type_of(name, &annotation.annotation_type) {
            return true;
        }
    }
    false
}

/// A question about an element.
pub(crate) fn about(
    alloc: Global,
    asked: ElementQuestion,
    element: &ElementRef,
) -> Result<Frame, NoMemory>
    ensures { IfOk result (λ frame. frame ≡ about asked element.now) }
{
    Ok(Frame::Ask(Question::Element(asked, element.copy(alloc)?)))
}

/// A message at an element.
pub(crate) fn message_at(
    alloc: Global,
    kind: u8,
    element: &ElementRef,
    text: &str,
) -> Result<Frame, NoMemory>
    ensures { IfOk result (λ frame. frame ≡ message_at kind element.now text.now) }
{
    let text = Name::new(alloc, text)?;
    let element = Some(element.copy(alloc)?);
    Ok(Frame::Message(Message {
        kind,
        element,
        text,
    }))
}

fn copied(alloc: Global, elements: &[ElementRef]) -> Result<List<ElementRef>, NoMemory>
    ensures { IfOk result (λ list. list ≡ elements.now) }
{
    let mut copies = List::new(alloc);
    for each in elements {
        copies.push(each.copy(alloc)?)?;
    }
    Ok(copies)
}

/// The elements of a reply.
pub(crate) fn elements_in(alloc: Global, reply: &Reply) -> Result<List<ElementRef>, NoMemory>
    ensures { IfOk result (λ elements. elements ≡ elements_in reply.now) }
{
    copied(alloc, elements_of(reply))
}

/// The same where they stand.
pub(crate) fn elements_of(reply: &Reply) -> &[ElementRef]
    ensures { result.now ≡ elements_in reply.now }
{
    match reply {
        Reply::Elements(elements) => elements.as_slice(),
        _ => &[],
    }
}

/// The question of the round's roots.
pub(crate) fn frame_of_roots() -> Frame
    ensures { result ≡ roots_frame }
{
    Frame::Ask(Question::Roots)
}

fn first_copied(
    alloc: Global,
    most: usize,
    elements: &[ElementRef],
) -> Result<List<ElementRef>, NoMemory>
    ensures { IfOk result (λ list. list ≡ take most elements.now) }
{
    if elements.len() <= most {
        return copied(alloc, elements);
    }
    copied(alloc, &elements[..most])
}

/// The first elements of a reply, at most this many.
pub(crate) fn first_elements(
    alloc: Global,
    most: usize,
    reply: &Reply,
) -> Result<List<ElementRef>, NoMemory>
    ensures { IfOk result (λ elements. elements ≡ take most (elements_in reply.now)) }
{
    first_copied(alloc, most, elements_of(reply))
}

/// The first type of a reply.
pub(crate) fn first_mirror(reply: &Reply) -> Option<&Mirror>
    ensures { option_copied result ≡ mirror_in reply.now }
{
    match reply {
        Reply::Mirrors(mirrors) => mirrors.get(0),
        _ => None,
    }
}

/// The first text of a reply.
pub(crate) fn first_text(reply: &Reply) -> Option<&Name>
    ensures { option_copied result ≡ text_in reply.now }
{
    match reply {
        Reply::Texts(texts) => texts.get(0),
        _ => None,
    }
}

/// Whether a creation was accepted.
pub(crate) fn is_accepted(reply: &Reply) -> bool
    ensures { result ≡ is_accepted reply.now }
{
    match reply {
        Reply::Created(Created::Accepted) => true,
        _ => false,
    }
}
