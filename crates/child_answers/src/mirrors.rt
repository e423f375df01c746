// The answers about one mirror, a function for each row.
ghost use Rattle.std.specs.Prelude.{◌≡◌, [], Some, IfOk};
ghost use Rattle.std.specs.Option.{option_copied};
ghost use Rattle.apt_base.specs.Limits.{max_type_steps};
ghost use Rattle.type_layers.specs.Layers.{array_of, layer, layer_in};
ghost use Rattle.type_relations.specs.Boxed as boxes;
ghost use Rattle.type_relations.specs.Direct as directs;
ghost use Rattle.type_relations.specs.Erasure.{erasure};
ghost use Rattle.type_texts.specs.Print as texts;
ghost use Rattle.child_questions.specs.Verdicts.{Gives, value};
ghost use Rattle.child_answers.specs.Replies.{element_in, in_reply, mirror_answer, of_its_kind};
ghost use Rattle.child_answers.specs.Replies.{with_element, with_mirror, with_mirrors, with_text};

use crate::lists::{list_of, list_of_found};
use apt_base::{ElementRef, MAX_TYPE_STEPS, NoMemory};
use child_questions::QueryFault;
use element_table::Table;
use frame_forms::MirrorQuestion;
use std::alloc::Global;
use type_mirror::{Around, BaseMirror, Mirror};
use type_relations::{array_of, box_of, boxed_kind, direct, erasure_within, primitive_of};
use type_texts::text_of;
use wire_frames::Reply;

// ---- types

fn direct_supertypes(alloc: Global, table: &Table, of: &Mirror) -> Result<Reply, QueryFault>
    ensures { Gives result (in_reply with_mirrors (value (directs.direct table.now of.now))) }
{
    match direct(alloc, table, of)? {
        None => Err(QueryFault::TooDeep),
        Some(list) => Ok(Reply::Mirrors(list)),
    }
}

fn erased(alloc: Global, table: &Table, of: &Mirror) -> Result<Reply, QueryFault>
    ensures { Gives result (in_reply with_mirror (value (erasure table.now max_type_steps of.now))) }
{
    match erasure_within(alloc, table, MAX_TYPE_STEPS, of)? {
        None => Err(QueryFault::TooDeep),
        Some(mirror) => {
            let list = list_of(alloc, mirror)?;
            Ok(Reply::Mirrors(list))
        }
    }
}

#[tactic(auto, unfolding(type_relations::specs::Boxed::boxed))]
fn boxed(alloc: Global, table: &Table, of: &Mirror) -> Result<Reply, QueryFault>
    ensures { Gives result (in_reply with_mirror (of_its_kind (boxes.boxed table.now of.now))) }
{
    match primitive_of(of) {
        None => Err(QueryFault::WrongKind),
        Some(kind) => {
            let mirror = box_of(alloc, table, kind)?;
            let list = list_of(alloc, mirror)?;
            Ok(Reply::Mirrors(list))
        }
    }
}

#[tactic(auto, unfolding(type_relations::specs::Boxed::unboxed, type_layers::specs::Layers::mirror_of))]
fn unboxed(alloc: Global, table: &Table, of: &Mirror) -> Result<Reply, QueryFault>
    ensures { Gives result (in_reply with_mirror (of_its_kind (boxes.unboxed table.now of.now))) }
{
    match boxed_kind(alloc, table, of)? {
        None => Err(QueryFault::WrongKind),
        Some(kind) => {
            let mirror = Mirror::plain(alloc, BaseMirror::Primitive(kind));
            let list = list_of(alloc, mirror)?;
            Ok(Reply::Mirrors(list))
        }
    }
}

fn array_with(alloc: Global, item: &Mirror) -> Result<Reply, QueryFault>
    ensures { Gives result (with_mirror (array_of item.now)) }
{
    let copy = item.copy(alloc)?;
    let mirror = array_of(alloc, copy)?;
    let list = list_of(alloc, mirror)?;
    Ok(Reply::Mirrors(list))
}

// ---- elements and texts

fn base_element(base: &BaseMirror) -> Option<&ElementRef>
    ensures { option_copied result ≡ element_in (layer_in [] base.now) }
{
    match base {
        BaseMirror::Declared(declared) => Some(&declared.element),
        BaseMirror::Variable(at) => Some(at),
        _ => None,
    }
}

// The element of a class type or of a type variable.
#[tactic(auto, unfolding(type_layers::specs::Layers::layer))]
fn element_in(of: &Mirror) -> Option<&ElementRef>
    ensures { option_copied result ≡ element_in (layer of.now) }
{
    match of.around.as_slice() {
        [Around::Array, ..] => None,
        [Around::Extends, ..] => None,
        [Around::Super, ..] => None,
        [] => base_element(&of.base),
    }
}

fn copied_element(alloc: Global, at: Option<&ElementRef>) -> Result<Option<ElementRef>, NoMemory>
    ensures { IfOk result (λ copy. copy ≡ option_copied at.entry) }
{
    match at {
        None => Ok(None),
        Some(at) => Ok(Some(at.copy(alloc)?)),
    }
}

fn element_of(alloc: Global, of: &Mirror) -> Result<Reply, QueryFault>
    ensures { Gives result (with_element (element_in (layer of.now))) }
{
    let at = copied_element(alloc, element_in(of))?;
    let list = list_of_found(alloc, at)?;
    Ok(Reply::Elements(list))
}

fn printed(alloc: Global, table: &Table, of: &Mirror) -> Result<Reply, QueryFault>
    ensures { Gives result (with_text (Some (texts.text_of table.now of.now))) }
{
    let text = text_of(alloc, table, of)?;
    let list = list_of(alloc, text)?;
    Ok(Reply::Texts(list))
}

// ---- all of them

/// The answer to a question about a mirror.
#[tactic(auto, unfolding(crate::specs::Replies::mirror_answer))]
pub(crate) fn about_mirror(
    alloc: Global,
    table: &Table,
    question: MirrorQuestion,
    of: &Mirror,
) -> Result<Reply, QueryFault>
    ensures { Gives result (mirror_answer table.now question of.now) }
{
    match question {
        MirrorQuestion::DirectSupertypes => direct_supertypes(alloc, table, of),
        MirrorQuestion::Erasure => erased(alloc, table, of),
        MirrorQuestion::Boxed => boxed(alloc, table, of),
        MirrorQuestion::Unboxed => unboxed(alloc, table, of),
        MirrorQuestion::AsElement => element_of(alloc, of),
        MirrorQuestion::PrintType => printed(alloc, table, of),
        MirrorQuestion::ArrayType => array_with(alloc, of),
    }
}
