// The processor `chain`.
ghost use Rattle.std.specs.Prelude.{◌≡◌, filter_map, IfOk};
ghost use Rattle.local_procs.specs.Contents.{first_in};
ghost use Rattle.type_mirror.specs.declared.value.Value.{out-Value};
ghost use Rattle.local_procs.specs.Chain.{chains, number_in, whole_in, count_of, count_in, links_in, text_of, after_info, after_annotations};
ghost use Rattle.local_procs.specs.Stages.{plan_by, Falls, chain_go, chain_rank};

use crate::class_text::{in_package_of, is_class, source_of};
use crate::contents::{about, annotations_in, info_in, is_annotation_of};
use apt_base::{ElementRef, List, Name, NoMemory};
use frame_forms::ElementQuestion;
use std::alloc::Global;
use type_mirror::{Annotation, NamedValue, Value};
use wire_frames::{Frame, Info, Reply};

const CHAINED: &str = "apt.demo.Chain";

/// What `chain` waits for, of a root.
#[derive(Drop)]
pub(crate) enum ChainStage {
    /// What it is.
    Info,
    /// The annotations that are written on it.
    Annotations {
        /// What it is.
        info: Info,
    },
    /// What became of its file.
    Last,
}

type Step = Option<(Frame, ChainStage)>;

fn number_in(number: i64) -> Option<u64>
    ensures { result ≡ number_in number }
{
    if 1 <= number && number <= 1000 {
        Some(number as u64)
    } else {
        None
    }
}

fn whole_in(value: &Value) -> Option<u64>
    ensures { result ≡ whole_in (out-Value value.now) }
{
    match value {
        Value::Whole(_, number) => number_in(*number),
        _ => None,
    }
}

fn count_of(named: &NamedValue) -> Option<u64>
    ensures { result ≡ count_of named.now }
{
    if named.name.as_str() == "value" {
        whole_in(&named.value)
    } else {
        None
    }
}

fn first_count(values: &[NamedValue]) -> Option<u64>
    ensures { result ≡ first_in (filter_map count_of values.now) }
{
    for named in values {
        if let Some(number) = count_of(named) {
            return Some(number);
        }
    }
    None
}

fn count_in(annotation: &Annotation) -> Option<u64>
    ensures { result ≡ count_in annotation.now }
{
    if is_annotation_of(CHAINED, annotation) {
        first_count(annotation.values.as_slice())
    } else {
        None
    }
}

// The first number from 1 to 1,000 that an `apt.demo.Chain` of a reply has.
#[tactic(auto, unfolding(crate::specs::Chain::links_in))]
fn links_in(reply: &Reply) -> Option<u64>
    ensures { result ≡ links_in reply.now }
{
    for annotation in annotations_in(reply) {
        if let Some(number) = count_in(annotation) {
            return Some(number);
        }
    }
    None
}

// The content of the file.
fn text_of(alloc: Global, info: &Info, number: u64) -> Result<List<u8>, NoMemory>
    ensures { IfOk result (λ text. text ≡ text_of info.now number) }
{
    let less = format!(in alloc; "{}", number.saturating_sub(1))?;
    let mut text = in_package_of(alloc, info)?;
    text.add("@apt.demo.Chain(")?;
    text.add(less.as_str())?;
    text.add(")\npublic class ")?;
    text.add(info.simple.as_str())?;
    text.add("_ {\n}\n")?;
    Ok(text.into_bytes())
}

#[tactic(auto, unfolding(crate::specs::Chain::after_annotations))]
fn after_annotations(
    alloc: Global,
    root: &ElementRef,
    info: &Info,
    reply: &Reply,
) -> Result<Step, NoMemory>
    ensures plan { IfOk result (λ step. plan_by (chain_go root.now) step ≡ after_annotations root.now info.now reply.now) }
    ensures falls { IfOk result (Falls chain_rank 1) }
{
    match links_in(reply) {
        Some(number) => {
            let content = text_of(alloc, info, number)?;
            let canonical = info.canonical.as_str();
            let name = Name::from_string(alloc, format!(in alloc; "{canonical}_")?);
            let frame = source_of(alloc, root, name, content)?;
            Ok(Some((frame, ChainStage::Last)))
        }
        None => Ok(None),
    }
}

#[tactic(auto, unfolding(crate::specs::Chain::after_info))]
fn after_info(alloc: Global, root: &ElementRef, reply: &Reply) -> Result<Step, NoMemory>
    ensures plan { IfOk result (λ step. plan_by (chain_go root.now) step ≡ after_info root.now reply.now) }
    ensures falls { IfOk result (Falls chain_rank 2) }
{
    match info_in(reply) {
        Some(info) => {
            if !is_class(info.kind) {
                return Ok(None);
            }
            let info = info.copy()?;
            let frame = about(alloc, ElementQuestion::Annotations, root)?;
            Ok(Some((frame, ChainStage::Annotations { info })))
        }
        None => Ok(None),
    }
}

/// What `chain` does for a root first.
pub(crate) fn chain_first(alloc: Global, root: &ElementRef) -> Result<Step, NoMemory>
    ensures { IfOk result (λ step. plan_by (chain_go root.now) step ≡ chains root.now) }
{
    let frame = about(alloc, ElementQuestion::Info, root)?;
    Ok(Some((frame, ChainStage::Info)))
}

/// What it does next, by the reply for which it waits.
pub(crate) fn chain_next(
    alloc: Global,
    root: &ElementRef,
    stage: ChainStage,
    reply: &Reply,
) -> Result<Step, NoMemory>
    ensures plan { IfOk result (λ step. plan_by (chain_go root.now) step ≡ chain_go root.now stage reply.now) }
    ensures falls { IfOk result (Falls chain_rank (chain_rank stage)) }
{
    match stage {
        ChainStage::Info => after_info(alloc, root, reply),
        ChainStage::Annotations { info } => after_annotations(alloc, root, &info, reply),
        ChainStage::Last => Ok(None),
    }
}
