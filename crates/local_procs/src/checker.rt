// The processor `checker`.
ghost use Rattle.std.specs.Prelude.{◌≡◌, IfOk};
ghost use Rattle.local_procs.specs.Checker.{says_at, is_type, begins_in_lower_case, checks, after_info, after_comment, after_annotations};
ghost use Rattle.local_procs.specs.Stages.{plan_by, Falls, check_go, check_rank};

use crate::contents::{about, carries, has_text, info_in, message_at};
use apt_base::{ElementRef, Name, NoMemory};
use frame_forms::ElementQuestion;
use std::alloc::Global;
use wire_frames::{Frame, Info, Reply};

const CHECKED: &str = "apt.demo.Checked";

/// What `checker` waits for, of a root.
#[derive(Drop)]
pub(crate) enum CheckStage {
    /// What it is.
    Info,
    /// The annotations on it, inherited ones among them.
    Annotations {
        /// Its simple name.
        simple: Name,
    },
    /// Its documentation comment.
    Comment,
    /// That its message is noted.
    Last,
}

type Step = Option<(Frame, CheckStage)>;

// Whether a kind is that of an enum, a class, an annotation interface or an interface.
fn is_type(kind: u8) -> bool
    ensures { result ≡ is_type kind }
{
    1 <= kind && kind <= 4
}

fn begins_in_lower_case(name: &str) -> bool
    ensures { result ≡ begins_in_lower_case name.now }
{
    match name.as_bytes() {
        [first, ..] => 97 <= *first && *first <= 122,
        _ => false,
    }
}

fn says_at(alloc: Global, kind: u8, root: &ElementRef, text: &str) -> Result<Step, NoMemory>
    ensures plan { IfOk result (λ step. plan_by (check_go root.now) step ≡ says_at kind root.now text.now) }
    ensures falls { IfOk result (Falls check_rank 1) }
{
    let frame = message_at(alloc, kind, root, text)?;
    Ok(Some((frame, CheckStage::Last)))
}

#[tactic(auto, unfolding(crate::specs::Checker::after_info))]
fn after_info(alloc: Global, root: &ElementRef, reply: &Reply) -> Result<Step, NoMemory>
    ensures plan { IfOk result (λ step. plan_by (check_go root.now) step ≡ after_info root.now reply.now) }
    ensures falls { IfOk result (Falls check_rank 3) }
{
    match info_in(reply) {
        Some(info) => {
            if !is_type(info.kind) {
                return Ok(None);
            }
            let simple = info.simple.copy()?;
            let frame = about(alloc, ElementQuestion::AllAnnotations, root)?;
            Ok(Some((frame, CheckStage::Annotations { simple })))
        }
        None => Ok(None),
    }
}

#[tactic(auto, unfolding(crate::specs::Checker::after_annotations))]
fn after_annotations(
    alloc: Global,
    root: &ElementRef,
    simple: &Name,
    reply: &Reply,
) -> Result<Step, NoMemory>
    ensures plan { IfOk result (λ step. plan_by (check_go root.now) step ≡ after_annotations root.now simple.now reply.now) }
    ensures falls { IfOk result (Falls check_rank 2) }
{
    if !carries(CHECKED, reply) {
        return Ok(None);
    }
    if begins_in_lower_case(simple.as_str()) {
        return says_at(alloc, 0, root, "name begins in lower case");
    }
    let frame = about(alloc, ElementQuestion::DocComment, root)?;
    Ok(Some((frame, CheckStage::Comment)))
}

#[tactic(auto, unfolding(crate::specs::Checker::after_comment))]
fn after_comment(alloc: Global, root: &ElementRef, reply: &Reply) -> Result<Step, NoMemory>
    ensures plan { IfOk result (λ step. plan_by (check_go root.now) step ≡ after_comment root.now reply.now) }
    ensures falls { IfOk result (Falls check_rank 1) }
{
    if has_text(reply) {
        return Ok(None);
    }
    says_at(alloc, 1, root, "no doc comment")
}

/// What `checker` does for a root first.
pub(crate) fn check_first(alloc: Global, root: &ElementRef) -> Result<Step, NoMemory>
    ensures { IfOk result (λ step. plan_by (check_go root.now) step ≡ checks root.now) }
{
    let frame = about(alloc, ElementQuestion::Info, root)?;
    Ok(Some((frame, CheckStage::Info)))
}

/// What it does next, by the reply for which it waits.
pub(crate) fn check_next(
    alloc: Global,
    root: &ElementRef,
    stage: CheckStage,
    reply: &Reply,
) -> Result<Step, NoMemory>
    ensures plan { IfOk result (λ step. plan_by (check_go root.now) step ≡ check_go root.now stage reply.now) }
    ensures falls { IfOk result (Falls check_rank (check_rank stage)) }
{
    match stage {
        CheckStage::Info => after_info(alloc, root, reply),
        CheckStage::Annotations { simple } => after_annotations(alloc, root, &simple, reply),
        CheckStage::Comment => after_comment(alloc, root, reply),
        CheckStage::Last => Ok(None),
    }
}
