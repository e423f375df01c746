// The reply to a question.
ghost use Rattle.std.specs.Prelude.{◌≡◌, Some, IfOk, IfSome};
ghost use Rattle.wire_frames.specs.declared.frame.Frame.TheVariants as frames;
ghost use Rattle.wire_frames.specs.declared.reply.Refused.TheVariants as refused;
ghost use Rattle.wire_frames.specs.declared.reply.Reply.TheVariants as reply;
ghost use Rattle.wire_frames.specs.Frames.{spelling};
ghost use Rattle.child_answers.specs.Replies as replies;
ghost use Rattle.child_answers.specs.Replies.{judged_answer, refusal_of, reply_of};

use crate::answers::judged;
use apt_base::{List, NoMemory};
use child_questions::QueryFault;
use element_table::Table;
use round_env::RoundEnv;
use std::alloc::Global;
use wire_frames::{Frame, FrameFault, Question, Refused, Reply, encode, is_too_large};

// ---- what a child is told

/// What a child is told of a fault.
pub(crate) fn refused(fault: QueryFault) -> Result<Reply, NoMemory>
    ensures { IfOk result (λ told. refusal_of fault ≡ Some told) }
{
    match fault {
        QueryFault::NoSuch => Ok(Reply::Refused(Refused::NoSuch)),
        QueryFault::WrongKind => Ok(Reply::Refused(Refused::WrongKind)),
        QueryFault::TooDeep => Ok(Reply::Refused(Refused::TooDeep)),
        QueryFault::Memory => Err(NoMemory),
    }
}

// The reply, however large it is.
#[tactic(auto, using(crate::proofs::ToldReplies::telling))]
fn reply(
    alloc: Global,
    table: &Table,
    env: &RoundEnv,
    question: &Question,
) -> Result<Reply, NoMemory>
    ensures { IfOk result
        (λ told. told ≡ replies.reply_by (judged_answer table.now env.now.roots question.now)) }
{
    match judged(alloc, table, env, question) {
        Ok(reply) => Ok(reply),
        Err(fault) => {
            let told = refused(fault)?;
            Ok(told)
        }
    }
}

// ---- its size

// The reply in a frame, if the frame is one.
fn reply_in(frame: Frame) -> Option<Reply>
    ensures { IfSome result (λ reply. frame ≡ frames.Reply reply) }
{
    match frame {
        Frame::Reply(reply) => Some(reply),
        other => {
            drop(other);
            None
        }
    }
}

/// The reply, unless no frame holds it.
#[tactic(auto, using(crate::proofs::ToldReplies::sizes))]
pub(crate) fn unless_too_large(reply: Reply) -> Result<Reply, NoMemory>
    ensures { IfOk result (λ told. told ≡ replies.unless_too_large reply) }
{
    let frame = Frame::Reply(reply);
    if is_too_large(&frame) {
        drop(frame);
        return Ok(Reply::Refused(Refused::TooLarge));
    }
    match reply_in(frame) {
        Some(reply) => Ok(reply),
        None => Err(NoMemory),
    }
}

// The bytes of the refusal of a reply that is too large, which is not too large itself.
fn framed_refusal(alloc: Global) -> Result<List<u8>, NoMemory>
    ensures { IfOk result
        (λ bytes. bytes ≡ spelling (frames.Reply (reply.Refused refused.TooLarge))) }
{
    let frame = Frame::Reply(Reply::Refused(Refused::TooLarge));
    let bytes = encode(alloc, &frame);
    drop(frame);
    match bytes {
        Ok(bytes) => Ok(bytes),
        Err(_) => Err(NoMemory),
    }
}

/// The bytes of the frame of a reply, unless no frame holds it.
#[tactic(auto, using(crate::proofs::ToldReplies::spelled))]
pub(crate) fn framed(alloc: Global, reply: Reply) -> Result<List<u8>, NoMemory>
    ensures { IfOk result
        (λ bytes. bytes ≡ spelling (frames.Reply (replies.unless_too_large reply))) }
{
    let frame = Frame::Reply(reply);
    let bytes = encode(alloc, &frame);
    drop(frame);
    match bytes {
        Ok(bytes) => Ok(bytes),
        Err(FrameFault::TooLarge) => {
            let refusal = framed_refusal(alloc)?;
            Ok(refusal)
        }
        Err(FrameFault::Memory) => Err(NoMemory),
    }
}

// ---- the call

/// The reply to a question in a round (`reply_of`): the first of NoSuch, WrongKind, TooDeep and TooLarge that stands
/// against it, or else what its row of the table of questions names. The only error is `NoMemory`.
#[tactic(auto, unfolding(crate::specs::Replies::reply_of))]
pub fn answer(
    alloc: Global,
    table: &Table,
    env: &RoundEnv,
    question: &Question,
) -> Result<Reply, NoMemory>
    ensures { IfOk result (λ reply. reply ≡ reply_of table.now env.now.roots question.now) }
{
    let given = reply(alloc, table, env, question)?;
    let told = unless_too_large(given)?;
    Ok(told)
}
