// Serves what a child asks for.
ghost use Rattle.std.specs.Prelude.{◌≡◌, ◌++◌, false, IfOk, OnOk, OnErr};
ghost use Rattle.std.specs.Option.{option_to_list};
ghost use Rattle.child_answers.specs.Replies.{reply_of};
ghost use Rattle.child_session.specs.declared.request.Request.TheVariants as requests;
ghost use Rattle.child_session.specs.Notes.{with_question, noted_with};
ghost use Rattle.child_session.specs.Replies.{shown_of, by_tests, creation_reply, message_reply, message_by, file_by, is_refusal};
ghost use Rattle.child_session.specs.Replies.{reply_frame, filed_with, filed_after};
ghost use Rattle.child_session.specs.Round.{Served, exchange_with};
ghost use Rattle.wire_frames.specs.Frames.{spelling};
ghost use Rattle.wire_frames.specs.Limits.{is_too_large};
ghost use Rattle.wire_frames.specs.declared.frame.Frame.TheVariants as frames;

use crate::noted::Noted;
use crate::request::Request;
use apt_base::{List, NoMemory};
use apt_filer::Filer;
use child_answers::{Answering, is_creation_there, is_message_there};
use element_table::Table;
use round_env::RoundEnv;
use std::alloc::Global;
use wire_frames::{
    Created, Creation, Frame, FrameFault, Message, Question, Refused, Reply, encode,
};

// The bytes of a reply that is not too large to be sent.
fn reply_bytes(alloc: Global, reply: Reply) -> Result<List<u8>, NoMemory>
    requires fits { is_too_large (frames.Reply reply) ≡ false }
    ensures { IfOk result (λ bytes. bytes ≡ spelling (frames.Reply reply)) }
{
    let frame = Frame::Reply(reply);
    let encoded = encode(alloc, &frame);
    drop(frame);
    match encoded {
        Ok(bytes) => Ok(bytes),
        Err(FrameFault::TooLarge) => unreachable!(),
        Err(FrameFault::Memory) => Err(NoMemory),
    }
}

// Whether a reply says that a file was not accepted.
fn is_refusal(reply: &Reply) -> bool
    ensures { result ≡ is_refusal reply.now }
{
    match reply {
        Reply::Created(Created::Accepted) => false,
        Reply::Created(_) => true,
        _ => false,
    }
}

/// Answers a question, and notes it.
fn ask(
    alloc: Global,
    answering: &mut Answering<'_>,
    env: &RoundEnv,
    question: &Question,
    noted: &mut Noted,
) -> Result<List<u8>, NoMemory>
    ensures reply { IfOk result
        (λ bytes. bytes ≡ spelling (frames.Reply (reply_of answering.old env.now.roots question.now))) }
    ensures kept { answering.new ≡ answering.old }
    ensures noted { OnOk result (noted.new ≡ with_question (shown_of answering.old env.now) noted.old question.now) }
{
    let bytes = answering.frame(env, question)?;
    noted.add_question(alloc, answering.table(), env, question)?;
    Ok(bytes)
}

/// Creates a file whose originating elements are all there, and gives the reply. Out of memory leaves the filer as it
/// was.
#[tactic(auto, using(crate::proofs::ShortReplies::short))]
fn create(table: &Table, filer: &mut Filer, creation: Creation) -> Result<Reply, NoMemory>
    ensures reply { IfOk result (λ reply. reply ≡ creation_reply by_tests table.now filer.old.taken creation) }
    ensures fits { IfOk result (λ reply. is_too_large (frames.Reply reply) ≡ false) }
    ensures filed { IfOk result (λ reply. filer.new ≡ filed_with filer.old (file_by (requests.Create creation) reply)) }
    ensures unfiled { OnErr result (filer.new ≡ filer.old) }
{
    if !is_creation_there(table, &creation) {
        drop(creation);
        return Ok(Reply::Refused(Refused::NoSuch));
    }
    let created = filer.create(creation)?;
    Ok(Reply::Created(created))
}

/// Prints a message whose element is there, if it names one, and gives the reply.
#[tactic(auto, using(crate::proofs::ShortReplies::short))]
fn print(table: &Table, printed: &mut List<Message>, message: Message) -> Result<Reply, NoMemory>
    ensures reply { IfOk result (λ reply. reply ≡ message_reply table.now message) }
    ensures fits { IfOk result (λ reply. is_too_large (frames.Reply reply) ≡ false) }
    ensures printed { IfOk result (λ reply.
        printed.new ≡ printed.old ++ option_to_list (message_by (requests.Print message) reply)) }
{
    if !is_message_there(table, &message) {
        drop(message);
        return Ok(Reply::Refused(Refused::NoSuch));
    }
    printed.push(message)?;
    Ok(Reply::Noted)
}

/// Does what a child asks for, notes it, and gives the frame of the reply.
#[tactic(auto, unfolding(crate::specs::Replies::reply_to))]
pub(crate) fn serve(
    alloc: Global,
    answering: &mut Answering<'_>,
    env: &RoundEnv,
    request: Request,
    filer: &mut Filer,
    noted: &mut Noted,
) -> Result<List<u8>, NoMemory>
    ensures reply { IfOk result
        (λ bytes. bytes ≡ reply_frame (exchange_with (shown_of answering.old env.now) filer.old request)) }
    ensures kept { answering.new ≡ answering.old }
    ensures served { Served (exchange_with (shown_of answering.old env.now) filer.old request) filer.old filer.new }
    ensures filed { OnOk result
        (filer.new ≡ filed_after filer.old (exchange_with (shown_of answering.old env.now) filer.old request)) }
    ensures noted { OnOk result (noted.new ≡ noted_with (shown_of answering.old env.now) noted.old
        (exchange_with (shown_of answering.old env.now) filer.old request)) }
{
    match request {
        Request::Ask(question) => {
            let bytes = ask(alloc, answering, env, &question, noted)?;
            drop(question);
            Ok(bytes)
        }
        Request::Create(creation) => {
            let reply = create(answering.table(), filer, creation)?;
            noted.refused = noted.refused || is_refusal(&reply);
            reply_bytes(alloc, reply)
        }
        Request::Print(message) => {
            let reply = print(answering.table(), &mut noted.messages, message)?;
            reply_bytes(alloc, reply)
        }
    }
}
