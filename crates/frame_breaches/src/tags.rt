// The tags of frames.
ghost use Rattle.std.specs.Prelude.{◌≡◌};
ghost use Rattle.frame_breaches.specs.Breaches.{tag_of, stray};
ghost use Rattle.wire_frames.specs.declared.frame.Frame.TheVariants as frames;

use crate::Breach;
use wire_frames::tags::{
    ANNOTATIONS, CLASS, CREATED, DONE, ELEMENTS, HELLO, INFO, INIT, MESSAGE, MIRRORS, NOTED,
    REFUSED, RESOURCE, ROUND, SOURCE, TEXTS, TRUTH, VALUES,
};
use wire_frames::{Creation, Frame, Question, Reply};

fn reply_tag(reply: &Reply) -> u8
    ensures { result ≡ tag_of (frames.Reply reply.now) }
{
    match reply {
        Reply::Elements(_) => ELEMENTS,
        Reply::Info(_) => INFO,
        Reply::Texts(_) => TEXTS,
        Reply::Annotations(_) => ANNOTATIONS,
        Reply::Values(_) => VALUES,
        Reply::Mirrors(_) => MIRRORS,
        Reply::Truth(_) => TRUTH,
        Reply::Created(_) => CREATED,
        Reply::Noted => NOTED,
        Reply::Refused(_) => REFUSED,
    }
}

fn creation_tag(creation: &Creation) -> u8
    ensures { result ≡ tag_of (frames.Create creation.now) }
{
    match creation {
        Creation::Source { .. } => SOURCE,
        Creation::Resource { .. } => RESOURCE,
        Creation::Class { .. } => CLASS,
    }
}

fn question_tag(question: &Question) -> u8
    ensures { result ≡ tag_of (frames.Ask question.now) }
{
    question.row().tag()
}

fn tag_of(frame: &Frame) -> u8
    ensures { result ≡ tag_of frame.now }
{
    match frame {
        Frame::Init(_) => INIT,
        Frame::Round { .. } => ROUND,
        Frame::Reply(reply) => reply_tag(reply),
        Frame::Hello(_) => HELLO,
        Frame::Done { .. } => DONE,
        Frame::Create(creation) => creation_tag(creation),
        Frame::Message(_) => MESSAGE,
        Frame::Ask(question) => question_tag(question),
    }
}

/// The breach of a whole frame that may not come where it stands. It takes no memory.
pub fn stray(frame: &Frame) -> Breach
    ensures { result ≡ stray frame.now }
{
    Breach::Wrong { tag: tag_of(frame) }
}
