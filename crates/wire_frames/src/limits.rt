// How deep the mirrors and values of a frame are nested. It takes no memory.
ghost use Rattle.std.specs.Prelude.{◌≡◌, map};
ghost use Rattle.type_mirror.specs.Nesting as mirror;
ghost use Rattle.type_mirror.specs.Nesting.{deepest, capped, annotation_nesting};
ghost use Rattle.wire_frames.specs.Limits as limits;
ghost use Rattle.wire_frames.specs.Limits.{nesting_of_named};
ghost use Rattle.wire_frames.specs.Frames.{reply_shown, question_shown};
ghost use Rattle.frame_forms.specs.Depths.{depth_in};
ghost use Rattle.frame_forms.specs.FrameTable.{frame_form};

use crate::frame::Frame;
use crate::question::Question;
use crate::reply::Reply;
use apt_base::Name;
use type_mirror::{Annotation, Mirror, Value, annotation_depth, depth, value_depth};

// The deepest of several mirrors.
fn deepest_mirror(mirrors: &[Mirror]) -> u32
    ensures { result ≡ capped (deepest (map mirror.nesting mirrors.now)) }
{
    let mut depth_so_far = 0;
    for each in mirrors {
        depth_so_far = depth(each).max(depth_so_far);
    }
    depth_so_far
}

fn deepest_annotation(annotations: &[Annotation]) -> u32
    ensures { result ≡ capped (deepest (map annotation_nesting annotations.now)) }
{
    let mut depth_so_far = 0;
    for each in annotations {
        depth_so_far = annotation_depth(each).max(depth_so_far);
    }
    depth_so_far
}

fn deepest_value(values: &[(Name, Value)]) -> u32
    ensures { result ≡ capped (deepest (map nesting_of_named values.now)) }
{
    let mut depth_so_far = 0;
    for each in values {
        depth_so_far = value_depth(&each.1).max(depth_so_far);
    }
    depth_so_far
}

fn reply_nesting(reply: &Reply) -> u32
    ensures { result ≡ capped (depth_in frame_form (reply_shown reply.now)) }
{
    match reply {
        Reply::Annotations(annotations) => deepest_annotation(annotations.as_slice()),
        Reply::Values(values) => deepest_value(values.as_slice()),
        Reply::Mirrors(mirrors) => deepest_mirror(mirrors.as_slice()),
        _ => 0,
    }
}

fn question_nesting(question: &Question) -> u32
    ensures { result ≡ capped (depth_in frame_form (question_shown question.now)) }
{
    match question {
        Question::Mirror(_, mirror) => depth(mirror),
        Question::Mirrors(_, one, other) => depth(one).max(depth(other)),
        Question::MemberType { container, .. } => depth(container),
        Question::DeclaredType { arguments, .. } => deepest_mirror(arguments.as_slice()),
        _ => 0,
    }
}

/// How deep the mirrors and values of a frame are nested, or the largest `u32` where that is more.
#[tactic(auto, unfolding(crate::specs::Limits::nesting))]
pub(crate) fn nesting(frame: &Frame) -> u32
    ensures { result ≡ capped (limits.nesting frame.now) }
{
    match frame {
        Frame::Reply(reply) => reply_nesting(reply),
        Frame::Ask(question) => question_nesting(question),
        _ => 0,
    }
}
