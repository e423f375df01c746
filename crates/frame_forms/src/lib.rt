//! The grammar of the frames that the host and a child send each other, as data: the form of each frame, its spelling, and what bytes are a frame, the beginning of one, or neither.
//!
//! `specs/FrameTable` has each tag with its form, `specs/QuestionTable` the questions with what they want of their arguments and the frames of their replies, `specs/Frames` the spelling of a frame, and what stands at the front of bytes. `specs/BadBytes` says which byte of a frame is bad, `specs/FieldRules` what the forms ask of a value, `specs/FrameLaws` what holds of all frames, and `specs/Examples` has frames that were worked out by hand.
//!
//! Not promised: that a frame is sent by the side that may send it, or where it may be sent.
#![tactic(auto)]

mod bad_kind;
mod laws;
mod nesting;
mod question_row;

pub use bad_kind::BadKind;
pub use laws::{bad_byte_rules_hold, examples_hold, field_rules_hold, frame_laws_hold};
pub use nesting::MOST_NESTED;
pub use question_row::{
    ElementQuestion, MirrorQuestion, MirrorsQuestion, NameQuestion, QuestionRow, WantedElement,
    WantedMirror,
};
