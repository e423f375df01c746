//! The replies of the host to a child's questions, over one table and the roots of one round.
//!
//! `specs/Replies` has the reply to each question, as a function of the table, the roots and the question: the first of
//! NoSuch, WrongKind, TooDeep and TooLarge that stands against it, and else the frame that its row names. The table of
//! questions is `frame_forms/specs/QuestionTable`, what a row wants of its arguments says `child_questions`, and what a
//! question means the crates of elements (`element_facts`, `element_table`), types (`type_relations`, `type_subtypes`,
//! `type_members`, `type_overriding`, `type_listing`), values (`annotation_values`) and rounds (`round_env`).
//!
//! `answer` remembers nothing. An `Answering` remembers what it found out for earlier questions over its table, and the
//! frames of their replies (`specs/Remembered`), and its replies are those of `answer`. `specs/ReplyLaws` says what holds of every reply.
//!
//! Not promised: that memory is there. Each crate says where it is out of memory by a budget.
#![tactic(auto)]

mod annotated;
mod answering;
mod answers;
mod comparing;
mod digest;
mod elements;
mod known_frames;
mod laws;
mod lists;
mod mirrors;
mod names;
mod places;
mod relations;
mod replies;
mod same_question;

pub use answering::Answering;
pub use child_questions::{is_creation_there, is_message_there};
pub use known_frames::{MOST_FRAME_BYTES, MOST_FRAMES};
pub use laws::{replies_agree_with_calls, replies_are_of_their_frames, replies_fit};
pub use relations::MOST_TYPES;
pub use replies::answer;
