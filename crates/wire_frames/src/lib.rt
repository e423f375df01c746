//! The frames that the host and a child send each other, as values.
//!
//! The host sends `Init`, `Round` and replies. A child sends `Hello`, `Done`, the creation of a source file, a
//! resource or a class file, messages, and questions.
//!
//! `specs/Frames.antt` says what each frame is in the table of all frames (`frame_forms`), which has its one
//! spelling. `encode` writes exactly that. `specs/Readings.antt` has what stands next at the front of bytes. What is
//! read of a child is what the table says of the same bytes.
//!
//! Not promised: that a name which a child sends is one of the language, or that an element is there.
#![tactic(auto)]

mod copying;
mod form_writing;
mod frame;
mod limits;
mod output;
mod question;
mod question_writing;
mod reading;
mod reply;
pub mod tags;
mod writing;

pub use frame::{Creation, Frame, Hello, Init, Message, copy_options};
pub use question::Question;
pub use reading::{read_below, read_child_fields, read_element, read_elements, read_step};
pub use reply::{Created, Info, Refused, Reply};
pub use writing::{FrameFault, MAX_FRAME, encode, is_too_large};
