//! What the program says on the standard error of a build that was refused: the place in a file with its line and a caret, the item of
//! `apt.json` that is off its form, and how a child left the protocol.
//!
//! Promised is what each function owes to be safe and to end, and nothing of what it says. A line that can't be written, or for which there
//! is no memory, is left out. `tests/first_path.py` shows each through the built program.
#![tactic(auto)]

mod configuration;
mod java;
mod json_keys;
mod positions;
mod shown;
mod talk;

pub use configuration::{say_item, say_line, say_no_object, say_other_items};
pub use java::say_java_fault;
pub use shown::Shown;
pub use talk::Talk;
