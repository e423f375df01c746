//! Tables of cases, each with what it is to give, and what a program that runs them prints.
//!
//! A case of tokens passes exactly where its file gives the characters, the tokens or the fault that it names (`specs/Cases`),
//! and a case of frames exactly where its bytes are a frame, the beginning of one, or bad at the byte that it names
//! (`specs/FrameCases`). What the tables hold stands in `specs/TokenRows` and `specs/FrameRows`, and what is printed of
//! them, with the exit status, in `specs/Answers`. What the words of a call ask for stands in `specs/Words`.
#![tactic(auto)]

mod answer;
mod case;
mod frame_case;
mod frame_table;
mod outcome;
mod table;
mod token_table;
mod verdict;
mod words;

pub use answer::{Answer, answer_to, status_after};
pub use case::{Case, Expected, passes};
pub use frame_case::{FrameCase, all_frames_pass, frame_passes};
pub use outcome::{Outcome, outcomes, report, status};
pub use table::{Table, all_pass};
pub use verdict::{Verdict, verdict_on};
pub use words::{Task, task_of};
