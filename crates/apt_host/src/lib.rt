//! The host: one call that does what its words say over a tree of files, children, a source and a sink.
//!
//! So far it has three commands: `build`, over the sources and the stubs of a project and with the processors of its
//! configuration, which create sources and resources and print messages; `serve`, which is such a processor itself for
//! the host at its source and its sink; and `help`, which writes the table of words.
//! `specs/Words.antt` has that table, and `specs/Commands.antt` what each command may touch, answer and print.
//! `specs/CleanBuild.antt` says what a build gives from nothing, `specs/Promises.antt` what a build promises, and
//! `specs/Serving.antt` what `serve` reads and writes; what a project is that was read, and how a call ends, say the
//! definitions of `project_reading`. Nothing is promised of time, nor that a child or a host ever answers.
#![tactic(auto)]

mod build;
mod call;
mod help;
mod publish;
mod report;
mod words;

pub use call::{refuse_cut_words, run};
pub use project_reading::{Place, Status, least_path_is_refused};
pub use project_units::Refusal;
