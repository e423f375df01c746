//! The rounds of a build, from nothing (JSR 269, `Processor` and `RoundEnvironment`).
//!
//! `specs/Run.antt` says what the run of the processors over the units of a project is, round by round: a function of the
//! units and of what the processors say, with what is remembered of it (`specs/Remembering.antt`). `specs/Clean.antt` says what
//! `clean` gives of it. Which record it leaves for the next build is said in a crate above. Nothing is said of files that an
//! earlier build left, of pipes or of pieces of bytes, and nothing is promised of time.
#![tactic(auto)]

mod asking;
mod beginning;
mod copies;
mod messages;
mod numbering;
mod progress;
mod remembering;
mod rounds;
mod running;
mod session_fault;

pub use copies::copy_hellos;
pub use numbering::{Made, number_files};
pub use rounds::PastRound;
pub use running::{Finished, clean};
