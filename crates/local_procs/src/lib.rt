//! Processors that the program has itself, as functions of the frames that their host sends.
//!
//! A `Child` is such a processor in a session: it answers each frame of its host by one frame, or says how that
//! frame leaves the protocol. `specs/Plans` says what a processor does in a round: the frames that it sends, each
//! with how it goes on by the reply, and the names that it remembers at the end. `builder`, `checker` and `chain` go
//! from root to root, and what they do for a root is a plan of its own (`specs/Builder`, `specs/Checker`,
//! `specs/Chain`), so that a round is the plans of its roots one after another. `registry` has one plan for a round
//! (`specs/Registry`), and alone remembers names from one to the next. `specs/Says` has the first frame and each
//! further one. `kinds_hold` carries the laws on all processors: their claims are constant, they send few frames for
//! a root or in a round, and what they give for a root has it as its origin; what `registry` gives has none.
//!
//! Not promised: that memory is there.
#![tactic(auto)]

mod builder;
mod chain;
mod checker;
mod child;
mod class_text;
mod contents;
mod laws;
mod local;
mod registry;
mod stage;
mod walk;

pub use child::Child;
pub use laws::kinds_hold;
pub use local::Local;
