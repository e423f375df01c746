//! Which questions of a processor are beyond reach: their replies may hang on units to which nothing leads of what
//! the processor was shown. What it gave may then not be kept.
//!
//! `specs/Beyond` says it of a question and of all questions of a round, by the reach of units: each closed set that
//! holds a unit holds all to which it leads. `specs/Reached` finds that set step by step, and `beyond_is_decided`
//! carries the law that both say the same. What is noted of the questions of a round is beyond reach exactly where one of
//! them is (`noted_is_beyond`). `is_beyond` decides it of the questions of a round.
//!
//! Not promised: that memory is there.
#![tactic(auto)]

mod outside;
mod round_questions;

ghost use Rattle.beyond_reach.specs.Decided.{BeyondIsDecided, NotedIsBeyond};

pub use round_questions::is_beyond;

/// The set that is found step by step from some units has exactly the names to which one of them leads; so whether a
/// question of a round was beyond reach is decided by it.
pub fn beyond_is_decided()
    ensures { BeyondIsDecided }
{}

/// What is noted of the questions of a round, which is the names that they named and two tests, is beyond reach exactly where
/// one of the questions is.
pub fn noted_is_beyond()
    ensures { NotedIsBeyond }
{}
