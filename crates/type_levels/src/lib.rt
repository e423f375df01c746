//! Relations of types within a number of steps, answered yes, no or open, and their search by levels of questions.
//!
//! `specs/Steps` says when a type is below another one within this many steps, by what a question about the two asks next, and `specs/Answers` how several answers are one; `specs/Containment` what is asked of two type arguments, and `specs/Laws` what holds of all relations. Types go by numbers, as `specs/Numbered` says. `specs/Levels` has the levels of a search: all questions that the level before asks, each once, with the answers from the last level back. So a search takes time that is nearly linear in the questions, where one that asks them one by one may take a power of two.
//!
//! Not promised: that memory is there, which `related` also says is wanted where the questions of a search would name more than 65,536 arguments and supertypes.
#![tactic(auto)]

mod answer;
mod asked;
mod budget;
mod containment;
mod laws;
mod level_answers;
mod question;
mod relation;
mod search;

pub use answer::Answer;
pub use containment::{Argument, contains};
pub use laws::{contains_by_numbers, more_steps_settle};
pub use question::{Next, Pair, Question};
pub use relation::Relation;
pub use search::related;
