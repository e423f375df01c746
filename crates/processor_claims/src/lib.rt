//! Which processors there are and of which kinds, which annotations each supports, and who is asked in a round with which of them.
//!
//! `specs/Lines` says what the lines of a file are, `specs/Services` and `specs/Kinds` what the two files say, and `specs/Patterns` which names a pattern matches. `specs/Asked` says which processors are asked, as a function of their answers, and `specs/Turns` how contracts see a `Turn` while it is used.
//!
//! Reading a file is linear in its bytes, with one look-up for each name. A turn compares each name with each pattern once; what it then takes is linear in the names that the processors support.
//!
//! Not promised: that memory is there.
#![tactic(auto)]

mod fault;
mod kinds_file;
mod lines;
mod ordered_names;
mod pattern;
mod services;
mod supported;
mod turn;

pub use fault::LineFault;
pub use kinds_file::kinds;
pub use ordered_names::OrderedNames;
pub use pattern::Pattern;
pub use services::service_names;
pub use supported::Supported;
pub use turn::Turn;
