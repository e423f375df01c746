//! The filer (JSR 269, `Filer`): what becomes of the files that processors create.
//!
//! `specs/Names` is the grammar of names, and `specs/Filing` has the path of a creation and the
//! answer to it: `answer_to initial made creation`, a function of the names of the initial units
//! and the stubs, of what was accepted before, and of the creation. Contracts see a `Filer` as
//! these two lists.
//!
//! `specs/Origins` is where a file or a message comes from, and `specs/Reports` is the order of
//! messages in a report: `in_report_order messages`, with the laws by which an order of the
//! messages of each processor in each round, by their origins, gives it.
//!
//! Not promised: that a source's content declares the type that its name says, or that anything is
//! written.
#![tactic(auto)]

mod filer;
mod messages;
mod names;
mod origins;
mod paths;

pub use filer::{Filer, MAX_CONTENT, MAX_TOTAL};
pub use messages::{Placed, later_comes_later, numbers_play_no_part, origins_tell, report_order};
pub use names::{is_package_name, is_relative_name, is_type_name};
pub use origins::{Origin, attribute};
pub use paths::{path_of, path_text};
