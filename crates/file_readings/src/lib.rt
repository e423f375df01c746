//! What a file of declarations reads as, with a name: `reading_of` of `specs/FileReadings` is its units, or why it gives none. What counts as an answer is `AnswersFile` of `decl_parser`; that each
//! file has exactly one is the law `each_file`. What stands above this crate, a project and its runs, is defined by the name.
#![tactic(auto)]

mod laws;
mod reading;

pub use laws::each_file;
pub use reading::read_declarations;
