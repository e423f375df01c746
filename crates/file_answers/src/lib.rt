//! That each file of declarations has an answer, whatever its bytes are: its units, the place of its first fault, or the limit that it passes first, as `AnswersFile` of `decl_parser` says (`each_answered`).
//! It is proved by deciding each part: which characters and tokens a file has, whether its symbols are a file, and whether a child list in them is too long.
#![tactic(auto)]

mod laws;

pub use laws::each_answered;
