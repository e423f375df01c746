//! Whether a child's question may be answered: each element that it names is there, and its arguments are what its row
//! of the table of questions wants them to be. A creation and a message may name elements too.
//!
//! `specs/NamedElements` says which elements a question, a creation or a message names, `specs/WantedKinds` what is
//! wanted of arguments, and `specs/Stops` which of both counts first. The table is `frame_forms/specs/QuestionTable`.
//!
//! A call looks up each element that is named once, and each of those of which a kind is wanted once more. Whether a
//! type is one of the eight boxes takes up to eight look-ups of a name, the number of an annotation those of the
//! annotations that are present on the element, and a member one step for each type that is reached.
//!
//! Not promised: that memory is there. Only these three take any.
#![tactic(auto)]

mod kinds;
mod named;
mod stops;

pub use kinds::{is_element, is_mirror};
pub use named::{is_creation_there, is_message_there, is_question_there};
pub use stops::{Stop, stop_of};
pub use type_queries::{QueryFault, type_of_member};
