//! Names, types, present annotations and values over closed cuts: what a table says of elements, names,
//! types, the annotations that are present and the values of annotations and fields is what it says where its
//! source part is cut to a closed set of names.
//!
//! A set of names is closed where it holds, with each source unit of the table in it, the candidates of that
//! unit (`reach_map`). `specs/CutElements` says which elements lie in a cut, and which sets the laws are of:
//! closed ones that have a source of the table. `specs/NameLaws`, `specs/FieldLaws`, `specs/TypeLaws`,
//! `specs/QuestionLaws`, `specs/PresenceLaws` and `specs/ValueLaws` have the laws, and `specs/RootedLaws` has
//! some sets that they are of, as the reach of a source. Each law is the contract of a function that does
//! nothing, and a caller has it by calling that function, as `agrees_on_reach` and `lies_in_cut` do.
//!
//! `proofs/AgreeingReads` says what a question on types reads of a table, and the files `proofs/Same..` that
//! two tables that agree on it give the same. `proofs/CutReads` shows that a table and its cut agree on it,
//! and `proofs/AgreeingCuts` that two tables with one cut do. `specs/NodeTexts` has what is written at an
//! element, and `specs/NamedElements` which elements a value names.
//!
//! Not promised: anything of questions that list a package or ask whether one is there, and of sources that
//! are cut off.
#![tactic(auto)]

mod agreement;
mod elements;
mod laws;

pub use agreement::agrees_on_reach;
pub use elements::lies_in_cut;
pub use laws::{
    absent_stays, elements_are_written, fields_agree, fields_stay, names_agree, names_stay,
    presence_agrees, presence_stays, questions_agree, questions_stay, reaches_are_rooted,
    shared_reaches_are_one, types_agree, types_stay, unions_are_rooted, values_agree, values_stay,
};
