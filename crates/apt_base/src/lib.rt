//! What every crate above stands on: names, lists, boxes and sets of names that contracts see as bytes, lists, values and sets, references of elements, the small enums, limits, and the fields of which all formats are made.
//!
//! `specs/Fields` has the fields, with the words on their readers, `specs/Forms` the forms that are made of other forms, and `specs/Readings` what a function that reads is to return; `proofs/Fields`, `proofs/Readers` and `proofs/Counted` have the lemmas for the crates above. `specs/Identifiers` says what identifiers and patterns are, `specs/Names` what a set of names is, in the order of their bytes, `specs/Elements` when two references are the same, and `specs/Limits` has the limits that several crates keep. Looking a name up in a set, adding one and taking one away take logarithmic time.
//!
//! Not promised: that memory is there. What takes memory says so by `NoMemory`, and what it was called on is then as it was, but for a set that takes the names of another one.
#![tactic(auto)]

mod around;
mod boxed;
mod element;
mod fault;
mod field_reader;
mod field_writer;
mod identifier;
mod kinds;
mod limits;
mod list;
mod memory;
mod name;
mod names;
mod reading;
mod writing;

pub use around::{Around, copy_around, is_same_around};
pub use boxed::Boxed;
pub use element::ElementRef;
pub use fault::FormFault;
pub use field_reader::FieldReader;
pub use field_writer::FieldWriter;
pub use identifier::{
    is_dotted, is_identifier, is_pattern, is_reserved, reserved_words, split_dot,
};
pub use kinds::{Claim, Kind, What};
pub use limits::{
    MAX_CHILDREN, MAX_DEPTH, MAX_FILE_BYTES, MAX_NAME_BYTES, MAX_PROCESSORS, MAX_TYPE_STEPS,
};
pub use list::List;
pub use memory::NoMemory;
pub use name::{Name, copy_names, copy_optional_name};
pub use names::Names;
pub use reading::{read_byte, read_count, read_optional_text, read_text, read_texts, read_truth};
pub use writing::{write_count, write_optional_text, write_text, write_texts};
