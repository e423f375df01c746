//! The grammar of declarations as data, and its laws: JLS 4, 7.3 to 9.7, and as much of JLS 15 as is needed
//! to see where initialisers and values end and which of them are constants.
//!
//! `specs/Types`, `Expressions` and `Grammar` have the grammar, over the symbols of a file, which
//! `SymbolReader` and `symbols` make as its tokens are read, and `Rule` the forms that hold themselves. The
//! definitions go by the cases of forms: which symbols are a phrase of a form, which are the beginning of one
//! and how many nested types, type arguments and values are then open (`specs/Form`), the first fault, and
//! the first symbol at which too many are open (`specs/File`). How forms are read from left to right, and
//! what a function that reads must return, is in `specs/Reading`. A file has at most one reading
//! (`one_reading`), and where symbols are the beginning of a file, so is each front of them (`fronts_begin`),
//! be it an ordinary compilation unit or a file `package-info.java`.
//!
//! The types here are the values of the grammar and of reading. No function here reads a form.
#![tactic(auto)]

mod fault;
mod laws;
mod line_place;
pub mod sorts;
mod symbol;
mod symbol_list;
mod symbol_reader;
mod written;

pub use fault::{ParseFault, ReadFault};
pub use laws::{fronts_begin, one_reading};
pub use line_place::LinePlace;
pub use symbol::{Symbol, TokenText};
pub use symbol_reader::{SymbolReader, symbols};
pub use written::{
    Declarator, Lines, MemberAt, MemberRest, Modifiers, NameAt, ParamAt, ParamEnd, Params,
    Signature, TypeAt, TypeParamAt, TypeRest, Unmodified,
};
