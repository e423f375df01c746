//! Java's lexical structure: the characters of a file, its tokens, and the tables of reserved words and operators.
//!
//! `read_chars` gives the characters that a file spells in UTF-8 and Unicode escapes, each with its offset
//! (`AreChars`), or the place of the first escape or sequence at which no characters go on (`IsCharFault`).
//!
//! `tokens` gives the tokens of such characters (`AreTokens`): the characters are tokens and separators, one after
//! another, and none could be longer; or the place of the first at which no such list goes on (`IsTokenFault`). What a
//! token or separator is stands in `specs/Literals.antt` and `specs/Tokens.antt`, in the forms of the JLS.
//!
//! `TokenReader` gives the same tokens one after another, for who needs no list of them.
//!
//! Each file has exactly one list or one place. Out of memory alone is answered in the place of it. Nothing is
//! promised of values of literals: a literal, a text block too, is its characters.
#![tactic(auto)]

mod automaton;
mod chars;
mod decoding;
mod escapes;
mod fault;
mod fronts;
mod lexing;
mod place;
mod reading;
mod shift;
mod token;
mod token_reader;
mod words;

pub use chars::Chars;
pub use decoding::read_chars;
pub use fault::TextFault;
pub use lexing::tokens;
pub use shift::Shift;
pub use token::{Token, TokenKind};
pub use token_reader::TokenReader;
