// A case: a file, and what its characters and tokens are to be.
ghost use Rattle.std.specs.Prelude.{◌≡◌, IfOk};
ghost use Rattle.java_tokens.specs.TokensShown.{AreTokensIn, IsTokenFaultIn, shown_doc, shown_token, shown_tokens};
ghost use Rattle.vector_tables.specs.Cases.{no_characters, shown_expected, Tells, IsAlike, IsGiven, IsPassed};

use apt_base::MAX_FILE_BYTES;
use java_tokens::{Chars, TextFault, Token, read_chars, tokens};
use std::alloc::{AllocError, Global};

/// What a file is to give.
#[derive(Clone, Copy)]
pub enum Expected<'a> {
    /// These characters.
    Characters(&'a str),
    /// No characters: the first fault has this offset in bytes.
    NoCharacters(u32),
    /// These tokens, each with its kind, its offset in bytes, its line, its text and its doc comment.
    Tokens(&'a [Token<'a>]),
    /// Characters and no tokens: the first fault has this offset in bytes.
    NoTokens(u32),
}

/// A file, and what it is to give.
#[derive(Clone, Copy)]
pub struct Case<'a> {
    /// The bytes of the file.
    pub file: &'a [u8],
    /// What they are to give.
    pub expected: Expected<'a>,
}

/// A case passes exactly where its file gives what is expected. The one error is out of memory.
pub fn passes(alloc: Global, case: &Case<'_>) -> Result<bool, AllocError>
    ensures { IfOk result (λ passed. Tells passed (IsPassed case.now)) }
{
    if case.file.len() > MAX_FILE_BYTES {
        return Ok(false);
    }
    match read_chars(alloc, case.file) {
        Ok(chars) => gives(alloc, &chars, case.expected),
        Err(TextFault::Bad { place }) => Ok(is_fault(case.expected, place)),
        Err(TextFault::Memory) => Err(AllocError),
    }
}

// A fault at this place is expected.
fn is_fault(expected: Expected<'_>, place: u32) -> bool
    ensures { Tells result (shown_expected expected.entry ≡ no_characters place) }
{
    match expected {
        Expected::NoCharacters(at) => at == place,
        _ => false,
    }
}

// The characters are the expected ones, or give what is expected.
fn gives(alloc: Global, chars: &Chars, expected: Expected<'_>) -> Result<bool, AllocError>
    ensures { IfOk result (λ given. Tells given (IsGiven chars.now expected.entry)) }
{
    match expected {
        Expected::Characters(text) => Ok(chars.as_str() == text),
        Expected::NoCharacters(_) => Ok(false),
        Expected::Tokens(list) => has_tokens(alloc, chars, list),
        Expected::NoTokens(place) => has_fault(alloc, chars, place),
    }
}

// The characters have these tokens.
fn has_tokens(alloc: Global, chars: &Chars, list: &[Token<'_>]) -> Result<bool, AllocError>
    ensures { IfOk result (λ has. Tells has (AreTokensIn chars.now (shown_tokens list.now))) }
{
    match tokens(alloc, chars) {
        Ok(found) => Ok(are_equal(found.as_slice(), list)),
        Err(TextFault::Bad { .. }) => Ok(false),
        Err(TextFault::Memory) => Err(AllocError),
    }
}

// The characters have no tokens, and the first fault is at this place.
fn has_fault(alloc: Global, chars: &Chars, place: u32) -> Result<bool, AllocError>
    ensures { IfOk result (λ has. Tells has (IsTokenFaultIn chars.now place)) }
{
    match tokens(alloc, chars) {
        Ok(_) => Ok(false),
        Err(TextFault::Bad { place: at }) => Ok(at == place),
        Err(TextFault::Memory) => Err(AllocError),
    }
}

// The tokens are equal.
fn are_equal(found: &[Token<'_>], list: &[Token<'_>]) -> bool
    ensures { Tells result (shown_tokens found.now ≡ shown_tokens list.now) }
{
    if found.len() != list.len() {
        return false;
    }
    for at in 0..found.len() {
        if !is_equal(&found[at], &list[at]) {
            return false;
        }
    }
    true
}

// Two tokens are equal.
fn is_equal(token: &Token<'_>, other: &Token<'_>) -> bool
    ensures { Tells result (IsAlike (shown_token token.now) (shown_token other.now)) }
{
    token.kind == other.kind
        && token.start == other.start
        && token.line == other.line
        && token.text == other.text
        && is_same_doc(token.doc, other.doc)
}

// Two doc comments are equal, or both are missing.
fn is_same_doc(doc: Option<&str>, other: Option<&str>) -> bool
    ensures { Tells result (shown_doc doc.entry ≡ shown_doc other.entry) }
{
    match (doc, other) {
        (Some(doc), Some(other)) => doc == other,
        (None, None) => true,
        _ => false,
    }
}
