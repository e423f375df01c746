// The token or separator at the front of a text.
ghost use Rattle.std.specs.Prelude.{◌≡◌, ◌<◌, length, take, bytes_eq, Some, MatchOption, MatchBool};
ghost use Rattle.std.specs.Str.{chars};
ghost use Rattle.case_table.specs.Rows.{shown};
ghost use Rattle.java_tokens.specs.Words.{word_rows, operator_rows};
ghost use Rattle.java_tokens.specs.Tokens.{HasNoNext};
ghost use Rattle.java_tokens.specs.Table as table;
ghost use Rattle.java_tokens.specs.Table.{IsFront, IsBestIn, HasNoFront, IsOperatorFront, HasNoOperator};

use crate::TokenKind;
use crate::automaton::longest_front;
use case_table::Cases;

// How many keywords there are: the numbers of `true` and `false` are the next ones.
const KEYWORDS: u8 = 51;

// The number of `null`.
const NULL: u8 = 53;

/// A token or separator at the front of a text.
#[derive(Clone, Copy)]
pub struct Front {
    /// How many bytes it has.
    pub width: usize,
    /// What token it is, and None where it separates.
    pub kind: Option<TokenKind>,
}

/// The token or separator at the front of a text.
pub fn next_front(words: &Cases<'_>, operators: &Cases<'_>, text: &str) -> Option<Front>
    requires words { shown words.now.rows.now ≡ word_rows }
    requires operators { shown operators.now.rows.now ≡ operator_rows }
    ensures { MatchOption result (HasNoNext (chars text.now)) (λ f. IsFront (chars text.now) f.width f.kind) }
{
    match best_front(words, operators, text) {
        Some(front) => allowed(text, front),
        None => None,
    }
}

// A front, unless a comment or a text block begins there and the front is none.
fn allowed(text: &str, front: Front) -> Option<Front>
    requires { IsBestIn text.now front.width front.kind }
    ensures { MatchOption result (HasNoNext (chars text.now)) (λ f. IsFront (chars text.now) f.width f.kind) }
{
    if clashes(text.as_bytes(), b"/*", separates(front.kind)) {
        return None;
    }
    if clashes(text.as_bytes(), b"\"\"\"", is_text_block(front.kind)) {
        return None;
    }
    Some(front)
}

// Bytes begin with others, and what is found there is something else.
fn clashes(bytes: &[u8], front: &[u8], is: bool) -> bool
    ensures { MatchBool result (table.Clashes front.now bytes.now is) (table.Passes front.now bytes.now is) }
{
    if is {
        return false;
    }
    begins(bytes, front)
}

// It is no token.
fn separates(kind: Option<TokenKind>) -> bool
    ensures { result ≡ table.separates kind }
{
    kind.is_none()
}

// It is a text block.
fn is_text_block(kind: Option<TokenKind>) -> bool
    ensures { result ≡ table.is_text_block kind }
{
    match kind {
        Some(TokenKind::TextBlock) => true,
        _ => false,
    }
}

/// Bytes begin with others.
pub fn begins(bytes: &[u8], front: &[u8]) -> bool
    ensures { result ≡ bytes_eq (take (length front.now) bytes.now) front.now }
{
    &bytes[..bytes.len().min(front.len())] == front
}

// The longest front that is a token or separator.
fn best_front(words: &Cases<'_>, operators: &Cases<'_>, text: &str) -> Option<Front>
    requires words { shown words.now.rows.now ≡ word_rows }
    requires operators { shown operators.now.rows.now ≡ operator_rows }
    ensures { MatchOption result (HasNoFront text.now) (λ f. IsBestIn text.now f.width f.kind) }
{
    match longest_front(text) {
        Some(found) => {
            let (front, _) = text.split_at(found.width);
            Some(Front {
                width: found.width,
                kind: known_kind(words, found.class, front),
            })
        }
        None => operator_front(operators, text),
    }
}

// What a text of a class is.
fn known_kind(words: &Cases<'_>, class: u8, front: &str) -> Option<TokenKind>
    requires words { shown words.now.rows.now ≡ word_rows }
    requires class { class < 7 }
    ensures { table.kind_by class (chars front.now) ≡ Some result }
{
    match class {
        0 => None,
        1 => Some(word_kind(words, front)),
        2 => Some(TokenKind::Integer),
        3 => Some(TokenKind::Floating),
        4 => Some(TokenKind::Character),
        5 => Some(TokenKind::Text),
        6 => Some(TokenKind::TextBlock),
        _ => unreachable!(),
    }
}

// What a word is.
fn word_kind(words: &Cases<'_>, word: &str) -> TokenKind
    requires { shown words.now.rows.now ≡ word_rows }
    ensures { result ≡ table.word_kind (chars word.now) }
{
    match words.find(word.as_bytes()) {
        Some(number) => reserved_kind(number),
        None => TokenKind::Identifier,
    }
}

// What the reserved word with a number is: a keyword, or a literal behind them.
fn reserved_kind(number: u8) -> TokenKind
    ensures { result ≡ table.reserved_kind number }
{
    if number < KEYWORDS {
        return TokenKind::Reserved(number);
    }
    if number < NULL {
        return TokenKind::Truth;
    }
    TokenKind::Null
}

// The longest operator at the front of a text that the table does not know.
fn operator_front(operators: &Cases<'_>, text: &str) -> Option<Front>
    requires operators { shown operators.now.rows.now ≡ operator_rows }
    requires unknown { table.IsUnknownText text.now }
    ensures { MatchOption result (HasNoFront text.now) (λ f. IsBestIn text.now f.width f.kind) }
{
    match longest_operator(operators, text.as_bytes()) {
        Some((width, number)) => Some(Front {
            width,
            kind: Some(TokenKind::Operator(number)),
        }),
        None => None,
    }
}

// The longest operator at the front, with its number: the longest one has four bytes.
fn longest_operator(operators: &Cases<'_>, bytes: &[u8]) -> Option<(usize, u8)>
    requires { shown operators.now.rows.now ≡ operator_rows }
    ensures { MatchOption result (HasNoOperator bytes.now) (λ f. IsOperatorFront bytes.now f.0 f.1) }
{
    let mut width = bytes.len().min(4);
    while width > 0 {
        match operators.find(&bytes[..width]) {
            Some(number) => return Some((width, number)),
            None => width -= 1,
        }
    }
    None
}
