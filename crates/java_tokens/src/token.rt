// What tokens are.

/// What a token is. Reserved words and operators have their numbers in the tables.
#[derive(Clone, Copy, PartialEq, Eq)]
pub enum TokenKind {
    /// An identifier.
    Identifier,
    /// The reserved word with this number.
    Reserved(u8),
    /// An integer literal.
    Integer,
    /// A floating literal.
    Floating,
    /// A character literal.
    Character,
    /// A string literal.
    Text,
    /// A text block.
    TextBlock,
    /// The separator or operator with this number.
    Operator(u8),
    /// `true` or `false`.
    Truth,
    /// `null`.
    Null,
}

/// A token, and where it stands.
#[derive(Clone, Copy)]
pub struct Token<'a> {
    /// What it is.
    pub kind: TokenKind,
    /// The offset in the file of its first character.
    pub start: u32,
    /// The line of its first character, counted from 1.
    pub line: u32,
    /// Its characters.
    pub text: &'a str,
    /// The last doc comment among the separators directly before it, with its markers.
    pub doc: Option<&'a str>,
}
