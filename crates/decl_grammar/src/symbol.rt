// The tokens of a file as the grammar sees them.
ghost use Rattle.std.specs.Prelude.{◌≡◌};

use std::marker::Model;

/// The text of a token, which contracts see as its bytes: where it lies makes no difference.
#[derive(Drop)]
pub struct TokenText<'a> {
    written: &'a str,
}

impl<'a> Model for TokenText<'a> {
    ghost use Rattle.std.specs.Prelude.{List, ℕ};

    ghost Value = { List ℕ };

    ghost view = { λ a. a.written.now };
}

impl<'a> TokenText<'a> {
    /// This text.
    pub fn new(written: &'a str) -> TokenText<'a>
        ensures { result ≡ written.now }
    {
        TokenText { written }
    }

    /// The text itself.
    pub fn as_str(&self) -> &'a str
        ensures { result.now ≡ self.now }
    {
        self.written
    }
}

/// A token, or a `>` of a `>>` or a `>>>`.
#[derive(Drop)]
pub struct Symbol<'a> {
    /// Its sort, by the numbers of `specs/Symbols`.
    pub sort: u8,
    /// Whether it is a further part of the token before it, as the second `>` of a `>>`.
    pub further: bool,
    /// The offset of the token in the file, in bytes.
    pub start: u32,
    /// The line of the token, counted from 1.
    pub line: u32,
    /// The text of the token.
    pub text: TokenText<'a>,
    /// The doc comment directly before the token, with its markers.
    pub doc: Option<TokenText<'a>>,
}
