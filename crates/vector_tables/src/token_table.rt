// The table of the characters and tokens of files.
ghost use Rattle.std.specs.Prelude.{◌≡◌, map};
ghost use Rattle.vector_tables.specs.Cases.{shown_case};
ghost use Rattle.vector_tables.specs.TokenRows.{token_rows};

use crate::case::{Case, Expected};
use java_tokens::{Token, TokenKind};

/// The cases of characters and tokens.
pub fn token_cases() -> &'static [Case<'static>]
    ensures { map shown_case result.now ≡ token_rows }
{
    &TOKEN_CASES
}

// Files, and their characters or tokens.
static TOKEN_CASES: [Case<'static>; 17] = [
    Case {
        file: b"a>>>=1_0L",
        expected: Expected::Tokens(&[
            Token {
                kind: TokenKind::Identifier,
                start: 0,
                line: 1,
                text: "a",
                doc: None,
            },
            Token {
                kind: TokenKind::Operator(49),
                start: 1,
                line: 1,
                text: ">>>=",
                doc: None,
            },
            Token {
                kind: TokenKind::Integer,
                start: 5,
                line: 1,
                text: "1_0L",
                doc: None,
            },
        ]),
    },
    Case {
        file: b"\"a",
        expected: Expected::NoTokens(0),
    },
    Case {
        file: b"int",
        expected: Expected::Tokens(&[Token {
            kind: TokenKind::Reserved(26),
            start: 0,
            line: 1,
            text: "int",
            doc: None,
        }]),
    },
    Case {
        file: b"_",
        expected: Expected::Tokens(&[Token {
            kind: TokenKind::Reserved(50),
            start: 0,
            line: 1,
            text: "_",
            doc: None,
        }]),
    },
    Case {
        file: b"\\u005cu005a",
        expected: Expected::Characters("\\u005a"),
    },
    Case {
        file: b"\\\\u0041",
        expected: Expected::Characters("\\\\u0041"),
    },
    Case {
        file: b"\\uuu0041",
        expected: Expected::Characters("A"),
    },
    Case {
        file: b"\\ud83d\\ude00",
        expected: Expected::Characters("\u{1F600}"),
    },
    Case {
        file: b"\\ud800x",
        expected: Expected::NoCharacters(0),
    },
    Case {
        file: b"\\u00g1",
        expected: Expected::NoCharacters(0),
    },
    Case {
        file: b"int",
        expected: Expected::Characters("int"),
    },
    Case {
        file: b"a \"b",
        expected: Expected::NoTokens(2),
    },
    Case {
        file: b"a\\ud800",
        expected: Expected::NoCharacters(1),
    },
    Case {
        file: b"a\r\n/** d */ // x\nb\rc",
        expected: Expected::Tokens(&[
            Token {
                kind: TokenKind::Identifier,
                start: 0,
                line: 1,
                text: "a",
                doc: None,
            },
            Token {
                kind: TokenKind::Identifier,
                start: 17,
                line: 3,
                text: "b",
                doc: Some("/** d */"),
            },
            Token {
                kind: TokenKind::Identifier,
                start: 19,
                line: 4,
                text: "c",
                doc: None,
            },
        ]),
    },
    Case {
        file: b"\\u0061 b",
        expected: Expected::Tokens(&[
            Token {
                kind: TokenKind::Identifier,
                start: 0,
                line: 1,
                text: "a",
                doc: None,
            },
            Token {
                kind: TokenKind::Identifier,
                start: 7,
                line: 1,
                text: "b",
                doc: None,
            },
        ]),
    },
    Case {
        file: b"true null",
        expected: Expected::Tokens(&[
            Token {
                kind: TokenKind::Truth,
                start: 0,
                line: 1,
                text: "true",
                doc: None,
            },
            Token {
                kind: TokenKind::Null,
                start: 5,
                line: 1,
                text: "null",
                doc: None,
            },
        ]),
    },
    Case {
        file: b"/**/x",
        expected: Expected::Tokens(&[Token {
            kind: TokenKind::Identifier,
            start: 4,
            line: 1,
            text: "x",
            doc: None,
        }]),
    },
];
