// Identifiers, names of dots and patterns of names.
ghost use Rattle.std.specs.Prelude.{◌≡◌, map, MatchOption};
ghost use Rattle.std.specs.List.{list_all};
ghost use Rattle.std.specs.Str.{chars};
ghost use Rattle.apt_base.specs.Identifiers.{HasNoDot, IsSplit, numbered, reserved_words, is_reserved, starts_identifier, continues_identifier, is_word, is_identifier, is_dotted, is_pattern};

use unicode_ident::{is_xid_continue, is_xid_start};

// The keywords by number (JLS 3.9), then the literals that are no identifiers either (JLS 3.10.3, 3.10.7).
static RESERVED_WORDS: [(&str, u8); 54] = [
    ("abstract", 0),
    ("assert", 1),
    ("boolean", 2),
    ("break", 3),
    ("byte", 4),
    ("case", 5),
    ("catch", 6),
    ("char", 7),
    ("class", 8),
    ("const", 9),
    ("continue", 10),
    ("default", 11),
    ("do", 12),
    ("double", 13),
    ("else", 14),
    ("enum", 15),
    ("extends", 16),
    ("final", 17),
    ("finally", 18),
    ("float", 19),
    ("for", 20),
    ("goto", 21),
    ("if", 22),
    ("implements", 23),
    ("import", 24),
    ("instanceof", 25),
    ("int", 26),
    ("interface", 27),
    ("long", 28),
    ("native", 29),
    ("new", 30),
    ("package", 31),
    ("private", 32),
    ("protected", 33),
    ("public", 34),
    ("return", 35),
    ("short", 36),
    ("static", 37),
    ("strictfp", 38),
    ("super", 39),
    ("switch", 40),
    ("synchronized", 41),
    ("this", 42),
    ("throw", 43),
    ("throws", 44),
    ("transient", 45),
    ("try", 46),
    ("void", 47),
    ("volatile", 48),
    ("while", 49),
    ("_", 50),
    ("true", 51),
    ("false", 52),
    ("null", 53),
];

/// The reserved words, each with its number: the keywords from 0 in the order of the alphabet, with `_` last (JLS 3.9), and behind them `true`, `false` and `null` (JLS 3.10.3, 3.10.7). It takes no memory.
pub fn reserved_words() -> &'static [(&'static str, u8)]
    ensures { map (λ row. (row.0.now, row.1)) result.now ≡ numbered 0 reserved_words }
{
    &RESERVED_WORDS
}

/// Whether the bytes are a keyword (JLS 3.9), `true`, `false` or `null` (JLS 3.10.3, 3.10.7). It takes no memory.
pub fn is_reserved(text: &[u8]) -> bool
    ensures { result ≡ is_reserved text.now }
{
    RESERVED_WORDS.iter().any(|row| text == row.0.as_bytes())
}

fn starts_identifier(c: char) -> bool
    ensures { result ≡ starts_identifier c }
{
    is_xid_start(c) || c == '_' || c == '$'
}

fn continues_identifier(c: char) -> bool
    ensures { result ≡ continues_identifier c }
{
    is_xid_continue(c) || c == '$'
}

fn continues(text: &str) -> bool
    ensures { result ≡ list_all continues_identifier (chars text.now) }
{
    text.chars().all(continues_identifier)
}

fn is_word(text: &str) -> bool
    ensures { result ≡ is_word (chars text.now) }
{
    let mut chars = text.chars();
    match chars.next() {
        None => false,
        Some(first) => starts_identifier(first) && continues(chars.as_str()),
    }
}

/// Whether the text is an identifier (JLS 3.8): it begins with a character of the class XID_Start, `_` or `$`, goes on with XID_Continue or `$`, and is no keyword and none of `true`, `false` and `null`. It takes no memory.
#[tactic(auto, unfolding(crate::specs::Identifiers::is_identifier))]
pub fn is_identifier(text: &str) -> bool
    ensures { result ≡ is_identifier text.now }
{
    is_word(text) && !is_reserved(text.as_bytes())
}

/// What stands before the first dot and behind it, or `None` where there is no dot. It takes no memory.
pub fn split_dot(text: &str) -> Option<(&str, &str)>
    ensures { MatchOption result (HasNoDot text.now) (λ x. IsSplit text.now x.0.now x.1.now) }
{
    text.split_once('.')
}

/// Whether the text is one or more identifiers that dots join. It takes no memory.
pub fn is_dotted(text: &str) -> bool
    ensures { result ≡ is_dotted text.now }
{
    let mut rest = text;
    while let Some((first, after)) = split_dot(rest) {
        if !is_identifier(first) {
            return false;
        }
        rest = after;
    }
    is_identifier(rest)
}

/// Whether the text names annotations: identifiers that dots join, the same and `.*` for all in that package or type, or `*` for all. It takes no memory.
pub fn is_pattern(text: &str) -> bool
    ensures { result ≡ is_pattern text.now }
{
    let mut rest = text;
    while let Some((first, after)) = split_dot(rest) {
        if !is_identifier(first) {
            return false;
        }
        rest = after;
    }
    rest == "*" || is_identifier(rest)
}
