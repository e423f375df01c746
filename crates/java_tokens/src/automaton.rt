// The table by which tokens are read: from state to state, by the sorts of characters.
ghost use Rattle.std.specs.Prelude.{◌≡◌, ◌<◌, MatchOption};
ghost use Rattle.java_tokens.specs.Sorts as sorts;
ghost use Rattle.java_tokens.specs.Table.{after, class_at, BeginsComment, IsLineLength, IsUnknownText, IsFoundFront};

use memchr::{memchr2, memmem};

/// How many sorts of characters there are.
pub const SORTS: usize = 26;

/// The sort of the other characters that begin an identifier.
pub const LETTER: u8 = 12;

/// The sort of the other characters that go on with one.
pub const PART: u8 = 13;

/// The sort of any other character.
pub const OTHER: u8 = 24;

/// The state of which no text goes on.
pub const STUCK: u8 = 4;

/// For each state, in order, the state after a character of each sort. A state's comment is its number and one of the
/// texts that lead to it. What texts may follow in each state is proved to be what the forms of tokens and separators
/// leave there.
pub const STEPS: [u8; 1794] = [
    // 0: nothing
    1, 2, 2, 2, 3, 3, 3, 3, 3, 3, 3, 3, 3, 4, 5, 4, 6, 4, 7, 8, 4, 9, 10, 10, 4, 2,
    // 1: 0
    11, 11, 11, 12, 13, 14, 15, 4, 16, 4, 17, 18, 4, 4, 19, 4, 4, 4, 4, 4, 4, 4, 4, 4, 4, 11,
    // 2: 1
    20, 20, 20, 20, 4, 14, 15, 4, 16, 4, 4, 21, 4, 4, 19, 4, 4, 4, 4, 4, 4, 4, 4, 4, 4, 20,
    // 3: b
    3, 3, 3, 3, 3, 3, 3, 3, 3, 3, 3, 3, 3, 3, 4, 4, 4, 4, 4, 4, 4, 4, 4, 4, 4, 3,
    // 4: no text goes on
    4, 4, 4, 4, 4, 4, 4, 4, 4, 4, 4, 4, 4, 4, 4, 4, 4, 4, 4, 4, 4, 4, 4, 4, 4, 4,
    // 5: .
    22, 22, 22, 22, 4, 4, 4, 4, 4, 4, 4, 4, 4, 4, 4, 4, 4, 4, 4, 4, 4, 4, 4, 4, 4, 22,
    // 6: /
    4, 4, 4, 4, 4, 4, 4, 4, 4, 4, 4, 4, 4, 4, 4, 4, 23, 24, 4, 4, 4, 4, 4, 4, 4, 4,
    // 7: "
    25, 25, 25, 25, 25, 25, 25, 25, 25, 25, 25, 25, 25, 25, 25, 25, 25, 25, 26, 25, 27, 4, 4, 25,
    25, 25,
    // 8: '
    28, 28, 28, 28, 28, 28, 28, 28, 28, 28, 28, 28, 28, 28, 28, 28, 28, 28, 28, 4, 29, 4, 4, 28,
    28, 28,
    // 9: CR
    4, 4, 4, 4, 4, 4, 4, 4, 4, 4, 4, 4, 4, 4, 4, 4, 4, 4, 4, 4, 4, 4, 10, 4, 4, 4,
    // 10: LF
    4, 4, 4, 4, 4, 4, 4, 4, 4, 4, 4, 4, 4, 4, 4, 4, 4, 4, 4, 4, 4, 4, 4, 4, 4, 4,
    // 11: 00
    30, 30, 30, 12, 4, 14, 15, 4, 16, 4, 4, 31, 4, 4, 19, 4, 4, 4, 4, 4, 4, 4, 4, 4, 4, 30,
    // 12: 08
    12, 12, 12, 12, 4, 14, 15, 4, 4, 4, 4, 32, 4, 4, 19, 4, 4, 4, 4, 4, 4, 4, 4, 4, 4, 12,
    // 13: 0b
    33, 33, 4, 4, 4, 4, 4, 4, 4, 4, 4, 4, 4, 4, 4, 4, 4, 4, 4, 4, 4, 4, 4, 4, 4, 4,
    // 14: 0d
    4, 4, 4, 4, 4, 4, 4, 4, 4, 4, 4, 4, 4, 4, 4, 4, 4, 4, 4, 4, 4, 4, 4, 4, 4, 4,
    // 15: 0e
    34, 34, 34, 34, 4, 4, 4, 4, 4, 4, 4, 4, 4, 4, 4, 35, 4, 4, 4, 4, 4, 4, 4, 4, 4, 34,
    // 16: 0l
    4, 4, 4, 4, 4, 4, 4, 4, 4, 4, 4, 4, 4, 4, 4, 4, 4, 4, 4, 4, 4, 4, 4, 4, 4, 4,
    // 17: 0x
    36, 36, 36, 36, 36, 36, 36, 36, 4, 4, 4, 4, 4, 4, 37, 4, 4, 4, 4, 4, 4, 4, 4, 4, 4, 36,
    // 18: 0_
    11, 11, 11, 12, 4, 4, 4, 4, 4, 4, 4, 18, 4, 4, 4, 4, 4, 4, 4, 4, 4, 4, 4, 4, 4, 11,
    // 19: 0.
    22, 22, 22, 22, 4, 14, 38, 4, 4, 4, 4, 4, 4, 4, 4, 4, 4, 4, 4, 4, 4, 4, 4, 4, 4, 22,
    // 20: 10
    39, 39, 39, 39, 4, 14, 15, 4, 16, 4, 4, 40, 4, 4, 19, 4, 4, 4, 4, 4, 4, 4, 4, 4, 4, 39,
    // 21: 1_
    20, 20, 20, 20, 4, 4, 4, 4, 4, 4, 4, 21, 4, 4, 4, 4, 4, 4, 4, 4, 4, 4, 4, 4, 4, 20,
    // 22: .0
    41, 41, 41, 41, 4, 14, 38, 4, 4, 4, 4, 42, 4, 4, 4, 4, 4, 4, 4, 4, 4, 4, 4, 4, 4, 41,
    // 23: //
    23, 23, 23, 23, 23, 23, 23, 23, 23, 23, 23, 23, 23, 23, 23, 23, 23, 23, 23, 23, 23, 4, 4, 23,
    23, 23,
    // 24: /*
    24, 24, 24, 24, 24, 24, 24, 24, 24, 24, 24, 24, 24, 24, 24, 24, 24, 43, 24, 24, 24, 24, 24, 24,
    24, 24,
    // 25: "0
    25, 25, 25, 25, 25, 25, 25, 25, 25, 25, 25, 25, 25, 25, 25, 25, 25, 25, 44, 25, 27, 4, 4, 25,
    25, 25,
    // 26: ""
    4, 4, 4, 4, 4, 4, 4, 4, 4, 4, 4, 4, 4, 4, 4, 4, 4, 4, 45, 4, 4, 4, 4, 4, 4, 4,
    // 27: "\
    25, 25, 25, 25, 25, 25, 25, 25, 25, 25, 25, 25, 25, 25, 25, 25, 25, 25, 25, 25, 25, 4, 4, 25,
    25, 25,
    // 28: '0
    4, 4, 4, 4, 4, 4, 4, 4, 4, 4, 4, 4, 4, 4, 4, 4, 4, 4, 4, 46, 4, 4, 4, 4, 4, 4,
    // 29: '\
    47, 47, 47, 28, 28, 28, 28, 28, 28, 28, 28, 28, 28, 28, 28, 28, 28, 28, 28, 28, 28, 4, 4, 28,
    28, 48,
    // 30: 000
    30, 30, 30, 12, 4, 14, 15, 4, 16, 4, 4, 31, 4, 4, 19, 4, 4, 4, 4, 4, 4, 4, 4, 4, 4, 30,
    // 31: 00_
    30, 30, 30, 12, 4, 4, 4, 4, 4, 4, 4, 31, 4, 4, 4, 4, 4, 4, 4, 4, 4, 4, 4, 4, 4, 30,
    // 32: 08_
    12, 12, 12, 12, 4, 4, 4, 4, 4, 4, 4, 32, 4, 4, 4, 4, 4, 4, 4, 4, 4, 4, 4, 4, 4, 12,
    // 33: 0b0
    49, 49, 4, 4, 4, 4, 4, 4, 16, 4, 4, 50, 4, 4, 4, 4, 4, 4, 4, 4, 4, 4, 4, 4, 4, 4,
    // 34: 0e0
    51, 51, 51, 51, 4, 14, 4, 4, 4, 4, 4, 52, 4, 4, 4, 4, 4, 4, 4, 4, 4, 4, 4, 4, 4, 51,
    // 35: 0e+
    34, 34, 34, 34, 4, 4, 4, 4, 4, 4, 4, 4, 4, 4, 4, 4, 4, 4, 4, 4, 4, 4, 4, 4, 4, 34,
    // 36: 0x0
    53, 53, 53, 53, 53, 53, 53, 53, 16, 38, 4, 54, 4, 4, 55, 4, 4, 4, 4, 4, 4, 4, 4, 4, 4, 53,
    // 37: 0x.
    56, 56, 56, 56, 56, 56, 56, 56, 4, 4, 4, 4, 4, 4, 4, 4, 4, 4, 4, 4, 4, 4, 4, 4, 4, 56,
    // 38: 0.e
    57, 57, 57, 57, 4, 4, 4, 4, 4, 4, 4, 4, 4, 4, 4, 58, 4, 4, 4, 4, 4, 4, 4, 4, 4, 57,
    // 39: 100
    39, 39, 39, 39, 4, 14, 15, 4, 16, 4, 4, 40, 4, 4, 19, 4, 4, 4, 4, 4, 4, 4, 4, 4, 4, 39,
    // 40: 10_
    39, 39, 39, 39, 4, 4, 4, 4, 4, 4, 4, 40, 4, 4, 4, 4, 4, 4, 4, 4, 4, 4, 4, 4, 4, 39,
    // 41: .00
    41, 41, 41, 41, 4, 14, 38, 4, 4, 4, 4, 42, 4, 4, 4, 4, 4, 4, 4, 4, 4, 4, 4, 4, 4, 41,
    // 42: .0_
    41, 41, 41, 41, 4, 4, 4, 4, 4, 4, 4, 42, 4, 4, 4, 4, 4, 4, 4, 4, 4, 4, 4, 4, 4, 41,
    // 43: /**
    24, 24, 24, 24, 24, 24, 24, 24, 24, 24, 24, 24, 24, 24, 24, 24, 10, 43, 24, 24, 24, 24, 24, 24,
    24, 24,
    // 44: "0"
    4, 4, 4, 4, 4, 4, 4, 4, 4, 4, 4, 4, 4, 4, 4, 4, 4, 4, 4, 4, 4, 4, 4, 4, 4, 4,
    // 45: """
    4, 4, 4, 4, 4, 4, 4, 4, 4, 4, 4, 4, 4, 4, 4, 4, 4, 4, 4, 4, 4, 59, 60, 45, 4, 4,
    // 46: '0'
    4, 4, 4, 4, 4, 4, 4, 4, 4, 4, 4, 4, 4, 4, 4, 4, 4, 4, 4, 4, 4, 4, 4, 4, 4, 4,
    // 47: '\0
    48, 48, 48, 4, 4, 4, 4, 4, 4, 4, 4, 4, 4, 4, 4, 4, 4, 4, 4, 46, 4, 4, 4, 4, 4, 48,
    // 48: '\4
    28, 28, 28, 4, 4, 4, 4, 4, 4, 4, 4, 4, 4, 4, 4, 4, 4, 4, 4, 46, 4, 4, 4, 4, 4, 28,
    // 49: 0b00
    49, 49, 4, 4, 4, 4, 4, 4, 16, 4, 4, 50, 4, 4, 4, 4, 4, 4, 4, 4, 4, 4, 4, 4, 4, 4,
    // 50: 0b0_
    49, 49, 4, 4, 4, 4, 4, 4, 4, 4, 4, 50, 4, 4, 4, 4, 4, 4, 4, 4, 4, 4, 4, 4, 4, 4,
    // 51: 0e00
    51, 51, 51, 51, 4, 14, 4, 4, 4, 4, 4, 52, 4, 4, 4, 4, 4, 4, 4, 4, 4, 4, 4, 4, 4, 51,
    // 52: 0e0_
    51, 51, 51, 51, 4, 4, 4, 4, 4, 4, 4, 52, 4, 4, 4, 4, 4, 4, 4, 4, 4, 4, 4, 4, 4, 51,
    // 53: 0x00
    53, 53, 53, 53, 53, 53, 53, 53, 16, 38, 4, 54, 4, 4, 55, 4, 4, 4, 4, 4, 4, 4, 4, 4, 4, 53,
    // 54: 0x0_
    53, 53, 53, 53, 53, 53, 53, 53, 4, 4, 4, 54, 4, 4, 4, 4, 4, 4, 4, 4, 4, 4, 4, 4, 4, 53,
    // 55: 0x0.
    56, 56, 56, 56, 56, 56, 56, 56, 4, 38, 4, 4, 4, 4, 4, 4, 4, 4, 4, 4, 4, 4, 4, 4, 4, 56,
    // 56: 0x.0
    61, 61, 61, 61, 61, 61, 61, 61, 4, 38, 4, 62, 4, 4, 4, 4, 4, 4, 4, 4, 4, 4, 4, 4, 4, 61,
    // 57: 0.e0
    63, 63, 63, 63, 4, 14, 4, 4, 4, 4, 4, 64, 4, 4, 4, 4, 4, 4, 4, 4, 4, 4, 4, 4, 4, 63,
    // 58: 0.e+
    57, 57, 57, 57, 4, 4, 4, 4, 4, 4, 4, 4, 4, 4, 4, 4, 4, 4, 4, 4, 4, 4, 4, 4, 4, 57,
    // 59: """ CR
    60, 60, 60, 60, 60, 60, 60, 60, 60, 60, 60, 60, 60, 60, 60, 60, 60, 60, 65, 60, 66, 60, 60, 60,
    60, 60,
    // 60: """ LF
    60, 60, 60, 60, 60, 60, 60, 60, 60, 60, 60, 60, 60, 60, 60, 60, 60, 60, 65, 60, 66, 60, 60, 60,
    60, 60,
    // 61: 0x.00
    61, 61, 61, 61, 61, 61, 61, 61, 4, 38, 4, 62, 4, 4, 4, 4, 4, 4, 4, 4, 4, 4, 4, 4, 4, 61,
    // 62: 0x.0_
    61, 61, 61, 61, 61, 61, 61, 61, 4, 4, 4, 62, 4, 4, 4, 4, 4, 4, 4, 4, 4, 4, 4, 4, 4, 61,
    // 63: 0.e00
    63, 63, 63, 63, 4, 14, 4, 4, 4, 4, 4, 64, 4, 4, 4, 4, 4, 4, 4, 4, 4, 4, 4, 4, 4, 63,
    // 64: 0.e0_
    63, 63, 63, 63, 4, 4, 4, 4, 4, 4, 4, 64, 4, 4, 4, 4, 4, 4, 4, 4, 4, 4, 4, 4, 4, 63,
    // 65: """ CR "
    60, 60, 60, 60, 60, 60, 60, 60, 60, 60, 60, 60, 60, 60, 60, 60, 60, 60, 67, 60, 66, 60, 60, 60,
    60, 60,
    // 66: """ CR \
    60, 60, 60, 60, 60, 60, 60, 60, 60, 60, 60, 60, 60, 60, 60, 60, 60, 60, 60, 60, 60, 60, 60, 60,
    60, 60,
    // 67: """ CR ""
    60, 60, 60, 60, 60, 60, 60, 60, 60, 60, 60, 60, 60, 60, 60, 60, 60, 60, 68, 60, 66, 60, 60, 60,
    60, 60,
    // 68: """ CR """
    4, 4, 4, 4, 4, 4, 4, 4, 4, 4, 4, 4, 4, 4, 4, 4, 4, 4, 4, 4, 4, 4, 4, 4, 4, 4,
];

/// For each state the class of the texts that lead to it, 7 where they are none.
pub const CLASSES: [u8; 69] = [
    7, 2, 2, 1, 7, 7, 7, 7, 7, 0, 0, 2, 7, 7, 3, 7, 2, 7, 7, 3, 2, 7, 3, 0, 7, 7, 5, 7, 7, 7, 2, 7,
    7, 2, 3, 7, 2, 7, 7, 2, 7, 3, 7, 7, 5, 7, 4, 7, 7, 2, 7, 3, 7, 2, 7, 7, 7, 3, 7, 7, 7, 7, 7, 3,
    7, 7, 7, 7, 6,
];

/// The sort of each ASCII character.
pub const ASCII_SORTS: [u8; 128] = [
    24, 24, 24, 24, 24, 24, 24, 24, 24, 23, 22, 24, 23, 21, 24, 24, 24, 24, 24, 24, 24, 24, 24, 24,
    24, 24, 24, 24, 24, 24, 24, 24, 23, 24, 18, 24, 12, 24, 24, 19, 24, 24, 17, 15, 24, 15, 14, 16,
    0, 1, 2, 2, 25, 25, 25, 25, 3, 3, 24, 24, 24, 24, 24, 24, 24, 7, 4, 7, 5, 6, 5, 12, 12, 12, 12,
    12, 8, 12, 12, 12, 9, 12, 12, 12, 12, 12, 12, 12, 10, 12, 12, 24, 20, 24, 24, 11, 24, 7, 4, 7,
    5, 6, 5, 12, 12, 12, 12, 12, 8, 12, 12, 12, 9, 12, 12, 12, 12, 12, 12, 12, 10, 12, 12, 24, 24,
    24, 24, 24,
];

/// The class of white space and comments.
pub const SEPARATOR: u8 = 0;

/// The class of no text.
pub const NO_CLASS: u8 = 7;

/// The longest front that the table knows.
#[derive(Clone, Copy)]
pub struct Found {
    /// How many bytes it has.
    pub width: usize,
    /// Its class.
    pub class: u8,
}

/// The longest front that is a separator, a word or a literal by the table. A comment is not followed character by
/// character (JLS 3.7): where it ends is searched for.
pub fn longest_front(text: &str) -> Option<Found>
    ensures { MatchOption result (IsUnknownText text.now) (λ f. IsFoundFront text.now f.width f.class) }
{
    let bytes = text.as_bytes();
    if bytes.len() > 1 && bytes[0] == b'/' {
        if bytes[1] == b'/' {
            return Some(line_comment(text));
        }
        if bytes[1] == b'*' {
            return block_comment(text);
        }
    }
    scanned_front(text)
}

// The comment at the front up to the end of its line.
fn line_comment(text: &str) -> Found
    requires { BeginsComment 47 text.now }
    ensures { IsFoundFront text.now result.width result.class }
{
    Found {
        width: line_length(&text.as_bytes()[2..]) + 2,
        class: SEPARATOR,
    }
}

// How many bytes stand before the first CR or LF.
fn line_length(bytes: &[u8]) -> usize
    ensures { IsLineLength bytes.now result }
{
    match memchr2(b'\r', b'\n', bytes) {
        Some(end) => end,
        None => bytes.len(),
    }
}

// The comment at the front up to the first `*/` behind its `/*`.
fn block_comment(text: &str) -> Option<Found>
    requires { BeginsComment 42 text.now }
    ensures { MatchOption result (IsUnknownText text.now) (λ f. IsFoundFront text.now f.width f.class) }
{
    let inside = &text.as_bytes()[2..];
    match memmem::find(inside, b"*/") {
        Some(length) => Some(Found {
            width: length + 4,
            class: SEPARATOR,
        }),
        None => None,
    }
}

// The longest front, found character by character.
fn scanned_front(text: &str) -> Option<Found>
    ensures { MatchOption result (IsUnknownText text.now) (λ f. IsFoundFront text.now f.width f.class) }
{
    let mut state = 0;
    let mut width = 0;
    let mut found = None;
    for c in text.chars() {
        state = next_state(state, sort_of(c));
        if state == STUCK {
            return found;
        }
        width += c.len_utf8();
        let class = class_of_state(state);
        if class < NO_CLASS {
            found = Some(Found { width, class });
        }
    }
    found
}

// The state after a character of a sort.
fn next_state(state: u8, sort: u8) -> u8
    requires state { state < 69 }
    requires sort { sort < 26 }
    ensures value { result ≡ after state sort }
    ensures state { result < 69 }
{
    STEPS[state as usize * SORTS + sort as usize]
}

// The class of the texts that lead to a state.
fn class_of_state(state: u8) -> u8
    requires { state < 69 }
    ensures { result ≡ class_at state }
{
    CLASSES[state as usize]
}

// The sort of a character.
fn sort_of(c: char) -> u8
    ensures value { result ≡ sorts.sort_of c }
    ensures sort { result < 26 }
{
    if (c as u32) < 128 {
        ASCII_SORTS[c as usize]
    } else if unicode_ident::is_xid_start(c) {
        LETTER
    } else if unicode_ident::is_xid_continue(c) {
        PART
    } else {
        OTHER
    }
}
