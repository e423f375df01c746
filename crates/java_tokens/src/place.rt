// Where a character stands.
ghost use Rattle.std.specs.Prelude.{ℕ, ◌≡◌, ◌+◌, ◌≤◌, length, slice_index, if◌then◌else◌};
ghost use Rattle.std.specs.Str.{chars as codes_of};
ghost use Rattle.apt_base.specs.Limits.{max_file_bytes};
ghost use Rattle.java_tokens.specs.Tokens.{ends_line, line_ends, returns};
ghost use Rattle.java_tokens.specs.TokensShown.{IsCharAt, offsets_in};

use crate::Chars;
use crate::shift::shift_at;

/// Where a character stands.
#[derive(Clone, Copy)]
pub struct Place {
    /// How many bytes spell the characters before it.
    pub width: usize,
    /// Its line, counted from 1.
    pub line: u32,
    /// The character before is a CR.
    pub after_return: bool,
}

/// The place behind a text. No byte of a character beyond ASCII is a line end, so bytes are looked at in place of characters.
pub fn place_after(place: Place, text: &str) -> Place
    requires narrow { place.width + length text.now ≤ max_file_bytes }
    requires line { place.line ≤ place.width + 1 }
    ensures width { result.width ≡ place.width + length text.now }
    ensures line { result.line ≡ place.line + line_ends place.after_return (codes_of text.now) }
    ensures after_return { result.after_return ≡ returns place.after_return (codes_of text.now) }
{
    let mut line = place.line;
    let mut after_return = place.after_return;
    let mut rest = text.as_bytes();
    'bytes: while let [byte, after @ ..] = rest {
        line += line_end(after_return, *byte);
        after_return = *byte == b'\r';
        rest = after;
    }
    Place {
        width: place.width + text.len(),
        line,
        after_return,
    }
}

// How many lines end at a byte.
fn line_end(after_return: bool, byte: u8) -> u32
    ensures { result ≡ (if ends_line after_return byte then 1 else 0) }
{
    if byte == b'\r' {
        return 1;
    }
    if byte == b'\n' && !after_return { 1 } else { 0 }
}

/// The offset in the file of the character behind this many bytes.
pub fn offset_at(chars: &Chars, width: usize) -> u32
    requires { width ≤ max_file_bytes }
    ensures { (n : ℕ) → IsCharAt chars.now n width → result ≡ slice_index (offsets_in chars.now) n }
{
    let place = width as u32;
    place + shift_at(chars.shifts.as_slice(), place)
}
