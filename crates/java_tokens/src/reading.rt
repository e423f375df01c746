// Reads one character (JLS 3.3).
ghost use Rattle.std.specs.Prelude.{◌≡◌, ◌+◌, ◌<◌, ◌≤◌, ◌++◌, List, ℕ, length, take, drop, MatchOption, IfSome};
ghost use Rattle.std.specs.Char.{IsScalar};
ghost use Rattle.std.specs.Str.{IsUtf8, StartsWithNoChar};
ghost use Rattle.java_tokens.specs.Escapes.{HasEscape};
ghost use Rattle.java_tokens.specs.Characters.{BeginsWith, HasNoChar, BeginsEscape, IsPlain, joined, IsHigh, IsLow};
ghost use Rattle.java_tokens.specs.CharsShown.{HasRead};

use crate::escapes::{Escape, read_escape};
use memchr::memchr;

/// A character, and how many bytes spell it.
#[derive(Clone, Copy)]
pub struct Read {
    /// The character.
    pub code: char,
    /// The number of bytes.
    pub width: usize,
}

/// The character at the front of these bytes, where a number of `\` stand directly before.
pub fn read_char(bytes: &[u8], slashes: usize) -> Option<Read>
    requires { 0 < length bytes.now }
    ensures char { MatchOption result (HasNoChar slashes bytes.now) (HasRead slashes bytes.now) }
    ensures width { IfSome result (λ r. (0 < r.width) × (r.width ≤ length bytes.now)) }
    ensures scalar { IfSome result (λ r. IsScalar r.code) }
{
    if slashes % 2 == 0 && bytes.len() > 1 && bytes[0] == b'\\' && bytes[1] == b'u' {
        return read_escaped(bytes);
    }
    let code = first_char(bytes)?;
    Some(Read {
        code,
        width: code.len_utf8(),
    })
}

/// A front that is UTF-8 and has no `\`, and so begins no escape. It ends only before a `\` or before bytes that begin no
/// character, which no clause says.
pub fn plain_front(bytes: &[u8]) -> &str
    ensures front { (rest : List ℕ) × (bytes.now ≡ result.now ++ rest) }
    ensures text { IsUtf8 result.now }
    ensures plain { IsPlain result.now }
{
    match memchr(b'\\', bytes) {
        Some(end) => longest_text(&bytes[..end]),
        None => longest_text(bytes),
    }
}

// The character that one or two escapes at the front give.
fn read_escaped(bytes: &[u8]) -> Option<Read>
    requires { BeginsEscape 0 bytes.now }
    ensures char { MatchOption result (HasNoChar 0 bytes.now) (HasRead 0 bytes.now) }
    ensures width { IfSome result (λ r. (0 < r.width) × (r.width ≤ length bytes.now)) }
    ensures scalar { IfSome result (λ r. IsScalar r.code) }
{
    let first = read_escape(bytes)?;
    match char::from_u32(first.value) {
        Some(code) => Some(Read {
            code,
            width: first.width,
        }),
        None => read_pair(bytes, first),
    }
}

// The character of a high surrogate and the low one after it.
fn read_pair(bytes: &[u8], first: Escape) -> Option<Read>
    requires begins { BeginsEscape 0 bytes.now }
    requires first { HasEscape bytes.now first.width first.value }
    requires value { (0xD800 ≤ first.value) × (first.value < 0xE000) }
    requires width { first.width ≤ length bytes.now }
    ensures char { MatchOption result (HasNoChar 0 bytes.now) (HasRead 0 bytes.now) }
    ensures width { IfSome result (λ r. (0 < r.width) × (r.width ≤ length bytes.now)) }
    ensures scalar { IfSome result (λ r. IsScalar r.code) }
{
    if first.value >= 0xDC00 {
        return None;
    }
    let second = read_escape(&bytes[first.width..])?;
    if second.value < 0xDC00 || second.value >= 0xE000 {
        return None;
    }
    let code = char::from_u32(0x1_0000 + (first.value - 0xD800) * 0x400 + (second.value - 0xDC00))?;
    Some(Read {
        code,
        width: first.width + second.width,
    })
}

// The character that UTF-8 spells at the front.
fn first_char(bytes: &[u8]) -> Option<char>
    ensures { MatchOption result (StartsWithNoChar bytes.now) (BeginsWith bytes.now) }
{
    if !bytes.is_empty() && bytes[0] < 128 {
        return Some(bytes[0] as char);
    }
    decoded_char(bytes)
}

// The same by the four bytes at the front.
fn decoded_char(bytes: &[u8]) -> Option<char>
    ensures { MatchOption result (StartsWithNoChar bytes.now) (BeginsWith bytes.now) }
{
    let text = longest_text(&bytes[..bytes.len().min(4)]);
    text.chars().next()
}

// The longest front that is UTF-8.
fn longest_text(bytes: &[u8]) -> &str
    ensures front { (rest : List ℕ) × (bytes.now ≡ result.now ++ rest) }
    ensures text { IsUtf8 result.now }
    ensures longest { (m : ℕ) → length result.now < m → m ≤ length bytes.now → ¬ IsUtf8 (take m bytes.now) }
{
    match str::from_utf8(bytes) {
        Ok(text) => text,
        Err(fault) => str::from_utf8(&bytes[..fault.valid_up_to()]).unwrap(),
    }
}
