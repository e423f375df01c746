// Reads the characters of a file (JLS 3.3).
ghost use Rattle.std.specs.Prelude.{ℕ, List, ◌≤◌, ◌<◌, ◌/◌, ◌≡◌, length};
ghost use Rattle.apt_base.specs.Limits.{max_file_bytes};
ghost use Rattle.java_tokens.specs.Characters.{Placed, IsDecided, AreChars, IsCharFault, slashes_after};
ghost use Rattle.java_tokens.specs.TokensShown.{Reads, ReadsOnly, FaultsOnly};

use crate::chars::Chars;
use crate::fault::TextFault;
use crate::reading::{plain_front, read_char};
use crate::shift::Shift;
use memchr::memmem;
use std::alloc::Global;

/// The characters of a file (JLS 3.3), or `Bad` with the offset of the first escape or UTF-8 sequence at which none goes on.
/// A malformed escape and a lone surrogate are bad at their `\`. `Memory` comes only when memory runs out. Taken are as many
/// bytes as the file has, and eight for each `\u` in it, but no more than eight for six of its bytes, which no clause says.
pub fn read_chars(alloc: Global, bytes: &[u8]) -> Result<Chars, TextFault>
    requires { length bytes.now ≤ max_file_bytes }
    ensures chars { Reads bytes.now result }
    ensures list { (all : List Placed) → AreChars bytes.now all → ReadsOnly all result }
    ensures decided { IsDecided bytes.now }
    ensures place { (place : ℕ) → IsCharFault bytes.now place → FaultsOnly place result }
{
    let mut text = String::with_capacity(alloc, bytes.len())?;
    let mut shifts = Vec::with_capacity(alloc, most_escapes(bytes))?;
    let mut slashes = 0;
    let mut at = 0;
    while at < bytes.len() {
        let rest = &bytes[at..];
        let plain = plain_front(rest);
        if !plain.is_empty() {
            text.push_str(plain)?;
            at += plain.len();
            slashes = 0;
            continue;
        }
        let Some(read) = read_char(rest, slashes) else {
            return Err(TextFault::Bad { place: at as u32 });
        };
        text.push(read.code)?;
        at += read.width;
        if read.width != read.code.len_utf8() {
            let place = text.len();
            shifts.push(Shift {
                place: place as u32,
                by: (at - place) as u32,
            })?;
        }
        slashes = count_slashes(slashes, &rest[..read.width]);
    }
    Ok(Chars { text, shifts })
}

// No file has more escapes than this that give a character: each begins with `\u`, and has at least six bytes.
fn most_escapes(bytes: &[u8]) -> usize
    ensures { result ≤ length bytes.now / 6 }
{
    let begun = memmem::find_iter(bytes, b"\\u".as_slice()).count();
    begun.min(bytes.len() / 6)
}

// How many `\` stand directly before what follows a character that is spelled so.
fn count_slashes(slashes: usize, spelling: &[u8]) -> usize
    requires { slashes < max_file_bytes }
    ensures { result ≡ slashes_after slashes spelling.now }
{
    if spelling == [b'\\'].as_slice() {
        slashes + 1
    } else {
        0
    }
}
