// The characters of a file with their offsets.
ghost use Rattle.std.specs.Prelude.{ℕ, List, ◌≡◌, ◌≤◌, ◌<◌, ◌/◌, length, string_bytes, slice_get, IfSome, IfOk, MatchResult};
ghost use Rattle.std.specs.Str.{chars};
ghost use Rattle.apt_base.specs.Limits.{max_file_bytes};
ghost use Rattle.java_tokens.specs.CharsShown.{places_from, Ascend, AreWithin};

use crate::shift::{Shift, shift_at};
use std::alloc::{AllocError, Global};

/// The characters of a file, each with the offset at which it begins.
#[derive(Drop)]
pub struct Chars {
    /// The characters.
    pub text: String,
    /// How far their offsets are beyond their places in the text: one behind each escape, and so none in a file without.
    pub shifts: Vec<Shift>,
    ghost ascending: { Ascend shifts.items },
    ghost within: { AreWithin max_file_bytes shifts.items },
    ghost small: { length (string_bytes text) ≤ max_file_bytes },
}

impl Chars {
    ghost use Rattle.java_tokens.specs.TokensShown.{offsets_in};

    /// The characters.
    pub fn as_str(&self) -> &str
        ensures { result.now ≡ string_bytes self.now.text }
    {
        self.text.as_str()
    }

    /// The offset in the file of the character with this number, counted from 0, and None exactly where there is no such character.
    /// It is found by a walk over the characters before it, and takes no memory.
    pub fn offset(&self, at: u32) -> Option<u32>
        ensures { result ≡ slice_get (offsets_in self.now) at }
    {
        let place = place_of(self.text.as_str(), at)?;
        Some(place + shift_at(self.shifts.as_slice(), place))
    }

    /// Equal characters. It fails only when memory runs out.
    pub fn copy(&self, alloc: Global) -> Result<Chars, AllocError>
        ensures text { IfOk result (λ chars. string_bytes chars.text ≡ string_bytes self.now.text) }
        ensures shifts { IfOk result (λ chars. chars.shifts.items ≡ self.now.shifts.items) }
    {
        Ok(Chars {
            text: String::from_str(alloc, self.text.as_str())?,
            shifts: Vec::from_slice(alloc, self.shifts.as_slice())?,
        })
    }
}

// The place in a text of the character with this number.
fn place_of(text: &str, at: u32) -> Option<u32>
    requires { length text.now ≤ max_file_bytes }
    ensures place { result ≡ slice_get (places_from 0 (chars text.now)) at }
    ensures within { IfSome result (λ place. place ≤ length text.now) }
{
    let mut place = 0;
    let mut left = at;
    for c in text.chars() {
        if left == 0 {
            return Some(place);
        }
        left -= 1;
        place += c.len_utf8() as u32;
    }
    None
}
