// Reads the field forms.
ghost use Rattle.std.specs.Prelude.{◌≡◌, true, false, length, IfSome, IfNone, Some, None};
ghost use Rattle.apt_base.specs.Fields.{front_next, u8_next, u16_next, u32_next, i64_next, bool_next, bytes_next, text_next, is_text};

use std::marker::Model;

/// Reads fields one after another from the front of bytes. Contracts see a reader as the bytes that are left.
///
/// Each method gives the value of its form that stands next. It gives `None` exactly where none does, and the reader then stays where it was. No method takes memory.
#[derive(Drop)]
pub struct FieldReader<'a> {
    rest: &'a [u8],
}

impl<'a> Model for FieldReader<'a> {
    ghost use Rattle.std.specs.Prelude.{List, ℕ};

    ghost Value = { List ℕ };

    ghost view = { λ r. r.rest.now };
}

impl<'a> FieldReader<'a> {
    /// A reader at the first of these bytes.
    pub fn new(bytes: &'a [u8]) -> FieldReader<'a>
        ensures { result ≡ bytes.now }
    {
        FieldReader { rest: bytes }
    }

    /// The number of bytes that were not read.
    pub fn left(&self) -> usize
        ensures { result ≡ length self.now }
    {
        self.rest.len()
    }

    fn front(&mut self, count: usize) -> Option<&'a [u8]>
        ensures next { IfSome result (λ front. front_next count self.old ≡ Some (front.now, self.new)) }
        ensures none { IfNone result (front_next count self.old ≡ None) }
        ensures stays { IfNone result (self.new ≡ self.old) }
    {
        if self.rest.len() < count {
            return None;
        }
        let (front, rest) = self.rest.split_at(count);
        self.rest = rest;
        Some(front)
    }

    /// A number of one byte.
    #[tactic(auto, unfolding(crate::specs::Fields::u8_next))]
    pub fn u8(&mut self) -> Option<u8>
        ensures next { IfSome result (λ value. u8_next self.old ≡ Some (value, self.new)) }
        ensures none { IfNone result (u8_next self.old ≡ None) }
        ensures stays { IfNone result (self.new ≡ self.old) }
    {
        match self.rest {
            [] => None,
            [byte, rest @ ..] => {
                self.rest = rest;
                Some(*byte)
            }
        }
    }

    /// A number of two bytes.
    #[tactic(auto, unfolding(crate::specs::Fields::u16_next))]
    pub fn u16(&mut self) -> Option<u16>
        ensures next { IfSome result (λ value. u16_next self.old ≡ Some (value, self.new)) }
        ensures none { IfNone result (u16_next self.old ≡ None) }
        ensures stays { IfNone result (self.new ≡ self.old) }
    {
        let front = self.front(2)?;
        Some(u16::from_be_bytes([front[0], front[1]]))
    }

    /// A number of four bytes.
    #[tactic(auto, unfolding(crate::specs::Fields::u32_next))]
    pub fn u32(&mut self) -> Option<u32>
        ensures next { IfSome result (λ value. u32_next self.old ≡ Some (value, self.new)) }
        ensures none { IfNone result (u32_next self.old ≡ None) }
        ensures stays { IfNone result (self.new ≡ self.old) }
    {
        let front = self.front(4)?;
        Some(u32::from_be_bytes([front[0], front[1], front[2], front[3]]))
    }

    /// A number of eight bytes in two's complement.
    #[tactic(auto, unfolding(crate::specs::Fields::i64_next))]
    pub fn i64(&mut self) -> Option<i64>
        ensures next { IfSome result (λ value. i64_next self.old ≡ Some (value, self.new)) }
        ensures none { IfNone result (i64_next self.old ≡ None) }
        ensures stays { IfNone result (self.new ≡ self.old) }
    {
        let front = self.front(8)?;
        Some(i64::from_be_bytes([
            front[0], front[1], front[2], front[3], front[4], front[5], front[6], front[7],
        ]))
    }

    /// A byte that is 0 for `false` or 1 for `true`; no other byte is one.
    #[tactic(auto, unfolding(crate::specs::Fields::bool_next))]
    pub fn bool(&mut self) -> Option<bool>
        ensures next { IfSome result (λ value. bool_next self.old ≡ Some (value, self.new)) }
        ensures none { IfNone result (bool_next self.old ≡ None) }
        ensures stays { IfNone result (self.new ≡ self.old) }
    {
        match self.rest {
            [0, rest @ ..] => {
                self.rest = rest;
                Some(false)
            }
            [1, rest @ ..] => {
                self.rest = rest;
                Some(true)
            }
            _ => None,
        }
    }

    /// Bytes behind their number, which is four bytes long.
    #[tactic(auto, unfolding(crate::specs::Fields::bytes_next))]
    pub fn bytes(&mut self) -> Option<&'a [u8]>
        ensures next { IfSome result (λ bytes. bytes_next self.old ≡ Some (bytes.now, self.new)) }
        ensures none { IfNone result (bytes_next self.old ≡ None) }
        ensures stays { IfNone result (self.new ≡ self.old) }
    {
        let mut ahead = FieldReader::new(self.rest);
        let count = ahead.u32()?;
        let front = ahead.front(count as usize)?;
        self.rest = ahead.rest;
        Some(front)
    }

    /// A text in UTF-8 behind the number of its bytes, which is four bytes long.
    #[tactic(auto, unfolding(crate::specs::Fields::text_next))]
    pub fn text(&mut self) -> Option<&'a str>
        ensures next { IfSome result (λ text. text_next self.old ≡ Some (text.now, self.new)) }
        ensures none { IfNone result (text_next self.old ≡ None) }
        ensures stays { IfNone result (self.new ≡ self.old) }
    {
        let mut ahead = FieldReader::new(self.rest);
        let bytes = ahead.bytes()?;
        let text = text_of(bytes)?;
        self.rest = ahead.rest;
        Some(text)
    }
}

// The bytes as a text, where they are one.
fn text_of(bytes: &[u8]) -> Option<&str>
    ensures some { IfSome result (λ text. (is_text bytes.now ≡ true) × (text.now ≡ bytes.now)) }
    ensures none { IfNone result (is_text bytes.now ≡ false) }
{
    match std::str::from_utf8(bytes) {
        Ok(text) => Some(text),
        Err(_) => None,
    }
}
