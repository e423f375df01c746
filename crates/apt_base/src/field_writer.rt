// Writes the field forms.
ghost use Rattle.std.specs.Prelude.{◌≡◌, ◌≤◌, [], ◌∷◌, ◌++◌, length, OnOk, OnErr};
ghost use Rattle.std.specs.Int.{w16, w32, to_be_bytes};
ghost use Rattle.apt_base.specs.Fields.{i64_form, bool_form, bytes_form, text_form};

use crate::{List, NoMemory};
use std::alloc::Global;
use std::marker::Model;

/// Writes fields one after another. Contracts see a writer as the bytes that were written.
///
/// Each method appends the spelling of a value. It fails only when memory runs out, and then nothing was written.
#[derive(Drop)]
pub struct FieldWriter {
    written: Vec<u8>,
}

impl Model for FieldWriter {
    ghost use Rattle.std.specs.Prelude.{List, ℕ};

    ghost Value = { List ℕ };

    ghost view = { λ w. w.written.items };
}

impl FieldWriter {
    /// A writer of nothing yet.
    pub fn new(alloc: Global) -> FieldWriter
        ensures { result ≡ [] }
    {
        FieldWriter {
            written: Vec::new(alloc),
        }
    }

    fn append(&mut self, bytes: &[u8]) -> Result<(), NoMemory>
        ensures ok { OnOk result (self.new ≡ self.old ++ bytes.now) }
        ensures err { OnErr result (self.new ≡ self.old) }
    {
        self.written.extend_from_slice(bytes)?;
        Ok(())
    }

    /// A number of one byte.
    pub fn u8(&mut self, value: u8) -> Result<(), NoMemory>
        ensures ok { OnOk result (self.new ≡ self.old ++ value ∷ []) }
        ensures err { OnErr result (self.new ≡ self.old) }
    {
        self.append(&[value])
    }

    /// A number of two bytes, its big end first.
    pub fn u16(&mut self, value: u16) -> Result<(), NoMemory>
        ensures ok { OnOk result (self.new ≡ self.old ++ to_be_bytes w16 value) }
        ensures err { OnErr result (self.new ≡ self.old) }
    {
        self.append(&value.to_be_bytes())
    }

    /// A number of four bytes, its big end first.
    pub fn u32(&mut self, value: u32) -> Result<(), NoMemory>
        ensures ok { OnOk result (self.new ≡ self.old ++ to_be_bytes w32 value) }
        ensures err { OnErr result (self.new ≡ self.old) }
    {
        self.append(&value.to_be_bytes())
    }

    /// A number of eight bytes in two's complement, its big end first.
    pub fn i64(&mut self, value: i64) -> Result<(), NoMemory>
        ensures ok { OnOk result (self.new ≡ self.old ++ i64_form value) }
        ensures err { OnErr result (self.new ≡ self.old) }
    {
        self.append(&value.to_be_bytes())
    }

    /// One byte, 0 for `false` and 1 for `true`.
    pub fn bool(&mut self, value: bool) -> Result<(), NoMemory>
        ensures ok { OnOk result (self.new ≡ self.old ++ bool_form value) }
        ensures err { OnErr result (self.new ≡ self.old) }
    {
        if value { self.u8(1) } else { self.u8(0) }
    }

    /// The number of the bytes in four bytes, and the bytes.
    pub fn bytes(&mut self, value: &[u8]) -> Result<(), NoMemory>
        requires { length value.now ≤ 4294967295 }
        ensures ok { OnOk result (self.new ≡ self.old ++ bytes_form value.now) }
        ensures err { OnErr result (self.new ≡ self.old) }
    {
        let before = self.written.len();
        self.u32(value.len() as u32)?;
        let appended = self.append(value);
        if appended.is_err() {
            self.written.truncate(before);
        }
        appended
    }

    /// The number of the text's bytes in four bytes, and the text in UTF-8.
    pub fn text(&mut self, value: &str) -> Result<(), NoMemory>
        requires { length value.now ≤ 4294967295 }
        ensures ok { OnOk result (self.new ≡ self.old ++ text_form value.now) }
        ensures err { OnErr result (self.new ≡ self.old) }
    {
        self.bytes(value.as_bytes())
    }

    /// What was written.
    pub fn into_bytes(self) -> List<u8>
        ensures { result ≡ self }
    {
        let FieldWriter { written } = self;
        List::from_vec(written)
    }
}
