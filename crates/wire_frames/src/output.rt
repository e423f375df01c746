// Where the fields of a frame go: they are counted first, so that a frame that is too large takes no memory, and then written.
ghost use Rattle.std.specs.Prelude.{◌≡◌, [], ◌∷◌, ◌++◌, OnOk};
ghost use Rattle.std.specs.Int.{w16, w32, to_be_bytes};
ghost use Rattle.apt_base.specs.Fields.{i64_form, bytes_form};
ghost use Rattle.frame_forms.specs.MirrorForms.{bool_number};
ghost use Rattle.wire_frames.specs.Outputs.{Adds, size_of, written_to};

use apt_base::{FieldWriter, List, Name, NoMemory, write_count, write_text};
use std::alloc::Global;

/// Where fields go.
///
/// Each method adds the spelling of a value. It fails only when memory runs out, and never where it counts.
#[derive(Drop)]
pub(crate) enum Output {
    /// They are counted, up to the largest `usize`.
    Counted(usize),
    /// They are written.
    Written(FieldWriter),
}

impl Output {
    /// A number of one byte.
    #[tactic(auto, unfolding(crate::specs::Outputs::added, crate::specs::Outputs::is_written))]
    pub(crate) fn u8(&mut self, value: u8) -> Result<(), NoMemory>
        ensures { Adds result self.old self.new (value ∷ []) }
    {
        match self {
            Output::Counted(size) => {
                *size = size.saturating_add(1);
                Ok(())
            }
            Output::Written(writer) => writer.u8(value),
        }
    }

    /// A number of two bytes, its big end first.
    #[tactic(auto, unfolding(crate::specs::Outputs::added, crate::specs::Outputs::is_written))]
    pub(crate) fn u16(&mut self, value: u16) -> Result<(), NoMemory>
        ensures { Adds result self.old self.new (to_be_bytes w16 value) }
    {
        match self {
            Output::Counted(size) => {
                *size = size.saturating_add(2);
                Ok(())
            }
            Output::Written(writer) => writer.u16(value),
        }
    }

    /// A number of four bytes, its big end first.
    #[tactic(auto, unfolding(crate::specs::Outputs::added, crate::specs::Outputs::is_written))]
    pub(crate) fn u32(&mut self, value: u32) -> Result<(), NoMemory>
        ensures { Adds result self.old self.new (to_be_bytes w32 value) }
    {
        match self {
            Output::Counted(size) => {
                *size = size.saturating_add(4);
                Ok(())
            }
            Output::Written(writer) => writer.u32(value),
        }
    }

    /// A number of eight bytes in two's complement, its big end first.
    #[tactic(auto, unfolding(crate::specs::Outputs::added, crate::specs::Outputs::is_written))]
    pub(crate) fn i64(&mut self, value: i64) -> Result<(), NoMemory>
        ensures { Adds result self.old self.new (i64_form value) }
    {
        match self {
            Output::Counted(size) => {
                *size = size.saturating_add(8);
                Ok(())
            }
            Output::Written(writer) => writer.i64(value),
        }
    }

    /// One byte, 0 for `false` and 1 for `true`.
    pub(crate) fn bool(&mut self, value: bool) -> Result<(), NoMemory>
        ensures { Adds result self.old self.new (bool_number value ∷ []) }
    {
        if value { self.u8(1) } else { self.u8(0) }
    }

    /// The number of the items of a list, in four bytes.
    #[tactic(auto, unfolding(crate::specs::Outputs::added, crate::specs::Outputs::is_written, apt_base::specs::Forms::count_form))]
    pub(crate) fn count(&mut self, items: usize) -> Result<(), NoMemory>
        ensures { Adds result self.old self.new (to_be_bytes w32 items) }
    {
        match self {
            Output::Counted(size) => {
                *size = size.saturating_add(4);
                Ok(())
            }
            Output::Written(writer) => write_count(writer, items),
        }
    }

    /// The number of the text's bytes in four bytes, and the text in UTF-8.
    #[tactic(auto, unfolding(crate::specs::Outputs::added, crate::specs::Outputs::is_written, apt_base::specs::Forms::name_form))]
    pub(crate) fn text(&mut self, name: &Name) -> Result<(), NoMemory>
        ensures { Adds result self.old self.new (bytes_form name.now) }
    {
        match self {
            Output::Counted(size) => {
                *size = size.saturating_add(4).saturating_add(name.as_str().len());
                Ok(())
            }
            Output::Written(writer) => write_text(writer, name),
        }
    }

    /// The number of the bytes in four bytes, and the bytes.
    #[tactic(auto, unfolding(crate::specs::Outputs::added, crate::specs::Outputs::is_written))]
    pub(crate) fn bytes(&mut self, bytes: &[u8]) -> Result<(), NoMemory>
        ensures { Adds result self.old self.new (bytes_form bytes.now) }
    {
        match self {
            Output::Counted(size) => {
                *size = size.saturating_add(4).saturating_add(bytes.len());
                Ok(())
            }
            Output::Written(writer) => write_bytes(writer, bytes),
        }
    }

    /// How many bytes were counted; 0 where they were written.
    pub(crate) fn size(self) -> usize
        ensures { result ≡ size_of self }
    {
        match self {
            Output::Counted(size) => size,
            Output::Written(_) => 0,
        }
    }

    /// What was written; nothing where it was counted.
    pub(crate) fn into_bytes(self, alloc: Global) -> List<u8>
        ensures { result ≡ written_to self }
    {
        match self {
            Output::Counted(_) => List::new(alloc),
            Output::Written(writer) => writer.into_bytes(),
        }
    }
}

// Bytes. More than can be counted in four bytes are taken for a lack of memory.
fn write_bytes(writer: &mut FieldWriter, bytes: &[u8]) -> Result<(), NoMemory>
    ensures { OnOk result (writer.new ≡ writer.old ++ bytes_form bytes.now) }
{
    if bytes.len() > u32::MAX as usize {
        return Err(NoMemory);
    }
    writer.bytes(bytes)
}
