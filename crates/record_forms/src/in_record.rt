// What stands in a record: how each such value is written and read, by its form.
ghost use Rattle.std.specs.Prelude.{◌≡◌, ◌++◌, ℕ, List, Bool, OnOk};
ghost use Rattle.apt_base.specs.Readings.{Gives};
ghost use Rattle.record_forms.specs.Forms.{Form, u16, text, octets, octets_form, text_less};
ghost use Rattle.record_forms.specs.RecordTable.{option, named, pair_less};

use apt_base::{FieldReader, FieldWriter, FormFault, List, Name, NoMemory, read_text, write_text};
use std::alloc::Global;
use wire_frames::read_step;

/// What stands in a record, alone, in a list or where it may be left out.
pub(crate) trait InRecord: Drop {
    /// Its form.
    ghost form: { Form Self };

    /// Reads it.
    fn read(alloc: Global, reader: &mut FieldReader<'_>) -> Result<Self, FormFault>
        ensures { Gives result (form.next reader.old) reader.new };

    /// Writes it.
    fn write(&self, writer: &mut FieldWriter) -> Result<(), NoMemory>
        ensures { OnOk result (writer.new ≡ writer.old ++ form.spelling self.now) };
}

/// What stands in lists that ascend.
pub(crate) trait InOrder: Drop {
    /// The order.
    ghost less: { Self → Self → Bool };

    /// Whether it stands before the other one.
    fn is_less(&self, other: &Self) -> bool
        ensures { result ≡ less self.now other.now };
}

// ---- numbers, names, and names with a text or with bytes

impl InRecord for u16 {
    ghost form = { u16 };

    fn read(_alloc: Global, reader: &mut FieldReader<'_>) -> Result<u16, FormFault> {
        read_step(reader)
    }

    #[tactic(auto, unfolding(apt_base::specs::Forms::u16_form))]
    fn write(&self, writer: &mut FieldWriter) -> Result<(), NoMemory> {
        writer.u16(*self)
    }
}

impl InRecord for Name {
    ghost form = { text };

    fn read(alloc: Global, reader: &mut FieldReader<'_>) -> Result<Name, FormFault> {
        read_text(alloc, reader)
    }

    fn write(&self, writer: &mut FieldWriter) -> Result<(), NoMemory> {
        write_text(writer, self)
    }
}

impl InOrder for Name {
    ghost less = { text_less };

    fn is_less(&self, other: &Name) -> bool {
        self.as_str() < other.as_str()
    }
}

impl InRecord for (Name, Name) {
    ghost form = { option };

    fn read(alloc: Global, reader: &mut FieldReader<'_>) -> Result<(Name, Name), FormFault> {
        let key = read_text(alloc, reader)?;
        let value = read_text(alloc, reader)?;
        Ok((key, value))
    }

    fn write(&self, writer: &mut FieldWriter) -> Result<(), NoMemory> {
        write_text(writer, &self.0)?;
        write_text(writer, &self.1)
    }
}

impl InOrder for (Name, Name) {
    ghost less = { pair_less };

    fn is_less(&self, other: &(Name, Name)) -> bool {
        self.0.as_str() < other.0.as_str()
    }
}

fn read_octets(alloc: Global, reader: &mut FieldReader<'_>) -> Result<List<u8>, FormFault>
    ensures { Gives result (octets.next reader.old) reader.new }
{
    let Some(bytes) = reader.bytes() else {
        return Err(FormFault::Bad);
    };
    match bytes.to_vec(alloc) {
        Ok(bytes) => Ok(List::from_vec(bytes)),
        Err(_) => Err(FormFault::Memory),
    }
}

// More bytes than can be counted in four are taken for a lack of memory.
#[tactic(auto, unfolding(crate::specs::Forms::octets_form))]
fn write_octets(writer: &mut FieldWriter, bytes: &[u8]) -> Result<(), NoMemory>
    ensures { OnOk result (writer.new ≡ writer.old ++ octets_form bytes.now) }
{
    if bytes.len() > u32::MAX as usize {
        return Err(NoMemory);
    }
    writer.bytes(bytes)
}

impl InRecord for (Name, List<u8>) {
    ghost form = { named };

    fn read(alloc: Global, reader: &mut FieldReader<'_>) -> Result<(Name, List<u8>), FormFault> {
        let name = read_text(alloc, reader)?;
        let bytes = read_octets(alloc, reader)?;
        Ok((name, bytes))
    }

    fn write(&self, writer: &mut FieldWriter) -> Result<(), NoMemory> {
        write_text(writer, &self.0)?;
        write_octets(writer, self.1.as_slice())
    }
}

impl InOrder for (Name, List<u8>) {
    ghost less = { pair_less };

    fn is_less(&self, other: &(Name, List<u8>)) -> bool {
        self.0.as_str() < other.0.as_str()
    }
}
