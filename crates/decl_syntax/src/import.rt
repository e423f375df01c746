// Imports, both ways.
ghost use Rattle.std.specs.Prelude.{◌≡◌};
ghost use Rattle.apt_base.specs.Forms.{numbered};
ghost use Rattle.apt_base.specs.Readings.{Gives};
ghost use Rattle.decl_syntax.specs.Numbers.{import_number, import_of};
ghost use Rattle.decl_syntax.specs.Reading.{import_next};
ghost use Rattle.decl_syntax.specs.Shape.{import_form};

use crate::in_unit::InUnit;
use apt_base::{FieldReader, FieldWriter, FormFault, NoMemory, read_byte, read_text, write_text};
use decl_tree::{Import, ImportKind};
use std::alloc::Global;

fn read_kind(reader: &mut FieldReader) -> Result<ImportKind, FormFault>
    ensures { Gives result (numbered import_of reader.old) reader.new }
{
    match read_byte(reader)? {
        0 => Ok(ImportKind::Single),
        1 => Ok(ImportKind::OnDemand),
        2 => Ok(ImportKind::StaticSingle),
        3 => Ok(ImportKind::StaticOnDemand),
        _ => Err(FormFault::Bad),
    }
}

fn number(kind: ImportKind) -> u8
    ensures { result ≡ import_number kind }
{
    match kind {
        ImportKind::Single => 0,
        ImportKind::OnDemand => 1,
        ImportKind::StaticSingle => 2,
        ImportKind::StaticOnDemand => 3,
    }
}

impl InUnit for Import {
    ghost next = { λ room. import_next };

    ghost form = { import_form };

    #[tactic(auto, unfolding(crate::specs::Reading::import_next))]
    fn read(alloc: Global, reader: &mut FieldReader, room: u32) -> Result<Import, FormFault> {
        let kind = read_kind(reader)?;
        let name = read_text(alloc, reader)?;
        Ok(Import { kind, name })
    }

    #[tactic(auto, unfolding(crate::specs::Shape::import_form))]
    fn write(&self, writer: &mut FieldWriter) -> Result<(), NoMemory> {
        writer.u8(number(self.kind))?;
        write_text(writer, &self.name)
    }
}
