// Types, written by their spelling.
ghost use Rattle.std.specs.Prelude.{◌≡◌, ◌∷◌, ◌++◌, OnOk};
ghost use Rattle.std.specs.List.{flat_map};
ghost use Rattle.apt_base.specs.Fields.{bool_form};
ghost use Rattle.apt_base.specs.Forms.{list_form};
ghost use Rattle.decl_syntax.specs.Numbers.{primitive_number};
ghost use Rattle.decl_syntax.specs.Shape.{around_form, base_form, part_form, type_form};

use apt_base::{FieldWriter, NoMemory, write_count, write_text};
use decl_tree::{Around, BaseType, NamedPart, PrimitiveKind, TypeText};

fn primitive(kind: PrimitiveKind) -> u8
    ensures { result ≡ primitive_number kind }
{
    match kind {
        PrimitiveKind::Boolean => 0,
        PrimitiveKind::Byte => 1,
        PrimitiveKind::Short => 2,
        PrimitiveKind::Int => 3,
        PrimitiveKind::Long => 4,
        PrimitiveKind::Char => 5,
        PrimitiveKind::Float => 6,
        PrimitiveKind::Double => 7,
        PrimitiveKind::Void => 8,
    }
}

// The wildcard with that number, and whether a bound follows.
fn wildcard(writer: &mut FieldWriter, number: u8, bounded: bool) -> Result<(), NoMemory>
    ensures { OnOk result (writer.new ≡ writer.old ++ 3 ∷ number ∷ bool_form bounded) }
{
    writer.u8(3)?;
    writer.u8(number)?;
    writer.bool(bounded)
}

fn around(writer: &mut FieldWriter, item: Around) -> Result<(), NoMemory>
    ensures { OnOk result (writer.new ≡ writer.old ++ around_form item) }
{
    match item {
        Around::Array => writer.u8(2),
        Around::Extends => wildcard(writer, 1, true),
        Around::Super => wildcard(writer, 2, true),
    }
}

fn all_around(writer: &mut FieldWriter, items: &[Around]) -> Result<(), NoMemory>
    ensures { OnOk result (writer.new ≡ writer.old ++ flat_map around_form items.now) }
{
    for each in items {
        around(writer, *each)?;
    }
    Ok(())
}

/// What stands around the base, and the base.
#[cycle(type_writing)]
pub(crate) fn type_text(writer: &mut FieldWriter, of: &TypeText) -> Result<(), NoMemory>
    ensures { OnOk result (writer.new ≡ writer.old ++ type_form of.now) }
{
    all_around(writer, of.around.as_slice())?;
    base(writer, &of.base)
}

#[cycle(type_writing)]
fn base(writer: &mut FieldWriter, of: &BaseType) -> Result<(), NoMemory>
    ensures { OnOk result (writer.new ≡ writer.old ++ base_form of.now) }
{
    match of {
        BaseType::Primitive(kind) => {
            writer.u8(0)?;
            writer.u8(primitive(*kind))
        }
        BaseType::Named(names) => {
            writer.u8(1)?;
            parts(writer, names.as_slice())
        }
        BaseType::Wildcard => wildcard(writer, 0, false),
    }
}

#[cycle(type_writing)]
#[tactic(auto, unfolding(apt_base::specs::Forms::count_form))]
fn parts(writer: &mut FieldWriter, items: &[NamedPart]) -> Result<(), NoMemory>
    ensures { OnOk result (writer.new ≡ writer.old ++ list_form part_form items.now) }
{
    write_count(writer, items.len())?;
    for each in items {
        part(writer, each)?;
    }
    Ok(())
}

#[cycle(type_writing)]
fn part(writer: &mut FieldWriter, part: &NamedPart) -> Result<(), NoMemory>
    ensures { OnOk result (writer.new ≡ writer.old ++ part_form part.now) }
{
    write_text(writer, &part.name)?;
    match &part.arguments {
        None => writer.u8(0),
        Some(arguments) => {
            writer.u8(1)?;
            types(writer, arguments.as_slice())
        }
    }
}

#[cycle(type_writing)]
#[tactic(auto, unfolding(apt_base::specs::Forms::count_form))]
fn types(writer: &mut FieldWriter, items: &[TypeText]) -> Result<(), NoMemory>
    ensures { OnOk result (writer.new ≡ writer.old ++ list_form type_form items.now) }
{
    write_count(writer, items.len())?;
    for each in items {
        type_text(writer, each)?;
    }
    Ok(())
}
