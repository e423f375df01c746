// The spelling of the forms of which other forms are made: a count, texts.
ghost use Rattle.std.specs.Prelude.{◌≡◌, ◌++◌, OnOk};
ghost use Rattle.apt_base.specs.Forms.{name_form, count_form, list_form, opt_form};

use crate::{FieldWriter, Name, NoMemory};

/// The number of items of a list. A list that is too long to be counted in four bytes is taken for a lack of memory.
#[tactic(auto, unfolding(crate::specs::Forms::count_form))]
pub fn write_count(writer: &mut FieldWriter, items: usize) -> Result<(), NoMemory>
    ensures { OnOk result (writer.new ≡ writer.old ++ count_form items) }
{
    match u32::try_from(items) {
        Ok(items) => writer.u32(items),
        Err(_) => Err(NoMemory),
    }
}

/// A text. One that is too long for its length to be written in four bytes is taken for a lack of memory.
#[tactic(auto, unfolding(crate::specs::Forms::name_form))]
pub fn write_text(writer: &mut FieldWriter, name: &Name) -> Result<(), NoMemory>
    ensures { OnOk result (writer.new ≡ writer.old ++ name_form name.now) }
{
    let text = name.as_str();
    if text.len() > u32::MAX as usize {
        return Err(NoMemory);
    }
    writer.text(text)
}

/// 0, or 1 and the text.
pub fn write_optional_text(writer: &mut FieldWriter, value: &Option<Name>) -> Result<(), NoMemory>
    ensures { OnOk result (writer.new ≡ writer.old ++ opt_form name_form value.now) }
{
    match value {
        None => writer.u8(0),
        Some(value) => {
            writer.u8(1)?;
            write_text(writer, value)
        }
    }
}

/// The number of the texts, and the texts.
#[tactic(auto, unfolding(crate::specs::Forms::count_form))]
pub fn write_texts(writer: &mut FieldWriter, items: &[Name]) -> Result<(), NoMemory>
    ensures { OnOk result (writer.new ≡ writer.old ++ list_form name_form items.now) }
{
    write_count(writer, items.len())?;
    for each in items {
        write_text(writer, each)?;
    }
    Ok(())
}
