// The forms of which other forms are made: a byte, a count, a truth, texts, as values or as the one fault.
ghost use Rattle.apt_base.specs.Fields.{u8_next, u32_next, bool_next, text_next};
ghost use Rattle.apt_base.specs.Forms.{opt_next, list_next};
ghost use Rattle.apt_base.specs.Readings.{Gives};

use crate::fault::FormFault;
use crate::{FieldReader, List, Name};
use std::alloc::Global;

/// The byte that stands next.
pub fn read_byte(reader: &mut FieldReader) -> Result<u8, FormFault>
    ensures { Gives result (u8_next reader.old) reader.new }
{
    match reader.u8() {
        Some(byte) => Ok(byte),
        None => Err(FormFault::Bad),
    }
}

/// The number of items of a list.
pub fn read_count(reader: &mut FieldReader) -> Result<u32, FormFault>
    ensures { Gives result (u32_next reader.old) reader.new }
{
    match reader.u32() {
        Some(count) => Ok(count),
        None => Err(FormFault::Bad),
    }
}

/// Whether a part is there, or what else is true or false.
pub fn read_truth(reader: &mut FieldReader) -> Result<bool, FormFault>
    ensures { Gives result (bool_next reader.old) reader.new }
{
    match reader.bool() {
        Some(flag) => Ok(flag),
        None => Err(FormFault::Bad),
    }
}

/// A text.
pub fn read_text(alloc: Global, reader: &mut FieldReader) -> Result<Name, FormFault>
    ensures { Gives result (text_next reader.old) reader.new }
{
    match reader.text() {
        Some(text) => {
            let name = Name::new(alloc, text)?;
            Ok(name)
        }
        None => Err(FormFault::Bad),
    }
}

/// A text, where one is there.
#[tactic(auto, unfolding(crate::specs::Forms::opt_next))]
pub fn read_optional_text(
    alloc: Global,
    reader: &mut FieldReader,
) -> Result<Option<Name>, FormFault>
    ensures { Gives result (opt_next text_next reader.old) reader.new }
{
    if read_truth(reader)? {
        let value = read_text(alloc, reader)?;
        Ok(Some(value))
    } else {
        Ok(None)
    }
}

/// Texts behind their number.
#[tactic(auto, unfolding(crate::specs::Forms::list_next))]
pub fn read_texts(alloc: Global, reader: &mut FieldReader) -> Result<List<Name>, FormFault>
    ensures { Gives result (list_next text_next reader.old) reader.new }
{
    let count = read_count(reader)?;
    let mut items = List::new(alloc);
    for _ in 0..count {
        let item = read_text(alloc, reader)?;
        items.push(item)?;
    }
    Ok(items)
}
