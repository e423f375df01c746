// Lists, and parts that may be left out.
ghost use Rattle.std.specs.Prelude.{◌≡◌, ◌++◌, OnOk, None};
ghost use Rattle.std.specs.Option.{option_copied};
ghost use Rattle.apt_base.specs.Forms.{list_form, opt_form};
ghost use Rattle.apt_base.specs.Readings.{Gives};
ghost use Rattle.record_forms.specs.Forms.{opt, list, ascending, is_above, ascends};

use crate::in_record::{InOrder, InRecord};
use apt_base::{
    FieldReader, FieldWriter, FormFault, List, NoMemory, read_count, read_truth, write_count,
};
use std::alloc::Global;

/// A count and that many items.
#[tactic(auto, unfolding(apt_base::specs::Forms::list_next))]
pub(crate) fn read_list<T: InRecord>(
    alloc: Global,
    reader: &mut FieldReader<'_>,
) -> Result<List<T>, FormFault>
    ensures { Gives result ((list T.form).next reader.old) reader.new }
{
    let count = read_count(reader)?;
    let mut items = List::new(alloc);
    for _ in 0..count {
        let item = T::read(alloc, reader)?;
        items.push(item)?;
    }
    Ok(items)
}

fn is_above<T: InOrder>(last: Option<&T>, item: &T) -> bool
    ensures { result ≡ is_above T.less (option_copied last.entry) item.now }
{
    match last {
        None => true,
        Some(last) => last.is_less(item),
    }
}

fn ascends<T: InOrder>(items: &[T]) -> bool
    ensures { result ≡ ascends T.less items.now }
{
    let mut last: Option<&T> = None;
    for item in items {
        if !is_above(last, item) {
            return false;
        }
        last = Some(item);
    }
    true
}

/// A list that ascends strictly.
pub(crate) fn read_ascending<T: InRecord + InOrder>(
    alloc: Global,
    reader: &mut FieldReader<'_>,
) -> Result<List<T>, FormFault>
    ensures { Gives result ((ascending T.less T.form).next reader.old) reader.new }
{
    let items = read_list(alloc, reader)?;
    if ascends(items.as_slice()) {
        Ok(items)
    } else {
        drop(items);
        Err(FormFault::Bad)
    }
}

/// A part that may be left out.
#[tactic(auto, unfolding(apt_base::specs::Forms::opt_next))]
pub(crate) fn read_optional<T: InRecord>(
    alloc: Global,
    reader: &mut FieldReader<'_>,
) -> Result<Option<T>, FormFault>
    ensures { Gives result ((opt T.form).next reader.old) reader.new }
{
    if read_truth(reader)? {
        let part = T::read(alloc, reader)?;
        Ok(Some(part))
    } else {
        Ok(None)
    }
}

/// The number of the items, and the items.
#[tactic(auto, unfolding(apt_base::specs::Forms::count_form))]
pub(crate) fn write_list<T: InRecord>(writer: &mut FieldWriter, items: &[T]) -> Result<(), NoMemory>
    ensures { OnOk result (writer.new ≡ writer.old ++ list_form T.form.spelling items.now) }
{
    write_count(writer, items.len())?;
    for each in items {
        each.write(writer)?;
    }
    Ok(())
}

/// 0, or 1 and the part.
pub(crate) fn write_optional<T: InRecord>(
    writer: &mut FieldWriter,
    part: &Option<T>,
) -> Result<(), NoMemory>
    ensures { OnOk result (writer.new ≡ writer.old ++ opt_form T.form.spelling part.now) }
{
    match part {
        None => writer.u8(0),
        Some(part) => {
            writer.u8(1)?;
            part.write(writer)
        }
    }
}
