// Reads the texts and references within mirrors and values, whose memory is counted.
ghost use Rattle.apt_base.specs.Fields.{text_next};
ghost use Rattle.apt_base.specs.Forms.{list_next};
ghost use Rattle.apt_base.specs.Readings.{Gives};
ghost use Rattle.wire_frames.specs.Readings.{element_next};

use crate::quota::{OF_BLOCK, Quota, list_with_room};
use apt_base::{ElementRef, FieldReader, FormFault, List, Name, read_count, read_text};
use std::alloc::Global;
use std::mem::size_of;
use wire_frames::read_element;

/// A text, whose block is taken from the quota first. Its bytes are not: the frame has as many.
pub(crate) fn read_counted_text(
    alloc: Global,
    reader: &mut FieldReader<'_>,
    quota: &mut Quota,
) -> Result<Name, FormFault>
    ensures { Gives result (text_next reader.old) reader.new }
{
    quota.take(OF_BLOCK)?;
    read_text(alloc, reader)
}

/// A reference, whose two blocks, of its unit and its path, are taken from the quota first.
pub(crate) fn read_counted_element(
    alloc: Global,
    reader: &mut FieldReader<'_>,
    quota: &mut Quota,
) -> Result<ElementRef, FormFault>
    ensures { Gives result (element_next reader.old) reader.new }
{
    quota.take(2 * OF_BLOCK)?;
    read_element(alloc, reader)
}

/// References behind their number.
#[tactic(auto, unfolding(apt_base::specs::Forms::list_next))]
pub(crate) fn read_counted_elements(
    alloc: Global,
    reader: &mut FieldReader<'_>,
    quota: &mut Quota,
) -> Result<List<ElementRef>, FormFault>
    ensures { Gives result (list_next element_next reader.old) reader.new }
{
    let count = read_count(reader)?;
    let mut items = list_with_room(alloc, count, reader.left(), size_of::<ElementRef>(), quota)?;
    for _ in 0..count {
        let item = read_counted_element(alloc, reader, quota)?;
        items.push(item)?;
    }
    Ok(items)
}
