// Reads mirrors.
ghost use Rattle.std.specs.Prelude.{◌≡◌, [], ◌∷◌, ◌++◌, IfOk};
ghost use Rattle.apt_base.specs.Forms.{none_next, numbered, opt_next, list_next};
ghost use Rattle.apt_base.specs.Readings.{Gives};
ghost use Rattle.type_mirror.specs.Parts.{plain, wrapped};
ghost use Rattle.frame_forms.specs.Forms as forms;
ghost use Rattle.frame_forms.specs.MirrorForms.{primitives};
ghost use Rattle.frame_decoder.specs.PartReadings.{exactly_next, around_next, bounded_next, unbounded_next, wildcard_next, variant_around, mirror_at, mirror_in, mirror_next};

use crate::counted_reading::{read_counted_element, read_counted_elements, read_counted_text};
use crate::quota::{OF_BLOCK, Quota, boxed, list_with_room};
use apt_base::{Boxed, FieldReader, FormFault, List, NoMemory, read_byte, read_count, read_truth};
use std::alloc::Global;
use std::mem::size_of;
use type_mirror::{Around, BaseMirror, DeclaredMirror, ExecutableMirror, Mirror, PrimitiveKind};

#[tactic(auto, unfolding(crate::specs::PartReadings::exactly_next))]
fn exactly(only: u8, reader: &mut FieldReader<'_>) -> Result<(), FormFault>
    ensures { Gives result (exactly_next only reader.old) reader.new }
{
    let byte = read_byte(reader)?;
    if byte == only {
        Ok(())
    } else {
        Err(FormFault::Bad)
    }
}

// A base, and what stands around it.
fn based(around: List<Around>, base: BaseMirror) -> Mirror
    ensures { result ≡ wrapped around (plain base) }
{
    Mirror { around, base }
}

// One thing more that stands around a mirror, further in than the others.
fn further_in(
    around: List<Around>,
    next: Around,
    quota: &mut Quota,
) -> Result<List<Around>, NoMemory>
    ensures { IfOk result (λ all. all ≡ around ++ next ∷ []) }
{
    quota.take(OF_BLOCK)?;
    let mut all = around;
    all.push(next)?;
    Ok(all)
}

fn primitive_kind(reader: &mut FieldReader<'_>) -> Result<PrimitiveKind, FormFault>
    ensures { Gives result (numbered primitives.at reader.old) reader.new }
{
    match read_byte(reader)? {
        0 => Ok(PrimitiveKind::Boolean),
        1 => Ok(PrimitiveKind::Byte),
        2 => Ok(PrimitiveKind::Short),
        3 => Ok(PrimitiveKind::Int),
        4 => Ok(PrimitiveKind::Long),
        5 => Ok(PrimitiveKind::Char),
        6 => Ok(PrimitiveKind::Float),
        7 => Ok(PrimitiveKind::Double),
        _ => Err(FormFault::Bad),
    }
}

#[tactic(auto, unfolding(crate::specs::PartReadings::exactly_next))]
fn unbounded(around: List<Around>, reader: &mut FieldReader<'_>) -> Result<Mirror, FormFault>
    ensures { Gives result (around_next around unbounded_next reader.old) reader.new }
{
    exactly(0, reader)?;
    Ok(based(around, BaseMirror::Wildcard))
}

// The bound of a wildcard.
#[cycle(read_mirror)]
fn bounded(
    alloc: Global,
    room: u16,
    around: List<Around>,
    side: Around,
    reader: &mut FieldReader<'_>,
    quota: &mut Quota,
) -> Result<Mirror, FormFault>
    ensures { Gives result (around_next around (bounded_next side (mirror_next room)) reader.old) reader.new }
{
    exactly(1, reader)?;
    let around = further_in(around, side, quota)?;
    around_mirror(alloc, room, around, reader, quota)
}

#[cycle(read_mirror)]
#[tactic(auto, unfolding(crate::specs::PartReadings::wildcard_next))]
fn wildcard(
    alloc: Global,
    room: u16,
    around: List<Around>,
    reader: &mut FieldReader<'_>,
    quota: &mut Quota,
) -> Result<Mirror, FormFault>
    ensures { Gives result (around_next around (wildcard_next (mirror_next room)) reader.old) reader.new }
{
    match read_byte(reader)? {
        0 => unbounded(around, reader),
        1 => bounded(alloc, room, around, Around::Extends, reader, quota),
        2 => bounded(alloc, room, around, Around::Super, reader, quota),
        _ => Err(FormFault::Bad),
    }
}

#[cycle(read_mirror)]
fn declared(
    alloc: Global,
    room: u16,
    around: List<Around>,
    reader: &mut FieldReader<'_>,
    quota: &mut Quota,
) -> Result<Mirror, FormFault>
    ensures { Gives result (variant_around around (mirror_next room) forms.declared reader.old) reader.new }
{
    let element = read_counted_element(alloc, reader, quota)?;
    let enclosing = optional_mirror(alloc, room, reader, quota)?;
    let arguments = read_mirrors(alloc, room, reader, quota)?;
    let declared = DeclaredMirror {
        element,
        enclosing,
        arguments,
    };
    Ok(based(around, BaseMirror::Declared(declared)))
}

#[cycle(read_mirror)]
#[tactic(auto, unfolding(apt_base::specs::Forms::opt_next))]
fn optional_mirror(
    alloc: Global,
    room: u16,
    reader: &mut FieldReader<'_>,
    quota: &mut Quota,
) -> Result<Option<Boxed<Mirror>>, FormFault>
    ensures { Gives result (opt_next (mirror_next room) reader.old) reader.new }
{
    if read_truth(reader)? {
        let mirror = read_mirror(alloc, room, reader, quota)?;
        Ok(Some(boxed(alloc, mirror, size_of::<Mirror>(), quota)?))
    } else {
        Ok(None)
    }
}

/// Mirrors behind their number, in which mirrors are nested at most `room` deep.
#[cycle(read_mirror)]
#[tactic(auto, unfolding(apt_base::specs::Forms::list_next))]
pub(crate) fn read_mirrors(
    alloc: Global,
    room: u16,
    reader: &mut FieldReader<'_>,
    quota: &mut Quota,
) -> Result<List<Mirror>, FormFault>
    ensures { Gives result (list_next (mirror_next room) reader.old) reader.new }
{
    let count = read_count(reader)?;
    let mut items = list_with_room(alloc, count, reader.left(), size_of::<Mirror>(), quota)?;
    for _ in 0..count {
        let item = read_mirror(alloc, room, reader, quota)?;
        items.push(item)?;
    }
    Ok(items)
}

#[cycle(read_mirror)]
fn executable(
    alloc: Global,
    room: u16,
    around: List<Around>,
    reader: &mut FieldReader<'_>,
    quota: &mut Quota,
) -> Result<Mirror, FormFault>
    ensures { Gives result (variant_around around (mirror_next room) forms.executable reader.old) reader.new }
{
    let variables = read_counted_elements(alloc, reader, quota)?;
    let parameters = read_mirrors(alloc, room, reader, quota)?;
    let outcome = read_mirror(alloc, room, reader, quota)?;
    let thrown = read_mirrors(alloc, room, reader, quota)?;
    let executable = ExecutableMirror {
        variables,
        parameters,
        result: boxed(alloc, outcome, size_of::<Mirror>(), quota)?,
        thrown,
    };
    Ok(based(around, BaseMirror::Executable(executable)))
}

fn primitive(around: List<Around>, reader: &mut FieldReader<'_>) -> Result<Mirror, FormFault>
    ensures { Gives result (variant_around around none_next forms.primitive reader.old) reader.new }
{
    let kind = primitive_kind(reader)?;
    Ok(based(around, BaseMirror::Primitive(kind)))
}

fn error(
    alloc: Global,
    around: List<Around>,
    reader: &mut FieldReader<'_>,
    quota: &mut Quota,
) -> Result<Mirror, FormFault>
    ensures { Gives result (variant_around around none_next forms.error reader.old) reader.new }
{
    let text = read_counted_text(alloc, reader, quota)?;
    Ok(based(around, BaseMirror::Error(text)))
}

fn variable(
    alloc: Global,
    around: List<Around>,
    reader: &mut FieldReader<'_>,
    quota: &mut Quota,
) -> Result<Mirror, FormFault>
    ensures { Gives result (variant_around around none_next forms.variable reader.old) reader.new }
{
    let element = read_counted_element(alloc, reader, quota)?;
    Ok(based(around, BaseMirror::Variable(element)))
}

fn package(
    alloc: Global,
    around: List<Around>,
    reader: &mut FieldReader<'_>,
    quota: &mut Quota,
) -> Result<Mirror, FormFault>
    ensures { Gives result (variant_around around none_next forms.package_mirror reader.old) reader.new }
{
    let name = read_counted_text(alloc, reader, quota)?;
    Ok(based(around, BaseMirror::Package(name)))
}

#[cycle(read_mirror)]
fn array(
    alloc: Global,
    room: u16,
    around: List<Around>,
    reader: &mut FieldReader<'_>,
    quota: &mut Quota,
) -> Result<Mirror, FormFault>
    ensures { Gives result (variant_around around (mirror_next room) forms.array reader.old) reader.new }
{
    let around = further_in(around, Around::Array, quota)?;
    around_mirror(alloc, room, around, reader, quota)
}

// The mirror with this number, and what stands around it.
#[cycle(read_mirror)]
fn mirror_of(
    alloc: Global,
    room: u16,
    around: List<Around>,
    number: u8,
    reader: &mut FieldReader<'_>,
    quota: &mut Quota,
) -> Result<Mirror, FormFault>
    ensures { Gives result (around_next around (mirror_at number (mirror_next room)) reader.old) reader.new }
{
    match number {
        0 => primitive(around, reader),
        1 => declared(alloc, room, around, reader, quota),
        2 => error(alloc, around, reader, quota),
        3 => variable(alloc, around, reader, quota),
        4 => array(alloc, room, around, reader, quota),
        5 => wildcard(alloc, room, around, reader, quota),
        6 => executable(alloc, room, around, reader, quota),
        7 => Ok(based(around, BaseMirror::Nothing)),
        8 => Ok(based(around, BaseMirror::Void)),
        9 => Ok(based(around, BaseMirror::Null)),
        10 => package(alloc, around, reader, quota),
        _ => Err(FormFault::Bad),
    }
}

// A mirror in which mirrors are nested at most `room` deep, and what stands around it.
#[cycle(read_mirror)]
#[tactic(auto, unfolding(crate::specs::PartReadings::mirror_in))]
fn mirror_in(
    alloc: Global,
    room: u16,
    around: List<Around>,
    reader: &mut FieldReader<'_>,
    quota: &mut Quota,
) -> Result<Mirror, FormFault>
    ensures { Gives result (around_next around (mirror_in (mirror_next room)) reader.old) reader.new }
{
    let number = read_byte(reader)?;
    mirror_of(alloc, room, around, number, reader, quota)
}

// A mirror that is nested at most `room` deep, and what stands around it. So no mirror is copied for each array or wildcard around it.
#[cycle(read_mirror)]
fn around_mirror(
    alloc: Global,
    room: u16,
    around: List<Around>,
    reader: &mut FieldReader<'_>,
    quota: &mut Quota,
) -> Result<Mirror, FormFault>
    ensures { Gives result (around_next around (mirror_next room) reader.old) reader.new }
{
    if room == 0 {
        return Err(FormFault::Bad);
    }
    mirror_in(alloc, room - 1, around, reader, quota)
}

/// A mirror that is nested at most `room` deep.
#[cycle(read_mirror)]
pub(crate) fn read_mirror(
    alloc: Global,
    room: u16,
    reader: &mut FieldReader<'_>,
    quota: &mut Quota,
) -> Result<Mirror, FormFault>
    ensures { Gives result (mirror_next room reader.old) reader.new }
{
    around_mirror(alloc, room, List::new(alloc), reader, quota)
}
