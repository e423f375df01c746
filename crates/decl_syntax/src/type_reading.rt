// Types, read from their spelling.
ghost use Rattle.apt_base.specs.Forms.{numbered, opt_next, list_next};
ghost use Rattle.apt_base.specs.Readings.{Gives};
ghost use Rattle.decl_syntax.specs.Numbers.{primitive_of};
ghost use Rattle.decl_syntax.specs.Reading.{wildcard_next, step_next, opening_next, base_in, part_in, inside_next, type_next};

use apt_base::{FieldReader, FormFault, List, read_byte, read_count, read_text, read_truth};
use decl_tree::{Around, BaseType, NamedPart, PrimitiveKind, TypeText};
use std::alloc::Global;

/// The kinds of a base.
#[derive(Clone, Copy)]
pub(crate) enum BaseKind {
    Primitive,
    Named,
    Wildcard,
}

/// What stands next where a type is read: one more thing around its base, or the base.
#[derive(Clone, Copy)]
pub(crate) enum Step {
    Around(Around),
    Base(BaseKind),
}

/// How a type begins: what stands around its base, and the base's kind.
#[derive(Drop)]
pub(crate) struct Opening {
    around: List<Around>,
    kind: BaseKind,
}

fn primitive(reader: &mut FieldReader) -> Result<PrimitiveKind, FormFault>
    ensures { Gives result (numbered primitive_of reader.old) reader.new }
{
    match read_byte(reader)? {
        0 => Ok(PrimitiveKind::Boolean),
        1 => Ok(PrimitiveKind::Byte),
        2 => Ok(PrimitiveKind::Short),
        3 => Ok(PrimitiveKind::Int),
        4 => Ok(PrimitiveKind::Long),
        5 => Ok(PrimitiveKind::Char),
        6 => Ok(PrimitiveKind::Float),
        7 => Ok(PrimitiveKind::Double),
        8 => Ok(PrimitiveKind::Void),
        _ => Err(FormFault::Bad),
    }
}

// A wildcard by its number, and whether a bound follows.
fn wildcard(reader: &mut FieldReader) -> Result<Step, FormFault>
    ensures { Gives result (wildcard_next reader.old) reader.new }
{
    let number = read_byte(reader)?;
    if read_truth(reader)? {
        match number {
            1 => Ok(Step::Around(Around::Extends)),
            2 => Ok(Step::Around(Around::Super)),
            _ => Err(FormFault::Bad),
        }
    } else {
        match number {
            0 => Ok(Step::Base(BaseKind::Wildcard)),
            _ => Err(FormFault::Bad),
        }
    }
}

#[tactic(auto, unfolding(crate::specs::Reading::step_next))]
fn next_step(reader: &mut FieldReader) -> Result<Step, FormFault>
    ensures { Gives result (step_next reader.old) reader.new }
{
    match read_byte(reader)? {
        0 => Ok(Step::Base(BaseKind::Primitive)),
        1 => Ok(Step::Base(BaseKind::Named)),
        2 => Ok(Step::Around(Around::Array)),
        3 => wildcard(reader),
        _ => Err(FormFault::Bad),
    }
}

fn read_opening(alloc: Global, reader: &mut FieldReader) -> Result<Opening, FormFault>
    ensures { Gives result (opening_next reader.old) reader.new }
{
    let mut around = List::new(alloc);
    loop {
        match next_step(reader)? {
            Step::Around(item) => around.push(item)?,
            Step::Base(kind) => return Ok(Opening { around, kind }),
        }
    }
}

/// A type within which that number more may open, each inside the one before.
#[cycle(type_reading)]
#[tactic(auto, unfolding(crate::specs::Reading::type_next, crate::specs::Reading::type_in))]
pub(crate) fn type_text(
    alloc: Global,
    reader: &mut FieldReader,
    room: u32,
) -> Result<TypeText, FormFault>
    ensures { Gives result (type_next room reader.old) reader.new }
{
    let Opening { around, kind } = read_opening(alloc, reader)?;
    let base = base(alloc, reader, room, kind)?;
    Ok(TypeText { around, base })
}

#[cycle(type_reading)]
#[tactic(auto, unfolding(crate::specs::Reading::base_in))]
fn base(
    alloc: Global,
    reader: &mut FieldReader,
    room: u32,
    kind: BaseKind,
) -> Result<BaseType, FormFault>
    ensures { Gives result (base_in (inside_next room) kind reader.old) reader.new }
{
    match kind {
        BaseKind::Primitive => {
            let kind = primitive(reader)?;
            Ok(BaseType::Primitive(kind))
        }
        BaseKind::Named => {
            let parts = parts(alloc, reader, room)?;
            Ok(BaseType::Named(parts))
        }
        BaseKind::Wildcard => Ok(BaseType::Wildcard),
    }
}

#[cycle(type_reading)]
#[tactic(auto, unfolding(apt_base::specs::Forms::list_next))]
fn parts(alloc: Global, reader: &mut FieldReader, room: u32) -> Result<List<NamedPart>, FormFault>
    ensures { Gives result (list_next (part_in (inside_next room)) reader.old) reader.new }
{
    let count = read_count(reader)?;
    let mut items = List::new(alloc);
    for _ in 0..count {
        let item = part(alloc, reader, room)?;
        items.push(item)?;
    }
    Ok(items)
}

#[cycle(type_reading)]
#[tactic(auto, unfolding(crate::specs::Reading::part_in))]
fn part(alloc: Global, reader: &mut FieldReader, room: u32) -> Result<NamedPart, FormFault>
    ensures { Gives result (part_in (inside_next room) reader.old) reader.new }
{
    let name = read_text(alloc, reader)?;
    let arguments = arguments(alloc, reader, room)?;
    Ok(NamedPart { name, arguments })
}

#[cycle(type_reading)]
#[tactic(auto, unfolding(apt_base::specs::Forms::opt_next))]
fn arguments(
    alloc: Global,
    reader: &mut FieldReader,
    room: u32,
) -> Result<Option<List<TypeText>>, FormFault>
    ensures { Gives result (opt_next (list_next (inside_next room)) reader.old) reader.new }
{
    if read_truth(reader)? {
        let value = insides(alloc, reader, room)?;
        Ok(Some(value))
    } else {
        Ok(None)
    }
}

#[cycle(type_reading)]
#[tactic(auto, unfolding(apt_base::specs::Forms::list_next))]
fn insides(alloc: Global, reader: &mut FieldReader, room: u32) -> Result<List<TypeText>, FormFault>
    ensures { Gives result (list_next (inside_next room) reader.old) reader.new }
{
    let count = read_count(reader)?;
    let mut items = List::new(alloc);
    for _ in 0..count {
        let item = inside(alloc, reader, room)?;
        items.push(item)?;
    }
    Ok(items)
}

#[cycle(type_reading)]
fn inside(alloc: Global, reader: &mut FieldReader, room: u32) -> Result<TypeText, FormFault>
    ensures { Gives result (inside_next room reader.old) reader.new }
{
    if room == 0 {
        return Err(FormFault::Bad);
    }
    type_text(alloc, reader, room - 1)
}
