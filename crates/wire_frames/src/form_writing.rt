// Writes what the fields of frames are made of.
ghost use Rattle.std.specs.Prelude.{◌≡◌, ◌∷◌, [], OnOk};
ghost use Rattle.std.specs.List.{flat_map};
ghost use Rattle.std.specs.Int.{w16, w32, to_be_bytes};
ghost use Rattle.apt_base.specs.Fields.{i64_form, bytes_form};
ghost use Rattle.frame_forms.specs.MirrorForms.{primitive_number, whole_number, bool_number};
ghost use Rattle.wire_frames.specs.Outputs.{Adds};
ghost use Rattle.wire_frames.specs.Spellings.{list_spelled, element_spelled, around_spelled, mirror_spelled, base_spelled, enclosing_spelled, declared_spelled, executable_spelled, value_spelled, named_spelled, annotation_spelled};

use crate::output::Output;
use apt_base::{ElementRef, List, Name, NoMemory};
use type_mirror::{
    Annotation, Around, BaseMirror, DeclaredMirror, ExecutableMirror, Mirror, NamedValue,
    PrimitiveKind, Value, WholeKind,
};

// ---- texts and elements

/// Texts behind their number.
#[tactic(auto, using(crate::proofs::Added::adds))]
pub(crate) fn put_texts(output: &mut Output, texts: &[Name]) -> Result<(), NoMemory>
    ensures { Adds result output.old output.new (list_spelled bytes_form texts.now) }
{
    output.count(texts.len())?;
    for text in texts {
        output.text(text)?;
    }
    Ok(())
}

#[tactic(auto, using(crate::proofs::Added::adds))]
fn put_path(output: &mut Output, path: &[u16]) -> Result<(), NoMemory>
    ensures { Adds result output.old output.new (list_spelled (to_be_bytes w16) path.now) }
{
    output.count(path.len())?;
    for step in path {
        output.u16(*step)?;
    }
    Ok(())
}

/// An element.
#[tactic(auto, using(crate::proofs::Added::adds))]
pub(crate) fn put_element(output: &mut Output, element: &ElementRef) -> Result<(), NoMemory>
    ensures { Adds result output.old output.new (element_spelled element.now) }
{
    output.text(&element.unit)?;
    put_path(output, element.path.as_slice())
}

/// Elements behind their number.
#[tactic(auto, using(crate::proofs::Added::adds))]
pub(crate) fn put_elements(output: &mut Output, elements: &[ElementRef]) -> Result<(), NoMemory>
    ensures { Adds result output.old output.new (list_spelled element_spelled elements.now) }
{
    output.count(elements.len())?;
    for each in elements {
        put_element(output, each)?;
    }
    Ok(())
}

/// A number of one byte, and a text.
#[tactic(auto, using(crate::proofs::Added::adds))]
pub(crate) fn put_tagged_text(output: &mut Output, tag: u8, text: &Name) -> Result<(), NoMemory>
    ensures { Adds result output.old output.new (tag ∷ bytes_form text.now) }
{
    output.u8(tag)?;
    output.text(text)
}

/// A number of one byte, and an element.
#[tactic(auto, using(crate::proofs::Added::adds))]
pub(crate) fn put_tagged_element(
    output: &mut Output,
    tag: u8,
    element: &ElementRef,
) -> Result<(), NoMemory>
    ensures { Adds result output.old output.new (tag ∷ element_spelled element.now) }
{
    output.u8(tag)?;
    put_element(output, element)
}

// ---- mirrors

#[tactic(auto, unfolding(crate::specs::Spellings::around_spelled))]
fn put_around(output: &mut Output, around: Around) -> Result<(), NoMemory>
    ensures { Adds result output.old output.new (around_spelled around) }
{
    match around {
        Around::Array => output.u8(4),
        Around::Extends => put_bounded(output, 1),
        Around::Super => put_bounded(output, 2),
    }
}

#[tactic(auto, using(crate::proofs::Added::adds))]
fn put_bounded(output: &mut Output, bound: u8) -> Result<(), NoMemory>
    ensures { Adds result output.old output.new (5 ∷ bound ∷ 1 ∷ []) }
{
    output.u8(5)?;
    output.u8(bound)?;
    output.u8(1)
}

// What stands around a mirror, as far as there is room for it.
#[tactic(auto, using(crate::proofs::Added::adds))]
fn put_arounds(output: &mut Output, arounds: &[Around]) -> Result<(), NoMemory>
    ensures { Adds result output.old output.new (flat_map around_spelled arounds.now) }
{
    for around in arounds {
        put_around(output, *around)?;
    }
    Ok(())
}

/// A mirror. What is nested deeper than `room` is left out.
#[cycle(put_mirror)]
#[tactic(auto, using(crate::proofs::Added::adds))]
pub(crate) fn put_mirror(output: &mut Output, mirror: &Mirror, room: u16) -> Result<(), NoMemory>
    ensures { Adds result output.old output.new (mirror_spelled room mirror.now) }
{
    let around = mirror.around.as_slice();
    let count = around.len().min(room as usize);
    put_arounds(output, &around[..count])?;
    put_base(output, &mirror.base, room - count as u16)
}

#[cycle(put_mirror)]
#[tactic(auto, using(crate::proofs::Added::adds))]
fn put_base(output: &mut Output, base: &BaseMirror, room: u16) -> Result<(), NoMemory>
    ensures { Adds result output.old output.new (base_spelled room base.now) }
{
    if room == 0 {
        return Ok(());
    }
    match base {
        BaseMirror::Primitive(kind) => put_primitive(output, *kind),
        BaseMirror::Declared(declared) => put_declared(output, declared, room - 1),
        BaseMirror::Error(text) => put_tagged_text(output, 2, text),
        BaseMirror::Variable(element) => put_tagged_element(output, 3, element),
        BaseMirror::Wildcard => put_wildcard(output),
        BaseMirror::Executable(executable) => put_executable(output, executable, room - 1),
        BaseMirror::Nothing => output.u8(7),
        BaseMirror::Void => output.u8(8),
        BaseMirror::Null => output.u8(9),
        BaseMirror::Package(name) => put_tagged_text(output, 10, name),
    }
}

#[tactic(auto, using(crate::proofs::Added::adds))]
fn put_primitive(output: &mut Output, kind: PrimitiveKind) -> Result<(), NoMemory>
    ensures { Adds result output.old output.new (0 ∷ primitive_number kind ∷ []) }
{
    output.u8(0)?;
    output.u8(kind as u8)
}

#[tactic(auto, using(crate::proofs::Added::adds))]
fn put_wildcard(output: &mut Output) -> Result<(), NoMemory>
    ensures { Adds result output.old output.new (5 ∷ 0 ∷ 0 ∷ []) }
{
    output.u8(5)?;
    output.u8(0)?;
    output.u8(0)
}

/// Mirrors behind their number.
#[cycle(put_mirror)]
#[tactic(auto, using(crate::proofs::Added::adds))]
pub(crate) fn put_mirrors(
    output: &mut Output,
    mirrors: &[Mirror],
    room: u16,
) -> Result<(), NoMemory>
    ensures { Adds result output.old output.new (list_spelled (mirror_spelled room) mirrors.now) }
{
    output.count(mirrors.len())?;
    for each in mirrors {
        put_mirror(output, each, room)?;
    }
    Ok(())
}

#[cycle(put_mirror)]
#[tactic(auto, using(crate::proofs::Added::adds))]
fn put_declared(output: &mut Output, declared: &DeclaredMirror, room: u16) -> Result<(), NoMemory>
    ensures { Adds result output.old output.new (1 ∷ declared_spelled room declared.now) }
{
    output.u8(1)?;
    put_element(output, &declared.element)?;
    put_enclosing(output, declared, room)?;
    put_mirrors(output, declared.arguments.as_slice(), room)
}

#[cycle(put_mirror)]
#[tactic(auto, using(crate::proofs::Added::adds))]
fn put_enclosing(output: &mut Output, declared: &DeclaredMirror, room: u16) -> Result<(), NoMemory>
    ensures { Adds result output.old output.new (enclosing_spelled room declared.now) }
{
    match &declared.enclosing {
        None => output.u8(0),
        Some(mirror) => {
            output.u8(1)?;
            put_mirror(output, mirror.get(), room)
        }
    }
}

#[cycle(put_mirror)]
#[tactic(auto, using(crate::proofs::Added::adds))]
fn put_executable(
    output: &mut Output,
    executable: &ExecutableMirror,
    room: u16,
) -> Result<(), NoMemory>
    ensures { Adds result output.old output.new (6 ∷ executable_spelled room executable.now) }
{
    output.u8(6)?;
    put_elements(output, executable.variables.as_slice())?;
    put_mirrors(output, executable.parameters.as_slice(), room)?;
    put_mirror(output, executable.result.get(), room)?;
    put_mirrors(output, executable.thrown.as_slice(), room)
}

/// A number of one byte, and a mirror.
#[tactic(auto, using(crate::proofs::Added::adds))]
pub(crate) fn put_tagged_mirror(
    output: &mut Output,
    tag: u8,
    mirror: &Mirror,
    room: u16,
) -> Result<(), NoMemory>
    ensures { Adds result output.old output.new (tag ∷ mirror_spelled room mirror.now) }
{
    output.u8(tag)?;
    put_mirror(output, mirror, room)
}

// ---- values and annotations

/// A value. What is nested deeper than `room` is left out.
#[cycle(put_value)]
#[tactic(auto, using(crate::proofs::Added::adds))]
pub(crate) fn put_value(output: &mut Output, value: &Value, room: u16) -> Result<(), NoMemory>
    ensures { Adds result output.old output.new (value_spelled room value.now) }
{
    if room == 0 {
        return Ok(());
    }
    match value {
        Value::Truth(truth) => put_truth(output, *truth),
        Value::Whole(kind, number) => put_whole(output, *kind, number),
        Value::Character(number) => put_character(output, *number),
        Value::Text(text) => put_tagged_text(output, 3, text),
        Value::Class(of) => put_tagged_mirror(output, 4, of, room - 1),
        Value::Constant(element) => put_tagged_element(output, 5, element),
        Value::Array(items) => put_array(output, items, room - 1),
        Value::Nested(annotation) => put_nested(output, annotation, room - 1),
        Value::Other(text) => put_tagged_text(output, 8, text),
        Value::Floating(text) => put_tagged_text(output, 9, text),
    }
}

#[tactic(auto, using(crate::proofs::Added::adds))]
fn put_truth(output: &mut Output, truth: bool) -> Result<(), NoMemory>
    ensures { Adds result output.old output.new (0 ∷ bool_number truth ∷ []) }
{
    output.u8(0)?;
    output.bool(truth)
}

#[tactic(auto, using(crate::proofs::Added::adds))]
fn put_whole(output: &mut Output, kind: WholeKind, number: &i64) -> Result<(), NoMemory>
    ensures { Adds result output.old output.new (1 ∷ whole_number kind ∷ i64_form number.now) }
{
    output.u8(1)?;
    put_whole_kind(output, kind)?;
    output.i64(*number)
}

fn put_whole_kind(output: &mut Output, kind: WholeKind) -> Result<(), NoMemory>
    ensures { Adds result output.old output.new (whole_number kind ∷ []) }
{
    match kind {
        WholeKind::Int => output.u8(3),
        WholeKind::Long => output.u8(4),
    }
}

#[tactic(auto, using(crate::proofs::Added::adds))]
fn put_character(output: &mut Output, number: u32) -> Result<(), NoMemory>
    ensures { Adds result output.old output.new (2 ∷ to_be_bytes w32 number) }
{
    output.u8(2)?;
    output.u32(number)
}

#[cycle(put_value)]
#[tactic(auto, using(crate::proofs::Added::adds))]
fn put_array(output: &mut Output, items: &List<Value>, room: u16) -> Result<(), NoMemory>
    ensures { Adds result output.old output.new (6 ∷ list_spelled (value_spelled room) items.now) }
{
    output.u8(6)?;
    put_values(output, items.as_slice(), room)
}

#[cycle(put_value)]
#[tactic(auto, using(crate::proofs::Added::adds))]
fn put_values(output: &mut Output, items: &[Value], room: u16) -> Result<(), NoMemory>
    ensures { Adds result output.old output.new (list_spelled (value_spelled room) items.now) }
{
    output.count(items.len())?;
    for each in items {
        put_value(output, each, room)?;
    }
    Ok(())
}

#[cycle(put_value)]
#[tactic(auto, using(crate::proofs::Added::adds))]
fn put_nested(output: &mut Output, annotation: &Annotation, room: u16) -> Result<(), NoMemory>
    ensures { Adds result output.old output.new (7 ∷ annotation_spelled room annotation.now) }
{
    output.u8(7)?;
    put_annotation(output, annotation, room)
}

/// An annotation. What is nested deeper than `room` in it is left out.
#[cycle(put_value)]
#[tactic(auto, using(crate::proofs::Added::adds))]
pub(crate) fn put_annotation(
    output: &mut Output,
    annotation: &Annotation,
    room: u16,
) -> Result<(), NoMemory>
    ensures { Adds result output.old output.new (annotation_spelled room annotation.now) }
{
    put_mirror(output, &annotation.annotation_type, room)?;
    put_named(output, annotation.values.as_slice(), room)
}

#[cycle(put_value)]
#[tactic(auto, using(crate::proofs::Added::adds))]
fn put_named(output: &mut Output, values: &[NamedValue], room: u16) -> Result<(), NoMemory>
    ensures { Adds result output.old output.new (list_spelled (named_spelled room) values.now) }
{
    output.count(values.len())?;
    for each in values {
        put_named_value(output, each, room)?;
    }
    Ok(())
}

#[cycle(put_value)]
#[tactic(auto, using(crate::proofs::Added::adds))]
fn put_named_value(output: &mut Output, named: &NamedValue, room: u16) -> Result<(), NoMemory>
    ensures { Adds result output.old output.new (named_spelled room named.now) }
{
    output.text(&named.name)?;
    put_value(output, &named.value, room)
}

/// Annotations behind their number.
#[tactic(auto, using(crate::proofs::Added::adds))]
pub(crate) fn put_annotations(
    output: &mut Output,
    annotations: &[Annotation],
    room: u16,
) -> Result<(), NoMemory>
    ensures { Adds result output.old output.new (list_spelled (annotation_spelled room) annotations.now) }
{
    output.count(annotations.len())?;
    for each in annotations {
        put_annotation(output, each, room)?;
    }
    Ok(())
}
