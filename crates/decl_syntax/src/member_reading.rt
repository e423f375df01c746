// Members, read from their spelling.
ghost use Rattle.std.specs.Prelude.{◌≡◌, ◌+◌};
ghost use Rattle.apt_base.specs.Readings.{Gives};
ghost use Rattle.decl_tree.specs.Legal.{are_few};
ghost use Rattle.decl_syntax.specs.Reading.{heading_next, field_next, signature_next, method_next, constructor_heading_next, constructor_next, constant_next};

use crate::in_unit::{list_of, optional, read_modifiers};
use crate::type_reading::type_text;
use apt_base::{
    FieldReader, FormFault, List, MAX_CHILDREN, Name, read_optional_text, read_text, read_truth,
};
use decl_tree::{
    AnnotationText, ConstantDecl, ConstructorDecl, FieldDecl, MethodDecl, TypeParam, TypeText,
};
use std::alloc::Global;

/// How a field or a method begins.
#[derive(Drop)]
pub(crate) struct Heading {
    name: Name,
    modifiers: u16,
    annotations: List<AnnotationText>,
    doc: Option<Name>,
}

/// What stands before the parameters of a method.
#[derive(Drop)]
pub(crate) struct Signature {
    heading: Heading,
    parameters: List<TypeParam>,
    result: TypeText,
}

/// What stands before the parameters of a constructor.
#[derive(Drop)]
pub(crate) struct ConstructorHeading {
    modifiers: u16,
    annotations: List<AnnotationText>,
    doc: Option<Name>,
    parameters: List<TypeParam>,
}

// Whether an element may have that number of type parameters and of other children.
fn are_few(parameters: usize, others: usize) -> bool
    ensures { result ≡ are_few (parameters + others) }
{
    parameters <= MAX_CHILDREN && others <= MAX_CHILDREN - parameters
}

#[tactic(auto, unfolding(crate::specs::Reading::heading_next))]
fn read_heading(alloc: Global, reader: &mut FieldReader, room: u32) -> Result<Heading, FormFault>
    ensures { Gives result (heading_next room reader.old) reader.new }
{
    let name = read_text(alloc, reader)?;
    let modifiers = read_modifiers(reader)?;
    let annotations = list_of(alloc, reader, room)?;
    let doc = read_optional_text(alloc, reader)?;
    Ok(Heading {
        name,
        modifiers,
        annotations,
        doc,
    })
}

/// A field.
#[tactic(auto, unfolding(crate::specs::Reading::field_next))]
pub(crate) fn field(
    alloc: Global,
    reader: &mut FieldReader,
    room: u32,
) -> Result<FieldDecl, FormFault>
    ensures { Gives result (field_next room reader.old) reader.new }
{
    let heading = read_heading(alloc, reader, room)?;
    let of = type_text(alloc, reader, room)?;
    let constant = optional(alloc, reader, room)?;
    Ok(FieldDecl {
        name: heading.name,
        modifiers: heading.modifiers,
        annotations: heading.annotations,
        doc: heading.doc,
        of,
        constant,
    })
}

#[tactic(auto, unfolding(crate::specs::Reading::signature_next))]
fn read_signature(
    alloc: Global,
    reader: &mut FieldReader,
    room: u32,
) -> Result<Signature, FormFault>
    ensures { Gives result (signature_next room reader.old) reader.new }
{
    let heading = read_heading(alloc, reader, room)?;
    let parameters = list_of(alloc, reader, room)?;
    let result_type = type_text(alloc, reader, room)?;
    Ok(Signature {
        heading,
        parameters,
        result: result_type,
    })
}

/// A method.
#[tactic(auto, unfolding(crate::specs::Reading::method_next))]
pub(crate) fn method(
    alloc: Global,
    reader: &mut FieldReader,
    room: u32,
) -> Result<MethodDecl, FormFault>
    ensures { Gives result (method_next room reader.old) reader.new }
{
    let signature = read_signature(alloc, reader, room)?;
    let arguments = list_of(alloc, reader, room)?;
    let varargs = read_truth(reader)?;
    let thrown = list_of(alloc, reader, room)?;
    let default_value = optional(alloc, reader, room)?;
    if !are_few(signature.parameters.len(), arguments.len()) {
        return Err(FormFault::Bad);
    }
    let Signature {
        heading,
        parameters,
        result: result_type,
    } = signature;
    Ok(MethodDecl {
        name: heading.name,
        modifiers: heading.modifiers,
        annotations: heading.annotations,
        doc: heading.doc,
        parameters,
        result: result_type,
        arguments,
        varargs,
        thrown,
        default: default_value,
    })
}

#[tactic(auto, unfolding(crate::specs::Reading::constructor_heading_next))]
fn read_constructor_heading(
    alloc: Global,
    reader: &mut FieldReader,
    room: u32,
) -> Result<ConstructorHeading, FormFault>
    ensures { Gives result (constructor_heading_next room reader.old) reader.new }
{
    let modifiers = read_modifiers(reader)?;
    let annotations = list_of(alloc, reader, room)?;
    let doc = read_optional_text(alloc, reader)?;
    let parameters = list_of(alloc, reader, room)?;
    Ok(ConstructorHeading {
        modifiers,
        annotations,
        doc,
        parameters,
    })
}

/// A constructor.
#[tactic(auto, unfolding(crate::specs::Reading::constructor_next))]
pub(crate) fn constructor(
    alloc: Global,
    reader: &mut FieldReader,
    room: u32,
) -> Result<ConstructorDecl, FormFault>
    ensures { Gives result (constructor_next room reader.old) reader.new }
{
    let heading = read_constructor_heading(alloc, reader, room)?;
    let arguments = list_of(alloc, reader, room)?;
    let varargs = read_truth(reader)?;
    let thrown = list_of(alloc, reader, room)?;
    if !are_few(heading.parameters.len(), arguments.len()) {
        return Err(FormFault::Bad);
    }
    Ok(ConstructorDecl {
        modifiers: heading.modifiers,
        annotations: heading.annotations,
        doc: heading.doc,
        parameters: heading.parameters,
        arguments,
        varargs,
        thrown,
    })
}

/// An enum constant.
#[tactic(auto, unfolding(crate::specs::Reading::constant_next))]
pub(crate) fn constant(
    alloc: Global,
    reader: &mut FieldReader,
    room: u32,
) -> Result<ConstantDecl, FormFault>
    ensures { Gives result (constant_next room reader.old) reader.new }
{
    let name = read_text(alloc, reader)?;
    let annotations = list_of(alloc, reader, room)?;
    let doc = read_optional_text(alloc, reader)?;
    let body = read_truth(reader)?;
    Ok(ConstantDecl {
        name,
        annotations,
        doc,
        body,
    })
}
