// The texts of types, for names that mean nothing.
ghost use Rattle.std.specs.Prelude.{◌≡◌, ◌++◌, string_bytes, IfOk, OnOk};
ghost use Rattle.std.specs.List.{flat_map};
ghost use Rattle.name_resolve.specs.Mirrors.{primitive_text};
ghost use Rattle.type_resolve.specs.Spelling.{base_spelled, part_spelled, type_spelled, types_spelled, parts_spelled, front_of, back_of, separator};

use apt_base::NoMemory;
use decl_tree::{Around, BaseType, NamedPart, PrimitiveKind, TypeText};
use std::alloc::Global;

fn primitive_text(kind: PrimitiveKind) -> &'static str
    ensures { result.now ≡ primitive_text kind }
{
    match kind {
        PrimitiveKind::Boolean => "boolean",
        PrimitiveKind::Byte => "byte",
        PrimitiveKind::Short => "short",
        PrimitiveKind::Int => "int",
        PrimitiveKind::Long => "long",
        PrimitiveKind::Char => "char",
        PrimitiveKind::Float => "float",
        PrimitiveKind::Double => "double",
        PrimitiveKind::Void => "void",
    }
}

// Adds to a text.
fn add(text: &mut String, more: &str) -> Result<(), NoMemory>
    ensures { OnOk result (string_bytes text.new ≡ string_bytes text.old ++ more.now) }
{
    text.push_str(more)?;
    Ok(())
}

fn add_separator(text: &mut String, is_first: bool, between: &str) -> Result<(), NoMemory>
    ensures { OnOk result (string_bytes text.new ≡ string_bytes text.old ++ separator is_first between.now) }
{
    if is_first {
        return Ok(());
    }
    add(text, between)
}

fn add_front(text: &mut String, of: Around) -> Result<(), NoMemory>
    ensures { OnOk result (string_bytes text.new ≡ string_bytes text.old ++ front_of of) }
{
    match of {
        Around::Array => Ok(()),
        Around::Extends => add(text, "? extends "),
        Around::Super => add(text, "? super "),
    }
}

fn add_back(text: &mut String, of: Around) -> Result<(), NoMemory>
    ensures { OnOk result (string_bytes text.new ≡ string_bytes text.old ++ back_of of) }
{
    match of {
        Around::Array => add(text, "[]"),
        Around::Extends => Ok(()),
        Around::Super => Ok(()),
    }
}

fn add_fronts(text: &mut String, around: &[Around]) -> Result<(), NoMemory>
    ensures { OnOk result (string_bytes text.new ≡ string_bytes text.old ++ flat_map front_of around.now) }
{
    for each in around {
        add_front(text, *each)?;
    }
    Ok(())
}

fn add_backs(text: &mut String, around: &[Around]) -> Result<(), NoMemory>
    ensures { OnOk result (string_bytes text.new ≡ string_bytes text.old ++ flat_map back_of around.now) }
{
    for each in around {
        add_back(text, *each)?;
    }
    Ok(())
}

// A type: the bounds from the outside in, the base, and the brackets.
#[cycle(spelling)]
#[tactic(auto, using(crate::proofs::SpellingLemmas::spellings))]
fn add_type(text: &mut String, of: &TypeText) -> Result<(), NoMemory>
    ensures { OnOk result (string_bytes text.new ≡ string_bytes text.old ++ type_spelled of.now) }
{
    add_fronts(text, of.around.as_slice())?;
    add_base(text, &of.base)?;
    add_backs(text, of.around.as_slice())
}

#[cycle(spelling)]
#[tactic(auto, using(crate::proofs::SpellingLemmas::spellings))]
fn add_base(text: &mut String, of: &BaseType) -> Result<(), NoMemory>
    ensures { OnOk result (string_bytes text.new ≡ string_bytes text.old ++ base_spelled of.now) }
{
    match of {
        BaseType::Primitive(kind) => add(text, primitive_text(*kind)),
        BaseType::Named(parts) => add_parts(text, parts.as_slice()),
        BaseType::Wildcard => add(text, "?"),
    }
}

#[cycle(spelling)]
#[tactic(auto, using(crate::proofs::SpellingLemmas::joined))]
fn add_parts(text: &mut String, parts: &[NamedPart]) -> Result<(), NoMemory>
    ensures { OnOk result (string_bytes text.new ≡ string_bytes text.old ++ parts_spelled parts.now) }
{
    let mut is_first = true;
    for each in parts {
        add_separator(text, is_first, ".")?;
        add_part(text, each)?;
        is_first = false;
    }
    Ok(())
}

#[cycle(spelling)]
#[tactic(auto, using(crate::proofs::SpellingLemmas::spellings))]
fn add_part(text: &mut String, part: &NamedPart) -> Result<(), NoMemory>
    ensures { OnOk result (string_bytes text.new ≡ string_bytes text.old ++ part_spelled part.now) }
{
    add(text, part.name.as_str())?;
    match &part.arguments {
        None => Ok(()),
        Some(list) => {
            add(text, "<")?;
            add_types(text, list.as_slice())?;
            add(text, ">")
        }
    }
}

#[cycle(spelling)]
#[tactic(auto, using(crate::proofs::SpellingLemmas::joined))]
fn add_types(text: &mut String, types: &[TypeText]) -> Result<(), NoMemory>
    ensures { OnOk result (string_bytes text.new ≡ string_bytes text.old ++ types_spelled types.now) }
{
    let mut is_first = true;
    for each in types {
        add_separator(text, is_first, ",")?;
        add_type(text, each)?;
        is_first = false;
    }
    Ok(())
}

/// The text of some names of a class type with their arguments, which dots join.
pub(crate) fn spelled(alloc: Global, parts: &[NamedPart]) -> Result<String, NoMemory>
    ensures { IfOk result (λ text. string_bytes text ≡ parts_spelled parts.now) }
{
    let mut text = String::new(alloc);
    add_parts(&mut text, parts)?;
    Ok(text)
}

/// The text of a type.
pub(crate) fn spelled_type(alloc: Global, of: &TypeText) -> Result<String, NoMemory>
    ensures { IfOk result (λ text. string_bytes text ≡ type_spelled of.now) }
{
    let mut text = String::new(alloc);
    add_type(&mut text, of)?;
    Ok(text)
}
