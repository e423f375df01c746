// The texts of types.
ghost use Rattle.std.specs.Prelude.{◌≡◌, map, IfOk};
ghost use Rattle.std.specs.List.{flat_map};
ghost use Rattle.type_texts.specs.Print.{primitive_text, arguments_text, text_of};
ghost use Rattle.type_texts.specs.Spelling.{front_of, back_of, comma, base_text, name_text, declared_text, executable_text, types_text, IsAdded};

use apt_base::{Boxed, ElementRef, Name, NoMemory};
use element_table::Table;
use std::alloc::Global;
use type_mirror::{Around, BaseMirror, DeclaredMirror, ExecutableMirror, Mirror, PrimitiveKind};
use type_relations::{canonical_name, parameter_name, type_name};

fn primitive_text(kind: PrimitiveKind) -> &'static str
    ensures { result.now ≡ primitive_text kind }
{
    match kind {
        PrimitiveKind::Boolean => "boolean",
        PrimitiveKind::Byte => "byte",
        PrimitiveKind::Short => "short",
        PrimitiveKind::Int => "int",
        PrimitiveKind::Long => "long",
        PrimitiveKind::Char => "char",
        PrimitiveKind::Float => "float",
        PrimitiveKind::Double => "double",
    }
}

// Adds to a text.
fn add(text: &mut String, more: &str) -> Result<(), NoMemory>
    ensures { IsAdded text.old text.new result more.now }
{
    text.push_str(more)?;
    Ok(())
}

fn add_comma(text: &mut String, is_first: bool) -> Result<(), NoMemory>
    ensures { IsAdded text.old text.new result (comma is_first) }
{
    if is_first {
        return Ok(());
    }
    add(text, ",")
}

fn add_front(text: &mut String, of: Around) -> Result<(), NoMemory>
    ensures { IsAdded text.old text.new result (front_of of) }
{
    match of {
        Around::Array => Ok(()),
        Around::Extends => add(text, "? extends "),
        Around::Super => add(text, "? super "),
    }
}

fn add_back(text: &mut String, of: Around) -> Result<(), NoMemory>
    ensures { IsAdded text.old text.new result (back_of of) }
{
    match of {
        Around::Array => add(text, "[]"),
        Around::Extends => Ok(()),
        Around::Super => Ok(()),
    }
}

fn add_fronts(text: &mut String, around: &[Around]) -> Result<(), NoMemory>
    ensures { IsAdded text.old text.new result (flat_map front_of around.now) }
{
    for each in around {
        add_front(text, *each)?;
    }
    Ok(())
}

fn add_backs(text: &mut String, around: &[Around]) -> Result<(), NoMemory>
    ensures { IsAdded text.old text.new result (flat_map back_of around.now) }
{
    for each in around {
        add_back(text, *each)?;
    }
    Ok(())
}

// A type: the wildcards from the outside in, the base, and the brackets of arrays.
#[cycle(printing)]
#[tactic(auto, using(crate::proofs::TypeTexts::texts))]
fn add_type(alloc: Global, table: &Table, text: &mut String, of: &Mirror) -> Result<(), NoMemory>
    ensures { IsAdded text.old text.new result (text_of table.now of.now) }
{
    add_fronts(text, of.around.as_slice())?;
    add_base(alloc, table, text, &of.base)?;
    add_backs(text, of.around.as_slice())
}

#[cycle(printing)]
#[tactic(auto, using(crate::proofs::TypeTexts::texts))]
fn add_base(
    alloc: Global,
    table: &Table,
    text: &mut String,
    of: &BaseMirror,
) -> Result<(), NoMemory>
    ensures { IsAdded text.old text.new result (base_text table.now of.now) }
{
    match of {
        BaseMirror::Primitive(kind) => add(text, primitive_text(*kind)),
        BaseMirror::Declared(declared) => add_declared(alloc, table, text, declared),
        BaseMirror::Error(name) => add(text, name.as_str()),
        BaseMirror::Variable(at) => add(text, parameter_name(table, at)),
        BaseMirror::Wildcard => add(text, "?"),
        BaseMirror::Executable(executable) => add_executable(alloc, table, text, executable),
        BaseMirror::Nothing => add(text, "none"),
        BaseMirror::Void => add(text, "void"),
        BaseMirror::Null => add(text, "null"),
        BaseMirror::Package(name) => add(text, name.as_str()),
    }
}

#[cycle(printing)]
#[tactic(auto, using(crate::proofs::ListedTexts::listed))]
fn add_types(
    alloc: Global,
    table: &Table,
    text: &mut String,
    types: &[Mirror],
) -> Result<(), NoMemory>
    ensures { IsAdded text.old text.new result (types_text table.now types.now) }
{
    let mut is_first = true;
    for each in types {
        add_comma(text, is_first)?;
        add_type(alloc, table, text, each)?;
        is_first = false;
    }
    Ok(())
}

// The name of a class type: the canonical one, or behind an enclosing type the simple one.
#[cycle(printing)]
fn add_class(
    alloc: Global,
    table: &Table,
    text: &mut String,
    element: &ElementRef,
    enclosing: &Option<Boxed<Mirror>>,
) -> Result<(), NoMemory>
    ensures { IsAdded text.old text.new result (name_text table.now element.now enclosing.now) }
{
    match enclosing {
        None => {
            let name = canonical_name(alloc, table, element)?;
            add(text, name.as_str())
        }
        Some(mirror) => {
            add_type(alloc, table, text, mirror.get())?;
            add(text, ".")?;
            add(text, type_name(table, element))
        }
    }
}

#[cycle(printing)]
fn add_arguments(
    alloc: Global,
    table: &Table,
    text: &mut String,
    arguments: &[Mirror],
) -> Result<(), NoMemory>
    ensures { IsAdded text.old text.new result (arguments_text (map (text_of table.now) arguments.now)) }
{
    if arguments.is_empty() {
        return Ok(());
    }
    add(text, "<")?;
    add_types(alloc, table, text, arguments)?;
    add(text, ">")
}

#[cycle(printing)]
#[tactic(auto, using(crate::proofs::TypeTexts::texts))]
fn add_declared(
    alloc: Global,
    table: &Table,
    text: &mut String,
    of: &DeclaredMirror,
) -> Result<(), NoMemory>
    ensures { IsAdded text.old text.new result (declared_text table.now of.now) }
{
    add_class(alloc, table, text, &of.element, &of.enclosing)?;
    add_arguments(alloc, table, text, of.arguments.as_slice())
}

#[cycle(printing)]
#[tactic(auto, using(crate::proofs::TypeTexts::texts))]
fn add_executable(
    alloc: Global,
    table: &Table,
    text: &mut String,
    of: &ExecutableMirror,
) -> Result<(), NoMemory>
    ensures { IsAdded text.old text.new result (executable_text table.now of.now) }
{
    add(text, "(")?;
    add_types(alloc, table, text, of.parameters.as_slice())?;
    add(text, ")")?;
    add_type(alloc, table, text, of.result.get())
}

/// The text of a type, with canonical names. A name of an element that is not there is empty.
pub fn text_of(alloc: Global, table: &Table, of: &Mirror) -> Result<Name, NoMemory>
    ensures { IfOk result (λ name. name ≡ text_of table.now of.now) }
{
    let mut text = String::new(alloc);
    add_type(alloc, table, &mut text, of)?;
    Ok(Name::from_string(alloc, text))
}
