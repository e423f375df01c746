// The types in a line: that of a field or an enum constant, and those of a method or a constructor.
ghost use Rattle.std.specs.Prelude.{◌≡◌, ◌∷◌, [], map};
ghost use Rattle.std.specs.Option.{option_copied, option_to_list};
ghost use Rattle.decl_elements.specs.Shown.{shown_element};
ghost use Rattle.type_layers.specs.Layers.{layer, layer_in};
ghost use Rattle.type_elements.specs.TypeOf.{type_of};
ghost use Rattle.type_texts.specs.Print.{text_of};
ghost use Rattle.type_texts.specs.Spelling.{IsAdded, comma, types_text};
ghost use Rattle.unit_listing.specs.Words.{spaced};
ghost use Rattle.unit_listing.specs.Listing.{in_brackets, outcome_in, parameters_in, type_words};

use crate::words::add_word;
use apt_base::{ElementRef, NoMemory};
use element_table::{Element, Table};
use std::alloc::Global;
use type_elements::type_of_element_with;
use type_mirror::{Around, BaseMirror, Mirror};
use type_resolve::Resolver;
use type_texts::text_of;

// ---- the types of a method or a constructor

fn base_parameters(base: &BaseMirror) -> &[Mirror]
    ensures { result.now ≡ parameters_in (layer_in [] base.now) }
{
    match base {
        BaseMirror::Executable(executable) => executable.parameters.as_slice(),
        _ => &[],
    }
}

// What a method or a constructor takes; nothing of any other type.
#[tactic(auto, unfolding(type_layers::specs::Layers::layer))]
fn parameters_of(of: &Mirror) -> &[Mirror]
    ensures { result.now ≡ parameters_in (layer of.now) }
{
    match of.around.as_slice() {
        [Around::Array, ..] => &[],
        [Around::Extends, ..] => &[],
        [Around::Super, ..] => &[],
        [] => base_parameters(&of.base),
    }
}

fn base_outcome(base: &BaseMirror) -> Option<&Mirror>
    ensures { option_copied result ≡ outcome_in (layer_in [] base.now) }
{
    match base {
        BaseMirror::Executable(executable) => Some(executable.result.get()),
        _ => None,
    }
}

// What a method or a constructor gives; `None` of any other type.
#[tactic(auto, unfolding(type_layers::specs::Layers::layer))]
fn outcome_of(of: &Mirror) -> Option<&Mirror>
    ensures { option_copied result ≡ outcome_in (layer of.now) }
{
    match of.around.as_slice() {
        [Around::Array, ..] => None,
        [Around::Extends, ..] => None,
        [Around::Super, ..] => None,
        [] => base_outcome(&of.base),
    }
}

// ---- text

// Adds the text of a type.
fn add_type(alloc: Global, table: &Table, text: &mut String, of: &Mirror) -> Result<(), NoMemory>
    ensures { IsAdded text.old text.new result (text_of table.now of.now) }
{
    let name = text_of(alloc, table, of)?;
    text.push_str(name.as_str())?;
    Ok(())
}

fn add_comma(text: &mut String, is_first: bool) -> Result<(), NoMemory>
    ensures { IsAdded text.old text.new result (comma is_first) }
{
    if !is_first {
        text.push(',')?;
    }
    Ok(())
}

#[tactic(auto, using(type_texts::proofs::ListedTexts::listed))]
fn add_types(
    alloc: Global,
    table: &Table,
    text: &mut String,
    types: &[Mirror],
) -> Result<(), NoMemory>
    ensures { IsAdded text.old text.new result (types_text table.now types.now) }
{
    let mut is_first = true;
    for each in types {
        add_comma(text, is_first)?;
        add_type(alloc, table, text, each)?;
        is_first = false;
    }
    Ok(())
}

// Adds a word: types in brackets.
fn add_brackets(
    alloc: Global,
    table: &Table,
    text: &mut String,
    types: &[Mirror],
) -> Result<(), NoMemory>
    ensures { IsAdded text.old text.new result (spaced (in_brackets table.now types.now ∷ [])) }
{
    text.push_str(" (")?;
    add_types(alloc, table, text, types)?;
    text.push(')')?;
    Ok(())
}

// Adds a word: a type.
fn add_type_word(
    alloc: Global,
    table: &Table,
    text: &mut String,
    of: &Mirror,
) -> Result<(), NoMemory>
    ensures { IsAdded text.old text.new result (spaced (text_of table.now of.now ∷ [])) }
{
    text.push(' ')?;
    add_type(alloc, table, text, of)
}

// Adds a word where there is a type.
fn add_outcome(
    alloc: Global,
    table: &Table,
    text: &mut String,
    outcome: Option<&Mirror>,
) -> Result<(), NoMemory>
    ensures { IsAdded text.old text.new result
        (spaced (map (text_of table.now) (option_to_list (option_copied outcome.entry)))) }
{
    match outcome {
        None => Ok(()),
        Some(of) => add_type_word(alloc, table, text, of),
    }
}

// ---- the types of an element

// Adds the types of an element, of which this is the type.
fn add_parts(
    alloc: Global,
    table: &Table,
    text: &mut String,
    of: &Mirror,
    element: &Element<'_>,
) -> Result<(), NoMemory>
    ensures { IsAdded text.old text.new result
        (spaced (type_words table.now of.now (shown_element element.now))) }
{
    match element {
        Element::EnumConstant(_) | Element::Field(_) => add_type_word(alloc, table, text, of),
        Element::Method(_) => {
            add_brackets(alloc, table, text, parameters_of(of))?;
            add_outcome(alloc, table, text, outcome_of(of))
        }
        Element::Constructor(_) => add_brackets(alloc, table, text, parameters_of(of)),
        _ => Ok(()),
    }
}

/// Adds the types that the line of an element has, each as a word behind a space: of a field or an enum
/// constant its type, of a method or a constructor the types of its parameters in brackets, and of a method its
/// result. `NoMemory` where there is no memory for them.
pub(crate) fn add_type_words(
    alloc: Global,
    resolver: &mut Resolver<'_>,
    text: &mut String,
    at: &ElementRef,
    element: &Element<'_>,
) -> Result<(), NoMemory>
    ensures text { IsAdded text.old text.new result
        (spaced (type_words resolver.old (type_of resolver.old at.now) (shown_element element.now))) }
    ensures kept { resolver.new ≡ resolver.old }
{
    let of = type_of_element_with(alloc, resolver, at)?;
    let added = add_parts(alloc, resolver.table(), text, &of, element);
    drop(of);
    added
}
