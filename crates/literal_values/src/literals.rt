// The values of literals.
ghost use Rattle.std.specs.Prelude.{◌≡◌, ◌++◌, chars, encode_utf8_all, IfOk};
ghost use Rattle.type_mirror.specs.declared.value.Value.TheVariants as value;
ghost use Rattle.literal_values.specs.Floating.{is_floating};
ghost use Rattle.literal_values.specs.Numerals as numerals;
ghost use Rattle.literal_values.specs.Literals as literals;

use crate::floating::is_floating;
use crate::numerals::{integer_of, negative, positive, whole_kind};
use crate::quoted::{only_character, unquoted};
use apt_base::{List, Name, NoMemory};
use std::alloc::Global;
use type_mirror::{Value, WholeKind};

// A text behind another one.
fn prefixed(alloc: Global, prefix: &str, text: &str) -> Result<Name, NoMemory>
    ensures { IfOk result (λ name. name ≡ prefix.now ++ text.now) }
{
    let mut all = String::from_str(alloc, prefix)?;
    all.push_str(text)?;
    Ok(Name::from_string(alloc, all))
}

// What has no value but its text, behind a prefix.
fn other(alloc: Global, prefix: &str, text: &str) -> Result<Value, NoMemory>
    ensures { IfOk result (λ v. v ≡ value.Other (prefix.now ++ text.now)) }
{
    Ok(Value::Other(prefixed(alloc, prefix, text)?))
}

// A floating-point literal behind a prefix, or what is no literal behind another one.
fn floating_or(alloc: Global, prefix: &str, separated: &str, text: &str) -> Result<Value, NoMemory>
    ensures { IfOk result (λ v. v ≡ literals.floating_or (prefix.now ++ text.now) (separated.now ++ text.now) (is_floating text.now)) }
{
    if is_floating(text.as_bytes()) {
        return Ok(Value::Floating(prefixed(alloc, prefix, text)?));
    }
    other(alloc, separated, text)
}

fn whole_or(
    alloc: Global,
    prefix: &str,
    text: &str,
    kind: WholeKind,
    number: Option<i64>,
) -> Result<Value, NoMemory>
    ensures { IfOk result (λ v. v ≡ literals.whole_or (prefix.now ++ text.now) kind number) }
{
    match number {
        None => other(alloc, prefix, text),
        Some(number) => Ok(Value::Whole(kind, number)),
    }
}

fn begins_numeral(text: &[u8]) -> bool
    ensures { result ≡ literals.begins_numeral text.now }
{
    match text {
        [] => false,
        [first, ..] => first.is_ascii_digit() || *first == b'.',
    }
}

#[tactic(auto, using(crate::proofs::BoundedValues::values))]
fn numeral_value(alloc: Global, text: &str) -> Result<Value, NoMemory>
    ensures { IfOk result (λ v. v ≡ literals.numeral_value text.now (numerals.integer_of text.now)) }
{
    let numeral = match integer_of(text.as_bytes()) {
        None => return floating_or(alloc, "", "", text),
        Some(numeral) => numeral,
    };
    let kind = whole_kind(text.as_bytes());
    whole_or(alloc, "", text, kind, positive(kind, numeral))
}

/// The value of a numeral behind a `-`.
#[tactic(auto, unfolding(crate::specs::Literals::negated_value), using(crate::proofs::BoundedValues::values))]
pub fn negated_value(alloc: Global, text: &str) -> Result<Value, NoMemory>
    ensures { IfOk result (λ v. v ≡ literals.negated_value text.now) }
{
    if !begins_numeral(text.as_bytes()) {
        return other(alloc, "- ", text);
    }
    let numeral = match integer_of(text.as_bytes()) {
        None => return floating_or(alloc, "-", "- ", text),
        Some(numeral) => numeral,
    };
    let kind = whole_kind(text.as_bytes());
    whole_or(alloc, "- ", text, kind, negative(kind, numeral))
}

fn encoded(alloc: Global, text: &[char]) -> Result<Name, NoMemory>
    ensures { IfOk result (λ name. name ≡ encode_utf8_all text.now) }
{
    let mut all = String::new(alloc);
    for c in text {
        all.push(*c)?;
    }
    Ok(Name::from_string(alloc, all))
}

fn character_value(alloc: Global, text: &str, found: &Option<List<char>>) -> Result<Value, NoMemory>
    ensures { IfOk result (λ v. v ≡ literals.character_value text.now found.now) }
{
    if let Some(characters) = found {
        if let Some(c) = only_character(characters.as_slice()) {
            return Ok(Value::Character(c as u32));
        }
    }
    other(alloc, "", text)
}

fn text_value(alloc: Global, text: &str, found: &Option<List<char>>) -> Result<Value, NoMemory>
    ensures { IfOk result (λ v. v ≡ literals.text_value text.now found.now) }
{
    match found {
        None => other(alloc, "", text),
        Some(characters) => Ok(Value::Text(encoded(alloc, characters.as_slice())?)),
    }
}

#[tactic(auto, unfolding(crate::specs::Literals::quoted_value))]
fn quoted_value(alloc: Global, text: &str) -> Result<Value, NoMemory>
    ensures { IfOk result (λ v. v ≡ literals.quoted_value text.now (chars text.now)) }
{
    let mut inside = text.chars();
    match inside.next() {
        Some('\'') => {
            let found = unquoted(alloc, '\'', inside.as_str())?;
            character_value(alloc, text, &found)
        }
        Some('"') => {
            let found = unquoted(alloc, '"', inside.as_str())?;
            text_value(alloc, text, &found)
        }
        _ => other(alloc, "", text),
    }
}

/// The value of a literal by its text: an integer, floating-point, boolean, character or string literal.
/// `null`, a text block, a literal with an escape that the language does not have and a number that its type
/// cannot hold keep their text.
#[tactic(auto, unfolding(crate::specs::Literals::literal_value))]
pub fn literal_value(alloc: Global, text: &str) -> Result<Value, NoMemory>
    ensures { IfOk result (λ v. v ≡ literals.literal_value text.now) }
{
    if text == "true" {
        return Ok(Value::Truth(true));
    }
    if text == "false" {
        return Ok(Value::Truth(false));
    }
    if begins_numeral(text.as_bytes()) {
        return numeral_value(alloc, text);
    }
    quoted_value(alloc, text)
}
