// Names in texts and in types.
ghost use Rattle.std.specs.Prelude.{◌≡◌, ◌++◌, ◌∷◌, [], map, string_bytes, IfOk};
ghost use Rattle.apt_base.specs.Identifiers.{parts};
ghost use Rattle.decl_tree.specs.declared.type_text.BaseType.{out-BaseType};
ghost use Rattle.name_resolve.specs.Supertypes.{part_name, base_names, names_in};
ghost use Rattle.name_resolve.specs.Meaning.{ends_in};
ghost use Rattle.name_resolve.specs.Parts.{lent};

use apt_base::{NoMemory, split_dot};
use decl_tree::{BaseType, NamedPart, TypeText};
use std::alloc::Global;

/// The parts of a text that dots join.
pub fn split<'t>(alloc: Global, text: &'t str) -> Result<Vec<&'t str>, NoMemory>
    ensures { IfOk result (λ names. lent names.items ≡ parts text.now) }
{
    let mut names = Vec::new(alloc);
    let mut rest = text;
    while let Some((first, after)) = split_dot(rest) {
        names.push(first)?;
        rest = after;
    }
    names.push(rest)?;
    Ok(names)
}

/// The parts of a text, and a name behind them.
pub(crate) fn split_with<'t>(
    alloc: Global,
    text: &'t str,
    name: &'t str,
) -> Result<Vec<&'t str>, NoMemory>
    ensures { IfOk result (λ names. lent names.items ≡ parts text.now ++ name.now ∷ []) }
{
    let mut names = split(alloc, text)?;
    names.push(name)?;
    Ok(names)
}

/// A copy of a text.
pub(crate) fn owned(alloc: Global, text: &str) -> Result<String, NoMemory>
    ensures { IfOk result (λ copy. string_bytes copy ≡ text.now) }
{
    let copy = String::from_str(alloc, text)?;
    Ok(copy)
}

/// A text with a dot and a name behind it.
pub fn longer(alloc: Global, before: &str, name: &str) -> Result<String, NoMemory>
    ensures { IfOk result (λ text. string_bytes text ≡ before.now ++ 46 ∷ name.now) }
{
    let mut text = String::from_str(alloc, before)?;
    text.push('.')?;
    text.push_str(name)?;
    Ok(text)
}

/// The names of some parts of a class type.
pub fn part_names<'t>(alloc: Global, parts: &'t [NamedPart]) -> Result<Vec<&'t str>, NoMemory>
    ensures { IfOk result (λ names. lent names.items ≡ map part_name parts.now) }
{
    let mut names = Vec::new(alloc);
    for part in parts {
        names.push(part.name.as_str())?;
    }
    Ok(names)
}

fn base_names<'t>(alloc: Global, base: &'t BaseType) -> Result<Vec<&'t str>, NoMemory>
    ensures { IfOk result (λ names. lent names.items ≡ base_names (out-BaseType base.now)) }
{
    match base {
        BaseType::Named(parts) => {
            let names = part_names(alloc, parts.as_slice())?;
            Ok(names)
        }
        BaseType::Primitive(_) => Ok(Vec::new(alloc)),
        BaseType::Wildcard => Ok(Vec::new(alloc)),
    }
}

/// The names of a class type around which nothing stands; none for any other type.
pub(crate) fn names_in<'t>(alloc: Global, text: &'t TypeText) -> Result<Vec<&'t str>, NoMemory>
    ensures { IfOk result (λ names. lent names.items ≡ names_in text.now) }
{
    if !text.around.is_empty() {
        return Ok(Vec::new(alloc));
    }
    let names = base_names(alloc, &text.base)?;
    Ok(names)
}

/// Whether the last of some names is this one.
pub(crate) fn ends_in(names: &[&str], name: &str) -> bool
    ensures { result ≡ ends_in name.now (lent names.now) }
{
    match names.split_last() {
        None => false,
        Some((last, _)) => *last == name,
    }
}
