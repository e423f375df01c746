// The candidates of the name chains in types, put into a set.
ghost use Rattle.std.specs.Prelude.{◌≡◌, ◌∷◌, [], map, OnOk};
ghost use Rattle.std.specs.List.{flat_map};
ghost use Rattle.name_resolve.specs.Supertypes.{part_name};
ghost use Rattle.reach_map.specs.Chains.{type_chains, argument_chains};
ghost use Rattle.reach_map.specs.CandidateSets.{with_chains};

use crate::chains::add_chain;
use apt_base::{Names, NoMemory};
use decl_tree::{BaseType, NamedPart, TypeText, UnitText};
use name_resolve::part_names;
use std::alloc::Global;

// The chain of the names of a class type.
fn add_names(
    alloc: Global,
    unit: &UnitText,
    parts: &[NamedPart],
    names: &mut Names,
) -> Result<(), NoMemory>
    ensures { OnOk result (names.new ≡ with_chains unit.now names.old (map part_name parts.now ∷ [])) }
{
    let chain = part_names(alloc, parts)?;
    add_chain(alloc, unit, chain.as_slice(), names)
}

/// A type: the chain of its names, and those of its type arguments.
#[cycle(types)]
pub(crate) fn add_type(
    alloc: Global,
    unit: &UnitText,
    text: &TypeText,
    names: &mut Names,
) -> Result<(), NoMemory>
    ensures { OnOk result (names.new ≡ with_chains unit.now names.old (type_chains text.now)) }
{
    match &text.base {
        BaseType::Named(parts) => {
            add_names(alloc, unit, parts.as_slice(), names)?;
            add_parts(alloc, unit, parts.as_slice(), names)
        }
        BaseType::Primitive(_) => Ok(()),
        BaseType::Wildcard => Ok(()),
    }
}

#[cycle(types)]
fn add_parts(
    alloc: Global,
    unit: &UnitText,
    parts: &[NamedPart],
    names: &mut Names,
) -> Result<(), NoMemory>
    ensures { OnOk result (names.new ≡ with_chains unit.now names.old (flat_map argument_chains parts.now)) }
{
    for part in parts {
        add_arguments(alloc, unit, part, names)?;
    }
    Ok(())
}

#[cycle(types)]
fn add_arguments(
    alloc: Global,
    unit: &UnitText,
    part: &NamedPart,
    names: &mut Names,
) -> Result<(), NoMemory>
    ensures { OnOk result (names.new ≡ with_chains unit.now names.old (argument_chains part.now)) }
{
    match &part.arguments {
        None => Ok(()),
        Some(arguments) => add_types(alloc, unit, arguments.as_slice(), names),
    }
}

#[cycle(types)]
fn add_types(
    alloc: Global,
    unit: &UnitText,
    texts: &[TypeText],
    names: &mut Names,
) -> Result<(), NoMemory>
    ensures { OnOk result (names.new ≡ with_chains unit.now names.old (flat_map type_chains texts.now)) }
{
    for text in texts {
        add_type(alloc, unit, text, names)?;
    }
    Ok(())
}
