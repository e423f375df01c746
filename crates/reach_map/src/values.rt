// The candidates of the name chains in annotations and in their values, put into a set.
ghost use Rattle.std.specs.Prelude.{◌≡◌, OnOk};
ghost use Rattle.std.specs.List.{flat_map};
ghost use Rattle.reach_map.specs.Chains.{value_chains, annotation_chains, pair_chains};
ghost use Rattle.reach_map.specs.CandidateSets.{with_chains};

use crate::chains::add_chain_text;
use crate::types::add_type;
use apt_base::{Names, NoMemory};
use decl_tree::{AnnotationText, ElementValuePair, UnitText, ValueText};
use std::alloc::Global;

/// A value.
#[cycle(values)]
pub(crate) fn add_value(
    alloc: Global,
    unit: &UnitText,
    value: &ValueText,
    names: &mut Names,
) -> Result<(), NoMemory>
    ensures { OnOk result (names.new ≡ with_chains unit.now names.old (value_chains value.now)) }
{
    match value {
        ValueText::Literal(_) => Ok(()),
        ValueText::Negated(_) => Ok(()),
        ValueText::Joined(items) => add_values(alloc, unit, items.as_slice(), names),
        ValueText::Class(of) => add_type(alloc, unit, of, names),
        ValueText::Chain(text) => add_chain_text(alloc, unit, text.as_str(), names),
        ValueText::Array(items) => add_values(alloc, unit, items.as_slice(), names),
        ValueText::Nested(annotation) => add_annotation(alloc, unit, annotation, names),
        ValueText::Other(_) => Ok(()),
    }
}

#[cycle(values)]
fn add_values(
    alloc: Global,
    unit: &UnitText,
    items: &[ValueText],
    names: &mut Names,
) -> Result<(), NoMemory>
    ensures { OnOk result (names.new ≡ with_chains unit.now names.old (flat_map value_chains items.now)) }
{
    for item in items {
        add_value(alloc, unit, item, names)?;
    }
    Ok(())
}

/// An annotation: its name, and its values.
#[cycle(values)]
pub(crate) fn add_annotation(
    alloc: Global,
    unit: &UnitText,
    annotation: &AnnotationText,
    names: &mut Names,
) -> Result<(), NoMemory>
    ensures { OnOk result (names.new ≡ with_chains unit.now names.old (annotation_chains annotation.now)) }
{
    add_chain_text(alloc, unit, annotation.name.as_str(), names)?;
    add_pairs(alloc, unit, annotation.values.as_slice(), names)
}

#[cycle(values)]
fn add_pairs(
    alloc: Global,
    unit: &UnitText,
    pairs: &[ElementValuePair],
    names: &mut Names,
) -> Result<(), NoMemory>
    ensures { OnOk result (names.new ≡ with_chains unit.now names.old (flat_map pair_chains pairs.now)) }
{
    for pair in pairs {
        add_value(alloc, unit, &pair.value, names)?;
    }
    Ok(())
}
