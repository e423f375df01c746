// Texts in which name chains are written, alone, in a list or where they may be left out.
ghost use Rattle.std.specs.Prelude.{◌≡◌, OnOk};
ghost use Rattle.std.specs.List.{flat_map};
ghost use Rattle.std.specs.Option.{option_to_list};
ghost use Rattle.reach_map.specs.Chains.{Chains, type_chains, value_chains, annotation_chains};
ghost use Rattle.reach_map.specs.CandidateSets.{with_chains};

use crate::types::add_type;
use crate::values::{add_annotation, add_value};
use apt_base::{Names, NoMemory};
use decl_tree::{AnnotationText, TypeText, UnitText, ValueText};
use std::alloc::Global;

/// A text in which name chains are written.
pub(crate) trait Written {
    /// The chains.
    ghost chains: { Self → Chains };

    /// Puts their candidates into a set.
    fn add(&self, alloc: Global, unit: &UnitText, names: &mut Names) -> Result<(), NoMemory>
        ensures { OnOk result (names.new ≡ with_chains unit.now names.old (chains self.now)) };
}

impl Written for TypeText {
    ghost chains = { type_chains };

    fn add(&self, alloc: Global, unit: &UnitText, names: &mut Names) -> Result<(), NoMemory> {
        add_type(alloc, unit, self, names)
    }
}

impl Written for ValueText {
    ghost chains = { value_chains };

    fn add(&self, alloc: Global, unit: &UnitText, names: &mut Names) -> Result<(), NoMemory> {
        add_value(alloc, unit, self, names)
    }
}

impl Written for AnnotationText {
    ghost chains = { annotation_chains };

    fn add(&self, alloc: Global, unit: &UnitText, names: &mut Names) -> Result<(), NoMemory> {
        add_annotation(alloc, unit, self, names)
    }
}

/// Each item of a list.
pub(crate) fn add_all<T: Written>(
    alloc: Global,
    unit: &UnitText,
    items: &[T],
    names: &mut Names,
) -> Result<(), NoMemory>
    ensures { OnOk result (names.new ≡ with_chains unit.now names.old (flat_map T.chains items.now)) }
{
    for item in items {
        item.add(alloc, unit, names)?;
    }
    Ok(())
}

/// A text that may be left out.
#[tactic(auto, using(crate::proofs::CandidateSetsLemmas::adds))]
pub(crate) fn add_optional<T: Written>(
    alloc: Global,
    unit: &UnitText,
    part: &Option<T>,
    names: &mut Names,
) -> Result<(), NoMemory>
    ensures { OnOk result (names.new ≡ with_chains unit.now names.old (flat_map T.chains (option_to_list part.now))) }
{
    match part {
        None => Ok(()),
        Some(part) => part.add(alloc, unit, names),
    }
}
