// The candidates of what is written at each place of a unit, put into a set.
ghost use Rattle.std.specs.Prelude.{◌≡◌, IfOk, OnOk};
ghost use Rattle.std.specs.List.{flat_map};
ghost use Rattle.decl_tree.specs.declared.declaration.Member.{out-Member};
ghost use Rattle.decl_elements.specs.Shown.{node_of};
ghost use Rattle.decl_elements.specs.Written.{header, member_types, types, member_values, values};
ghost use Rattle.reach_map.specs.Chains.{type_chains, value_chains, node_chains, unit_chains};
ghost use Rattle.reach_map.specs.CandidateSets.{with_chains};

use crate::types::add_type;
use crate::written::{add_all, add_optional};
use apt_base::{Names, NoMemory};
use decl_elements::{Place, Visitor, walk};
use decl_tree::{Member, TypeDecl, Unit, UnitText};
use std::alloc::Global;

#[tactic(auto, using(crate::proofs::CandidateSetsLemmas::adds))]
fn add_header(
    alloc: Global,
    unit: &UnitText,
    declaration: &TypeDecl,
    names: &mut Names,
) -> Result<(), NoMemory>
    ensures { OnOk result
        (names.new ≡ with_chains unit.now names.old (flat_map type_chains (header declaration.now))) }
{
    add_optional(alloc, unit, &declaration.superclass, names)?;
    add_all(alloc, unit, declaration.interfaces.as_slice(), names)
}

#[tactic(auto, using(crate::proofs::CandidateSetsLemmas::adds))]
fn add_member_types(
    alloc: Global,
    unit: &UnitText,
    member: &Member,
    names: &mut Names,
) -> Result<(), NoMemory>
    ensures { OnOk result
        (names.new ≡ with_chains unit.now names.old (flat_map type_chains (member_types (out-Member member.now)))) }
{
    match member {
        Member::Field(field) => add_type(alloc, unit, &field.of, names),
        Member::Method(method) => {
            add_type(alloc, unit, &method.result, names)?;
            add_all(alloc, unit, method.thrown.as_slice(), names)
        }
        Member::Constructor(constructor) => {
            add_all(alloc, unit, constructor.thrown.as_slice(), names)
        }
        Member::Constant(_) => Ok(()),
        Member::Nested(declaration) => add_header(alloc, unit, declaration, names),
    }
}

#[tactic(auto, using(crate::proofs::CandidateSetsLemmas::adds), unfolding(decl_elements::specs::Written::types))]
fn add_types(
    alloc: Global,
    unit: &UnitText,
    place: Place<'_>,
    names: &mut Names,
) -> Result<(), NoMemory>
    ensures { OnOk result
        (names.new ≡ with_chains unit.now names.old (flat_map type_chains (types (node_of place.entry)))) }
{
    match place {
        Place::Top(declaration) => add_header(alloc, unit, declaration, names),
        Place::Inside(_, member) => add_member_types(alloc, unit, member, names),
        Place::TypeParameter(parameter) => {
            add_all(alloc, unit, parameter.bounds.as_slice(), names)
        }
        Place::Parameter(parameter) => add_type(alloc, unit, &parameter.of, names),
        Place::Package(_) => Ok(()),
        Place::DefaultConstructor(_, _) => Ok(()),
        Place::Values => Ok(()),
        Place::ValueOf => Ok(()),
        Place::ValueOfName => Ok(()),
    }
}

#[tactic(auto, using(crate::proofs::CandidateSetsLemmas::adds))]
fn add_member_values(
    alloc: Global,
    unit: &UnitText,
    member: &Member,
    names: &mut Names,
) -> Result<(), NoMemory>
    ensures { OnOk result
        (names.new ≡ with_chains unit.now names.old (flat_map value_chains (member_values (out-Member member.now)))) }
{
    match member {
        Member::Field(field) => add_optional(alloc, unit, &field.constant, names),
        Member::Method(method) => add_optional(alloc, unit, &method.default, names),
        Member::Constructor(_) => Ok(()),
        Member::Constant(_) => Ok(()),
        Member::Nested(_) => Ok(()),
    }
}

#[tactic(auto, using(crate::proofs::CandidateSetsLemmas::adds), unfolding(decl_elements::specs::Written::values))]
fn add_values(
    alloc: Global,
    unit: &UnitText,
    place: Place<'_>,
    names: &mut Names,
) -> Result<(), NoMemory>
    ensures { OnOk result
        (names.new ≡ with_chains unit.now names.old (flat_map value_chains (values (node_of place.entry)))) }
{
    match place {
        Place::Inside(_, member) => add_member_values(alloc, unit, member, names),
        Place::Package(_) => Ok(()),
        Place::Top(_) => Ok(()),
        Place::TypeParameter(_) => Ok(()),
        Place::Parameter(_) => Ok(()),
        Place::DefaultConstructor(_, _) => Ok(()),
        Place::Values => Ok(()),
        Place::ValueOf => Ok(()),
        Place::ValueOfName => Ok(()),
    }
}

#[tactic(auto, using(crate::proofs::CandidateSetsLemmas::adds))]
fn add_place(
    alloc: Global,
    unit: &UnitText,
    place: Place<'_>,
    names: &mut Names,
) -> Result<(), NoMemory>
    ensures { OnOk result (names.new ≡ with_chains unit.now names.old (node_chains (node_of place.entry))) }
{
    add_all(alloc, unit, place.annotations(), names)?;
    add_types(alloc, unit, place, names)?;
    add_values(alloc, unit, place, names)
}

// A unit, and a set with the candidates of what is written at its places so far.
#[derive(Drop)]
struct Gatherer<'a> {
    alloc: Global,
    unit: &'a UnitText,
    names: Names,
}

impl Visitor for Gatherer<'_> {
    ghost visits = { λ old at new.
        (new.unit.now ≡ old.unit.now) × (new.names ≡ with_chains old.unit.now old.names (node_chains at.node)) };

    fn visit(&mut self, _path: &[u16], place: Place<'_>) -> Result<(), NoMemory> {
        add_place(self.alloc, self.unit, place, &mut self.names)
    }
}

/// The set with the candidates of all that is written in a unit.
#[tactic(auto, unfolding(crate::specs::Chains::unit_chains))]
pub(crate) fn with_places(alloc: Global, unit: &Unit, names: Names) -> Result<Names, NoMemory>
    ensures { IfOk result (λ all. all ≡ with_chains unit.now names (unit_chains unit.now)) }
{
    let text = unit.text();
    let mut gatherer = Gatherer {
        alloc,
        unit: text,
        names,
    };
    walk(alloc, unit, &mut gatherer)?;
    Ok(gatherer.names)
}
