// Subsignatures by numbers: the parameters of two methods, each type that stands in them once.
ghost use Rattle.std.specs.Prelude.{◌≡◌, length, IfOk};
ghost use Rattle.std.specs.List.{zip};
ghost use Rattle.type_layers.specs.Layers.{parts_of};
ghost use Rattle.type_layers.specs.Same as sameness;
ghost use Rattle.type_numbers.specs.Numbers.{at, IsKnown, AreKnown, Grows};
ghost use Rattle.type_numbers.specs.Nodes.{layer_of};
ghost use Rattle.type_numbers.specs.Replaced.{AreKnownIn, replacements_in};
ghost use Rattle.type_subtypes.specs.Subsignature.{as_types};
ghost use Rattle.type_overriding.specs.ByNumbers.{same_at, renamed_at, is_erased_at, erased_at};
ghost use Rattle.type_overriding.specs.ByNumbers.{SignAt, nodes_signature, signature_at};

use apt_base::{ElementRef, List, NoMemory};
use element_table::Table;
use std::alloc::Global;
use type_levels::Answer;
use type_numbers::{Node, Types, substitute};
use type_steps::erasure_of;

// ---- the same types

fn is_wildcard(node: &Node) -> bool
    ensures { result ≡ sameness.is_wildcard (layer_of node.now) }
{
    matches!(node, Node::Unbounded | Node::Extends(_) | Node::Super(_))
}

// Whether two numbers stand for the same type; a wildcard is the same as nothing.
fn is_same(types: &Types, one: usize, other: usize) -> bool
    requires { IsKnown types.now one × IsKnown types.now other }
    ensures { result ≡ sameness.same (at types.now one) (at types.now other) }
{
    if is_wildcard(types.node(one)) {
        return false;
    }
    types.is_equal(one, other)
}

// ---- the same parameters

// The second variables, each with the type of the first one at its place.
fn renamed(
    alloc: Global,
    types: &mut Types,
    ones: &[ElementRef],
    others: &[ElementRef],
) -> Result<List<(ElementRef, usize)>, NoMemory>
    requires { length ones.now ≡ length others.now }
    ensures known { IfOk result (λ by. AreKnownIn types.new by) }
    ensures value { IfOk result (λ by. replacements_in types.new by ≡ zip others.now (as_types ones.now)) }
    ensures grows { Grows types.old types.new }
{
    let mut by = List::new(alloc);
    for place in 0..others.len() {
        let one = ones[place].copy(alloc)?;
        let number = types.intern(Node::Variable(one))?;
        let other = others[place].copy(alloc)?;
        by.push((other, number))?;
    }
    Ok(by)
}

// Each of the first types is the same as the second one at its place with these variables replaced.
#[tactic(auto, using(crate::proofs::SignaturesByNumbers::numbered))]
fn all_same(
    alloc: Global,
    types: &mut Types,
    ones: &[usize],
    others: &[usize],
    by: &[(ElementRef, usize)],
) -> Result<bool, NoMemory>
    requires ones { AreKnown types.old ones.now }
    requires others { AreKnown types.old others.now }
    requires by { AreKnownIn types.old by.now }
    ensures same { IfOk result (λ r. r ≡ same_at types.old by.now ones.now others.now) }
    ensures grows { Grows types.old types.new }
{
    if ones.len() != others.len() {
        return Ok(false);
    }
    for place in 0..ones.len() {
        let other = substitute(alloc, types, by, others[place])?;
        if !is_same(types, ones[place], other) {
            return Ok(false);
        }
    }
    Ok(true)
}

// The same with the second variables renamed to the first ones, in order; with different numbers of variables none are.
#[tactic(auto, using(type_subtypes::proofs::SignatureLaws::paired))]
fn same_renamed(
    alloc: Global,
    types: &mut Types,
    ones: &[ElementRef],
    parameters: &[usize],
    others: &[ElementRef],
    beside: &[usize],
) -> Result<bool, NoMemory>
    requires parameters { AreKnown types.old parameters.now }
    requires beside { AreKnown types.old beside.now }
    ensures same { IfOk result (λ r. r ≡ renamed_at types.old ones.now parameters.now others.now beside.now) }
    ensures grows { Grows types.old types.new }
{
    if ones.len() != others.len() {
        return Ok(false);
    }
    let by = renamed(alloc, types, ones, others)?;
    let same = all_same(alloc, types, parameters, beside, by.as_slice())?;
    Ok(same)
}

// ---- erased parameters

fn is_erased(
    alloc: Global,
    table: &Table,
    types: &mut Types,
    one: usize,
    other: usize,
) -> Result<Answer, NoMemory>
    requires { IsKnown types.old one × IsKnown types.old other }
    ensures erased { IfOk result (λ r. r ≡ is_erased_at table.now types.old one other) }
    ensures grows { Grows types.old types.new }
{
    match erasure_of(alloc, table, types, other)? {
        None => Ok(Answer::Open),
        Some(erased) => Ok(Answer::of_test(is_same(types, one, erased))),
    }
}

// The first types are the erased second ones.
#[tactic(auto, using(crate::proofs::SignaturesByNumbers::numbered))]
fn same_erased(
    alloc: Global,
    table: &Table,
    types: &mut Types,
    ones: &[usize],
    others: &[usize],
) -> Result<Answer, NoMemory>
    requires ones { AreKnown types.old ones.now }
    requires others { AreKnown types.old others.now }
    ensures erased { IfOk result (λ r. r ≡ erased_at table.now types.old ones.now others.now) }
    ensures grows { Grows types.old types.new }
{
    if ones.len() != others.len() {
        return Ok(Answer::No);
    }
    let mut all = Answer::Yes;
    for place in 0..ones.len() {
        let one = is_erased(alloc, table, types, ones[place], others[place])?;
        all = all.and(one);
    }
    Ok(all)
}

// ---- signatures

// Of two methods or constructors by their variables and the types of their parameters.
#[tactic(auto, using(crate::proofs::NodeSignatures::signing))]
fn of_parameters(
    alloc: Global,
    table: &Table,
    types: &mut Types,
    ones: &[ElementRef],
    parameters: &[usize],
    others: &[ElementRef],
    beside: &[usize],
) -> Result<Answer, NoMemory>
    requires parameters { AreKnown types.old parameters.now }
    requires beside { AreKnown types.old beside.now }
    ensures answer { IfOk result (SignAt table.now types.old ones.now parameters.now others.now beside.now) }
    ensures grows { Grows types.old types.new }
{
    let same = same_renamed(alloc, types, ones, parameters, others, beside)?;
    if same {
        return Ok(Answer::Yes);
    }
    let erased = same_erased(alloc, table, types, parameters, beside)?;
    Ok(erased)
}

// Of two types whose outermost layers these nodes show.
#[tactic(auto, using(crate::proofs::NodeSignatures::signing))]
fn of_nodes(
    alloc: Global,
    table: &Table,
    types: &mut Types,
    one: &Node,
    other: &Node,
) -> Result<Answer, NoMemory>
    requires one { AreKnown types.old (parts_of (layer_of one.now)) }
    requires other { AreKnown types.old (parts_of (layer_of other.now)) }
    ensures answer { IfOk result (λ r. r ≡ nodes_signature table.now types.old one.now other.now) }
    ensures grows { Grows types.old types.new }
{
    match one {
        Node::Executable(ones, parameters, _, _) => match other {
            Node::Executable(others, beside, _, _) => {
                let answer = of_parameters(
                    alloc,
                    table,
                    types,
                    ones.as_slice(),
                    parameters.as_slice(),
                    others.as_slice(),
                    beside.as_slice(),
                )?;
                Ok(answer)
            }
            _ => Ok(Answer::No),
        },
        _ => Ok(Answer::No),
    }
}

/// Whether the first type is that of a method or a constructor whose signature is a subsignature of the second one's (JLS 8.4.2): the parameters are the same once the variables of the second one are renamed to those of the first one in order, or they are the erased ones of the second one, each within 64 steps; open where these do not suffice. No for what is no method and no constructor. Each number that was given before still has the same type.
pub(crate) fn subsignature_at(
    alloc: Global,
    table: &Table,
    types: &mut Types,
    one: usize,
    other: usize,
) -> Result<Answer, NoMemory>
    requires { IsKnown types.old one × IsKnown types.old other }
    ensures answer { IfOk result (λ r. r ≡ signature_at table.now types.old one other) }
    ensures grows { Grows types.old types.new }
{
    let first = types.node(one).copy(alloc)?;
    let second = types.node(other).copy(alloc)?;
    let answer = of_nodes(alloc, table, types, &first, &second)?;
    Ok(answer)
}
