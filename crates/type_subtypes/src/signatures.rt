// Subsignatures: the parameters of two methods or constructors.
ghost use Rattle.std.specs.Prelude.{◌≡◌, [], IfOk, OnOk, length, map};
ghost use Rattle.std.specs.Option.{option_copied, option_map};
ghost use Rattle.apt_base.specs.Limits.{max_type_steps};
ghost use Rattle.type_mirror.specs.Substitution.{substituted, AreDistinct};
ghost use Rattle.type_layers.specs.Layers as layers;
ghost use Rattle.type_layers.specs.Layers.{executable_layer, layer, layer_in, mirror_of};
ghost use Rattle.type_relations.specs.Erasure.{erasure};
ghost use Rattle.type_relations.specs.RawTypes.{added};
ghost use Rattle.type_subtypes.specs.Subsignature as signatures;
ghost use Rattle.type_subtypes.specs.Subsignature.{all_same, executable_in, is_erased, of_signatures, signature_beside};

use apt_base::{ElementRef, List, MAX_TYPE_STEPS, NoMemory};
use element_table::Table;
use std::alloc::Global;
use type_layers::is_same;
use type_levels::Answer;
use type_mirror::{Around, BaseMirror, ExecutableMirror, Mirror, substitute};
use type_relations::{erasure_within, has_entry};

// ---- variables renamed

#[tactic(auto, unfolding(type_layers::specs::Layers::mirror_of))]
fn variable(alloc: Global, at: &ElementRef) -> Result<Mirror, NoMemory>
    ensures { IfOk result (λ m. m ≡ mirror_of (layers.Variable at.now)) }
{
    let element = at.copy(alloc)?;
    Ok(Mirror::plain(alloc, BaseMirror::Variable(element)))
}

// One variable is put in the place of another; the first entry for a variable counts.
#[tactic(auto, using(type_relations::proofs::EntriesOfTypes::adding))]
fn rename(
    alloc: Global,
    by: &mut List<(ElementRef, Mirror)>,
    other: &ElementRef,
    one: &ElementRef,
) -> Result<(), NoMemory>
    requires { AreDistinct by.old }
    ensures value { OnOk result (by.new ≡ added by.old (other.now, mirror_of (layers.Variable one.now))) }
    ensures distinct { OnOk result (AreDistinct by.new) }
{
    if has_entry(by.as_slice(), other) {
        return Ok(());
    }
    let other = other.copy(alloc)?;
    let one = variable(alloc, one)?;
    by.push((other, one))
}

#[tactic(auto, using(crate::proofs::RenamedVariables::renaming))]
fn renamed(
    alloc: Global,
    ones: &[ElementRef],
    others: &[ElementRef],
) -> Result<List<(ElementRef, Mirror)>, NoMemory>
    requires { length ones.now ≡ length others.now }
    ensures value { IfOk result (λ by. by ≡ signatures.renamed ones.now others.now) }
    ensures distinct { IfOk result (λ by. AreDistinct by) }
{
    let mut by = List::new(alloc);
    for at in 0..others.len() {
        rename(alloc, &mut by, &others[at], &ones[at])?;
    }
    Ok(by)
}

// ---- the same parameters

#[tactic(auto, using(crate::proofs::SignatureLaws::paired))]
fn all_same(
    alloc: Global,
    ones: &[Mirror],
    others: &[Mirror],
    by: &List<(ElementRef, Mirror)>,
) -> Result<bool, NoMemory>
    requires { AreDistinct by.now }
    ensures { IfOk result (λ all. all ≡ all_same ones.now (map (substituted by.now) others.now)) }
{
    if ones.len() != others.len() {
        return Ok(false);
    }
    for at in 0..ones.len() {
        let other = substitute(alloc, &others[at], by)?;
        if !is_same(&ones[at], &other) {
            return Ok(false);
        }
    }
    Ok(true)
}

#[tactic(auto, using(crate::proofs::SignatureLaws::paired))]
fn same_renamed(
    alloc: Global,
    ones: &[ElementRef],
    types: &[Mirror],
    others: &[ElementRef],
    beside: &[Mirror],
) -> Result<bool, NoMemory>
    ensures { IfOk result (λ all. all ≡ signatures.same_renamed ones.now types.now others.now beside.now) }
{
    if ones.len() != others.len() {
        return Ok(false);
    }
    let by = renamed(alloc, ones, others)?;
    let all = all_same(alloc, types, beside, &by)?;
    Ok(all)
}

// ---- erased parameters

#[tactic(auto, using(crate::proofs::SignatureLaws::paired))]
fn is_erased(alloc: Global, table: &Table, one: &Mirror, other: &Mirror) -> Result<Answer, NoMemory>
    ensures { IfOk result (λ r. r ≡ is_erased one.now (erasure table.now max_type_steps other.now)) }
{
    match erasure_within(alloc, table, MAX_TYPE_STEPS, other)? {
        None => Ok(Answer::Open),
        Some(erased) => Ok(Answer::of_test(is_same(one, &erased))),
    }
}

#[tactic(auto, using(crate::proofs::SignatureLaws::paired))]
fn same_erased(
    alloc: Global,
    table: &Table,
    ones: &[Mirror],
    others: &[Mirror],
) -> Result<Answer, NoMemory>
    ensures { IfOk result (λ r. r ≡ signatures.same_erased table.now max_type_steps ones.now others.now) }
{
    if ones.len() != others.len() {
        return Ok(Answer::No);
    }
    let mut all = Answer::Yes;
    for at in 0..ones.len() {
        let one = is_erased(alloc, table, &ones[at], &others[at])?;
        all = all.and(one);
    }
    Ok(all)
}

// ---- signatures

fn executable_base(base: &BaseMirror) -> Option<&ExecutableMirror>
    ensures { option_map executable_layer (option_copied result) ≡ executable_in (layer_in [] base.now) }
{
    match base {
        BaseMirror::Primitive(_) => None,
        BaseMirror::Declared(_) => None,
        BaseMirror::Error(_) => None,
        BaseMirror::Variable(_) => None,
        BaseMirror::Wildcard => None,
        BaseMirror::Executable(executable) => Some(executable),
        BaseMirror::Nothing => None,
        BaseMirror::Void => None,
        BaseMirror::Null => None,
        BaseMirror::Package(_) => None,
    }
}

// The types of a method or a constructor, if it is one.
#[tactic(auto, unfolding(type_layers::specs::Layers::layer))]
fn executable_of(of: &Mirror) -> Option<&ExecutableMirror>
    ensures { option_map executable_layer (option_copied result) ≡ executable_in (layer of.now) }
{
    match of.around.as_slice() {
        [Around::Array, ..] => None,
        [Around::Extends, ..] => None,
        [Around::Super, ..] => None,
        [] => executable_base(&of.base),
    }
}

fn of_executables(
    alloc: Global,
    table: &Table,
    one: &ExecutableMirror,
    other: &ExecutableMirror,
) -> Result<Answer, NoMemory>
    ensures { IfOk result (λ r. r ≡ of_signatures table.now max_type_steps one.now other.now) }
{
    let ones = one.parameters.as_slice();
    let others = other.parameters.as_slice();
    let renamed = same_renamed(
        alloc,
        one.variables.as_slice(),
        ones,
        other.variables.as_slice(),
        others,
    )?;
    let erased = same_erased(alloc, table, ones, others)?;
    Ok(Answer::of_test(renamed).or(erased))
}

fn beside(
    alloc: Global,
    table: &Table,
    one: &ExecutableMirror,
    b: &Mirror,
) -> Result<Answer, NoMemory>
    ensures { IfOk result (λ r. r ≡ signature_beside table.now max_type_steps one.now b.now) }
{
    match executable_of(b) {
        None => Ok(Answer::No),
        Some(other) => {
            let answer = of_executables(alloc, table, one, other)?;
            Ok(answer)
        }
    }
}

/// Whether the signature of the first method or constructor is a subsignature of that of the second one (JLS 8.4.2): the parameters are the same once the variables of the second one are renamed to those of the first one in order, or they are the erased ones of the second one, each within 64 steps; open where these do not suffice. No for what is no method and no constructor.
pub fn subsignature(
    alloc: Global,
    table: &Table,
    a: &Mirror,
    b: &Mirror,
) -> Result<Answer, NoMemory>
    ensures { IfOk result (λ r. r ≡ signatures.subsignature table.now max_type_steps a.now b.now) }
{
    match executable_of(a) {
        None => Ok(Answer::No),
        Some(one) => {
            let answer = beside(alloc, table, one, b)?;
            Ok(answer)
        }
    }
}
