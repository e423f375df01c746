// Erasures.
ghost use Rattle.std.specs.Prelude.{◌≡◌, [], None, Some, false, IfOk};
ghost use Rattle.std.specs.Option.{option_map};
ghost use Rattle.type_mirror.specs.declared.mirror.BaseMirror.{out-BaseMirror};
ghost use Rattle.type_mirror.specs.declared.mirror.BaseMirror.TheVariants as base;
ghost use Rattle.type_mirror.specs.Parts.{plain};
ghost use Rattle.type_layers.specs.Layers as layers;
ghost use Rattle.type_layers.specs.Layers.{declared_mirror};
ghost use Rattle.type_relations.specs.Closed.{both_closed};
ghost use Rattle.type_relations.specs.Erasure as erasing;
ghost use Rattle.type_relations.specs.Erasure.{erasure, base_erasure, erased_around, executable_of, is_executable, IsSimple};
ghost use Rattle.type_relations.specs.Named.{object};

use crate::named::object;
use crate::parameter_bounds::first_bound;
use crate::parts::{array_of, class_type, executable};
use apt_base::{ElementRef, List, NoMemory};
use element_table::Table;
use std::alloc::Global;
use type_mirror::{Around, BaseMirror, ExecutableMirror, Mirror};

// ---- what stands around a base

fn erased_array(alloc: Global, item: Option<Mirror>) -> Result<Option<Mirror>, NoMemory>
    ensures { IfOk result (λ e. e ≡ option_map layers.array_of item) }
{
    match item {
        None => Ok(None),
        Some(item) => {
            let array = array_of(alloc, item)?;
            Ok(Some(array))
        }
    }
}

fn some_object(alloc: Global, table: &Table) -> Result<Option<Mirror>, NoMemory>
    ensures { IfOk result (λ e. e ≡ Some (object table.now)) }
{
    let object = object(alloc, table)?;
    Ok(Some(object))
}

// By the erasure of the base.
fn in_around(
    alloc: Global,
    table: &Table,
    around: &[Around],
    inner: Option<Mirror>,
) -> Result<Option<Mirror>, NoMemory>
    ensures { IfOk result (λ e. e ≡ erased_around table.now around.now inner) }
{
    match around {
        [] => Ok(inner),
        [Around::Array, more @ ..] => {
            let item = in_around(alloc, table, more, inner)?;
            erased_array(alloc, item)
        }
        [Around::Extends, more @ ..] => in_around(alloc, table, more, inner),
        [Around::Super, ..] => some_object(alloc, table),
    }
}

// ---- variables, and what else is no executable

fn bare_class(alloc: Global, at: &ElementRef) -> Result<Option<Mirror>, NoMemory>
    ensures { IfOk result (λ e. e ≡ Some (declared_mirror at.now None [])) }
{
    let element = at.copy(alloc)?;
    Ok(Some(class_type(alloc, element, List::new(alloc))))
}

fn itself(alloc: Global, base: &BaseMirror) -> Result<Option<Mirror>, NoMemory>
    ensures { IfOk result (λ e. e ≡ Some (plain base.now)) }
{
    let copy = base.copy(alloc)?;
    Ok(Some(Mirror::plain(alloc, copy)))
}

// Of a type variable that of its first bound, with one step less.
#[cycle(bounds)]
#[tactic(auto, using(crate::proofs::SimpleTypes::simple))]
fn variable_erasure(
    alloc: Global,
    table: &Table,
    steps: u32,
    at: &ElementRef,
) -> Result<Option<Mirror>, NoMemory>
    ensures { IfOk result (λ e. e ≡ erasing.variable_erasure table.now steps at.now) }
{
    if steps == 0 {
        return Ok(None);
    }
    let bound = first_bound(alloc, table, at)?;
    bound_erasure(alloc, table, steps - 1, &bound)
}

#[cycle(bounds)]
#[tactic(auto, using(crate::proofs::ErasedTypes::erased))]
fn bound_erasure(
    alloc: Global,
    table: &Table,
    steps: u32,
    of: &Mirror,
) -> Result<Option<Mirror>, NoMemory>
    requires { IsSimple of.now }
    ensures { IfOk result (λ e. e ≡ erasure table.now steps of.now) }
{
    let inner = simple_erasure(alloc, table, steps, &of.base)?;
    in_around(alloc, table, of.around.as_slice(), inner)
}

#[cycle(bounds)]
#[tactic(auto, using(crate::proofs::ErasedTypes::erased))]
fn simple_erasure(
    alloc: Global,
    table: &Table,
    steps: u32,
    base: &BaseMirror,
) -> Result<Option<Mirror>, NoMemory>
    requires { is_executable (out-BaseMirror base.now) ≡ false }
    ensures { IfOk result (λ e. e ≡ base_erasure table.now steps base.now) }
{
    match base {
        BaseMirror::Primitive(_) => itself(alloc, base),
        BaseMirror::Declared(declared) => bare_class(alloc, &declared.element),
        BaseMirror::Error(_) => itself(alloc, base),
        BaseMirror::Variable(at) => variable_erasure(alloc, table, steps, at),
        BaseMirror::Wildcard => some_object(alloc, table),
        BaseMirror::Executable(_) => Ok(None),
        BaseMirror::Nothing => itself(alloc, base),
        BaseMirror::Void => itself(alloc, base),
        BaseMirror::Null => itself(alloc, base),
        BaseMirror::Package(_) => itself(alloc, base),
    }
}

// ---- all types

// Two values, or nothing where the steps do not suffice for one of them.
fn both_closed<A: Drop, B: Drop>(one: Option<A>, other: Option<B>) -> Option<(A, B)>
    ensures { result ≡ both_closed one other }
{
    match one {
        None => None,
        Some(one) => match other {
            None => None,
            Some(other) => Some((one, other)),
        },
    }
}

fn executable_or_open(
    alloc: Global,
    parameters: Option<List<Mirror>>,
    outcome: Option<Mirror>,
    thrown: Option<List<Mirror>>,
) -> Result<Option<Mirror>, NoMemory>
    ensures { IfOk result (λ e. e ≡ executable_of parameters outcome thrown) }
{
    match both_closed(parameters, both_closed(outcome, thrown)) {
        None => Ok(None),
        Some((parameters, (outcome, thrown))) => {
            let whole = executable(alloc, List::new(alloc), parameters, outcome, thrown)?;
            Ok(Some(whole))
        }
    }
}

/// The erasure of a type (JLS 4.6) within this many steps, each of which goes from a type variable to its first bound; `None` where they do not suffice.
#[cycle(erasing)]
#[tactic(auto, using(crate::proofs::ErasedTypes::erased))]
pub fn erasure_within(
    alloc: Global,
    table: &Table,
    steps: u32,
    of: &Mirror,
) -> Result<Option<Mirror>, NoMemory>
    ensures { IfOk result (λ e. e ≡ erasure table.now steps of.now) }
{
    let inner = base_erasure(alloc, table, steps, &of.base)?;
    in_around(alloc, table, of.around.as_slice(), inner)
}

#[cycle(erasing)]
#[tactic(auto, using(crate::proofs::ErasedTypes::erased))]
fn base_erasure(
    alloc: Global,
    table: &Table,
    steps: u32,
    base: &BaseMirror,
) -> Result<Option<Mirror>, NoMemory>
    ensures { IfOk result (λ e. e ≡ base_erasure table.now steps base.now) }
{
    match base {
        BaseMirror::Executable(executable) => {
            executable_erasure(alloc, table, steps, executable)
        }
        _ => simple_erasure(alloc, table, steps, base),
    }
}

/// The erasures of several types in order; `None` where the steps do not suffice for one of them.
#[cycle(erasing)]
pub(crate) fn erasures(
    alloc: Global,
    table: &Table,
    steps: u32,
    mirrors: &[Mirror],
) -> Result<Option<List<Mirror>>, NoMemory>
    ensures { IfOk result (λ e. e ≡ erasing.erasures table.now steps mirrors.now) }
{
    let mut erased = List::new(alloc);
    for each in mirrors {
        match erasure_within(alloc, table, steps, each)? {
            None => return Ok(None),
            Some(one) => erased.push(one)?,
        }
    }
    Ok(Some(erased))
}

#[cycle(erasing)]
#[tactic(auto, using(crate::proofs::ErasedTypes::erased))]
fn executable_erasure(
    alloc: Global,
    table: &Table,
    steps: u32,
    of: &ExecutableMirror,
) -> Result<Option<Mirror>, NoMemory>
    ensures { IfOk result (λ e. e ≡ base_erasure table.now steps (base.Executable of.now)) }
{
    let parameters = erasures(alloc, table, steps, of.parameters.as_slice())?;
    let outcome = erasure_within(alloc, table, steps, of.result.get())?;
    let thrown = erasures(alloc, table, steps, of.thrown.as_slice())?;
    executable_or_open(alloc, parameters, outcome, thrown)
}
