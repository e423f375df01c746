// Assignable types within 64 steps.
ghost use Rattle.std.specs.Prelude.{◌≡◌, IfOk};
ghost use Rattle.apt_base.specs.Limits.{max_type_steps};
ghost use Rattle.type_relations.specs.Boxed.{boxed, unboxed};
ghost use Rattle.type_subtypes.specs.Assignable as assigning;
ghost use Rattle.type_subtypes.specs.Assignable.{converted, reaches_as_raw, otherwise};

use crate::searching::{reaches_raw, subtype};
use apt_base::{MAX_TYPE_STEPS, NoMemory};
use element_table::Table;
use std::alloc::Global;
use type_levels::Answer;
use type_mirror::{BaseMirror, Mirror};
use type_relations::{box_of, boxed_kind, erasure_within, primitive_of};

#[tactic(auto, using(crate::proofs::Conversions::converting))]
fn when_boxed(alloc: Global, table: &Table, a: &Mirror, b: &Mirror) -> Result<Answer, NoMemory>
    ensures { IfOk result (λ r. r ≡ converted table.now max_type_steps (boxed table.now a.now) b.now) }
{
    match primitive_of(a) {
        None => Ok(Answer::No),
        Some(kind) => {
            let boxed = box_of(alloc, table, kind)?;
            let answer = subtype(alloc, table, &boxed, b)?;
            Ok(answer)
        }
    }
}

#[tactic(auto, using(crate::proofs::Conversions::converting))]
fn when_unboxed(alloc: Global, table: &Table, a: &Mirror, b: &Mirror) -> Result<Answer, NoMemory>
    ensures { IfOk result (λ r. r ≡ converted table.now max_type_steps (unboxed table.now a.now) b.now) }
{
    match boxed_kind(alloc, table, a)? {
        None => Ok(Answer::No),
        Some(kind) => {
            let unboxed = Mirror::plain(alloc, BaseMirror::Primitive(kind));
            let answer = subtype(alloc, table, &unboxed, b)?;
            Ok(answer)
        }
    }
}

#[tactic(auto, using(crate::proofs::Conversions::converting))]
fn when_raw(alloc: Global, table: &Table, a: &Mirror, b: &Mirror) -> Result<Answer, NoMemory>
    ensures { IfOk result (λ r. r ≡ reaches_as_raw table.now max_type_steps a.now b.now) }
{
    match erasure_within(alloc, table, MAX_TYPE_STEPS, b)? {
        None => Ok(Answer::Open),
        Some(erased) => {
            let answer = reaches_raw(alloc, table, a, &erased)?;
            Ok(answer)
        }
    }
}

// What is left to ask where the first type is no subtype.
#[tactic(auto, using(crate::proofs::Conversions::converting))]
fn otherwise(alloc: Global, table: &Table, a: &Mirror, b: &Mirror) -> Result<Answer, NoMemory>
    ensures { IfOk result (λ r. r ≡ otherwise table.now max_type_steps a.now b.now) }
{
    let boxed = when_boxed(alloc, table, a, b)?;
    let unboxed = when_unboxed(alloc, table, a, b)?;
    let raw = when_raw(alloc, table, a, b)?;
    Ok(boxed.or(unboxed.or(raw)))
}

/// Whether the first type is assignable to the second one (JLS 5.2): a subtype, also after boxing or unboxing, or one that reaches the erasure of the second one as a raw type, each within 64 steps. Yes where a part is, else open where a part is, else no. Out of memory comes as in `subtype`.
#[tactic(auto, using(crate::proofs::Conversions::converting))]
pub fn assignable(alloc: Global, table: &Table, a: &Mirror, b: &Mirror) -> Result<Answer, NoMemory>
    ensures { IfOk result (λ r. r ≡ assigning.assignable table.now max_type_steps a.now b.now) }
{
    let first = subtype(alloc, table, a, b)?;
    match first {
        Answer::Yes => Ok(Answer::Yes),
        _ => {
            let rest = otherwise(alloc, table, a, b)?;
            Ok(first.or(rest))
        }
    }
}
