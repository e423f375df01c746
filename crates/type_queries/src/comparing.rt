// The questions on two types, one call each.
ghost use Rattle.std.specs.Prelude.{◌≡◌};
ghost use Rattle.type_queries.specs.Questions.{are_both_there, are_types, are_executables};
ghost use Rattle.type_queries.specs.Questions.{subtype_question, contains_question, assignable_question, subsignature_question};
ghost use Rattle.type_queries.specs.Verdicts.{Gives, Stops, truth};

use crate::fault::QueryFault;
use crate::kinds::{is_executable, is_type};
use crate::there::are_there;
use element_table::Table;
use std::alloc::Global;
use type_levels::Answer;
use type_mirror::Mirror;
use type_subtypes::{assignable, contained, subsignature, subtype};

// ---- what stands against a question

fn are_both_there(table: &Table, a: &Mirror, b: &Mirror) -> bool
    ensures { result ≡ are_both_there table.now a.now b.now }
{
    are_there(table, a) && are_there(table, b)
}

fn are_types(a: &Mirror, b: &Mirror) -> bool
    ensures { result ≡ are_types a.now b.now }
{
    is_type(a) && is_type(b)
}

fn are_executables(a: &Mirror, b: &Mirror) -> bool
    ensures { result ≡ are_executables a.now b.now }
{
    is_executable(a) && is_executable(b)
}

// By whether all is there, and of the kind that is wanted.
pub(crate) fn stop(there: bool, kinds: bool) -> Option<QueryFault>
    ensures { Stops result there kinds }
{
    if !there {
        return Some(QueryFault::NoSuch);
    }
    if !kinds {
        return Some(QueryFault::WrongKind);
    }
    None
}

pub(crate) fn truth(answer: Answer) -> Result<bool, QueryFault>
    ensures { Gives result (truth answer) }
{
    match answer {
        Answer::Yes => Ok(true),
        Answer::Open => Err(QueryFault::TooDeep),
        Answer::No => Ok(false),
    }
}

// ---- the questions

/// Whether the first type is a subtype of the second one (JLS 4.10), as `isSubtype` of `javax.lang.model.util.Types` tells. `NoSuch` where one names an element that is not there, `WrongKind` for a package and for the types of a method or a constructor, and `TooDeep` where it is open within 64 steps, each of which goes to a direct supertype or into a type argument.
#[tactic(auto, unfolding(crate::specs::Questions::subtype_question), using(crate::proofs::JudgedQuestions::judging))]
pub fn is_subtype(alloc: Global, table: &Table, a: &Mirror, b: &Mirror) -> Result<bool, QueryFault>
    ensures { Gives result (subtype_question table.now a.now b.now) }
{
    match stop(are_both_there(table, a, b), are_types(a, b)) {
        Some(fault) => Err(fault),
        None => {
            let answer = subtype(alloc, table, a, b)?;
            truth(answer)
        }
    }
}

/// Whether the first type argument contains the second one (JLS 4.5.1), as `contains` tells. `NoSuch`, `WrongKind` and `TooDeep` come as for `is_subtype`.
#[tactic(auto, unfolding(crate::specs::Questions::contains_question), using(crate::proofs::JudgedQuestions::judging))]
pub fn contains(alloc: Global, table: &Table, a: &Mirror, b: &Mirror) -> Result<bool, QueryFault>
    ensures { Gives result (contains_question table.now a.now b.now) }
{
    match stop(are_both_there(table, a, b), are_types(a, b)) {
        Some(fault) => Err(fault),
        None => {
            let answer = contained(alloc, table, a, b)?;
            truth(answer)
        }
    }
}

/// Whether the first type is assignable to the second one (JLS 5.2), as `isAssignable` tells: a subtype, also after boxing or unboxing, or one that reaches the erasure of the second one as a raw type. `NoSuch` and `WrongKind` come as for `is_subtype`, and `TooDeep` where no part is yes and one is open within 64 steps.
#[tactic(auto, unfolding(crate::specs::Questions::assignable_question), using(crate::proofs::JudgedQuestions::judging))]
pub fn is_assignable(
    alloc: Global,
    table: &Table,
    a: &Mirror,
    b: &Mirror,
) -> Result<bool, QueryFault>
    ensures { Gives result (assignable_question table.now a.now b.now) }
{
    match stop(are_both_there(table, a, b), are_types(a, b)) {
        Some(fault) => Err(fault),
        None => {
            let answer = assignable(alloc, table, a, b)?;
            truth(answer)
        }
    }
}

/// Whether the first method or constructor has a subsignature of the second one (JLS 8.4.2), as `isSubsignature` tells: the same parameters once its type variables are renamed, or the erased ones of the second one. `NoSuch` where one names an element that is not there, `WrongKind` for what is no method and no constructor, and `TooDeep` where neither holds and an erasure is open within 64 steps.
#[tactic(auto, unfolding(crate::specs::Questions::subsignature_question), using(crate::proofs::JudgedQuestions::judging))]
pub fn is_subsignature(
    alloc: Global,
    table: &Table,
    a: &Mirror,
    b: &Mirror,
) -> Result<bool, QueryFault>
    ensures { Gives result (subsignature_question table.now a.now b.now) }
{
    match stop(are_both_there(table, a, b), are_executables(a, b)) {
        Some(fault) => Err(fault),
        None => {
            let answer = subsignature(alloc, table, a, b)?;
            truth(answer)
        }
    }
}
