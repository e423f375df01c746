// The question whether a method overrides another one in a type.
ghost use Rattle.std.specs.Prelude.{◌≡◌};
ghost use Rattle.type_queries.specs.OverridingQuestions as questions;
ghost use Rattle.type_queries.specs.OverridingQuestions.{overrides_question};
ghost use Rattle.type_queries.specs.Verdicts.{Gives};

use crate::comparing::{stop, truth};
use crate::fault::QueryFault;
use apt_base::ElementRef;
use element_table::Table;
use std::alloc::Global;
use type_elements::is_method;
use type_numbers::Types;
use type_relations::is_there;
use type_resolve::is_type;

fn are_elements_there(
    table: &Table,
    one: &ElementRef,
    other: &ElementRef,
    within: &ElementRef,
) -> bool
    ensures { result ≡ questions.are_elements_there table.now one.now other.now within.now }
{
    is_there(table, one) && is_there(table, other) && is_there(table, within)
}

fn are_methods_and_type(
    table: &Table,
    one: &ElementRef,
    other: &ElementRef,
    within: &ElementRef,
) -> bool
    ensures { result ≡ questions.are_methods_and_type table.now one.now other.now within.now }
{
    is_method(table, one) && is_method(table, other) && is_type(table, within)
}

/// Whether the first method overrides the second one in a type (JLS 8.4.8.1, 9.4.1.1), as `overrides` of `javax.lang.model.util.Elements` tells: two different methods of one name, neither static, the second one not private, and of the first one's package where it has package access; the type is below both declaring types by their elements alone; the first one is of an interface only if the second one is; and in the type its signature is a subsignature of the second one's. `NoSuch` where one of the three is not there, `WrongKind` unless they are two methods and a type, and `TooDeep` where nothing of this is no, and something is open within 64 steps.
#[tactic(auto, unfolding(crate::specs::OverridingQuestions::overrides_question), using(crate::proofs::JudgedQuestions::judging))]
pub fn overrides(
    alloc: Global,
    table: &Table,
    one: &ElementRef,
    other: &ElementRef,
    within: &ElementRef,
) -> Result<bool, QueryFault>
    ensures { Gives result (overrides_question table.now one.now other.now within.now) }
{
    let there = are_elements_there(table, one, other, within);
    match stop(there, are_methods_and_type(table, one, other, within)) {
        Some(fault) => Err(fault),
        None => {
            let mut types = Types::new(alloc);
            let answer = type_listing::overrides(alloc, table, &mut types, one, other, within)?;
            truth(answer)
        }
    }
}
