// Whether a method overrides another one in a type.
ghost use Rattle.std.specs.Prelude.{◌≡◌, Some, IfOk};
ghost use Rattle.std.specs.Option.{option_to_list};
ghost use Rattle.type_numbers.specs.Numbers.{AreKnown, Grows};
ghost use Rattle.decl_elements.specs.Modifiers as modifiers;
ghost use Rattle.decl_elements.specs.Shown.{node_of};
ghost use Rattle.type_overriding.specs.ByNumbers.{signature_of};
ghost use Rattle.type_overriding.specs.Overrides as overriding;
ghost use Rattle.type_overriding.specs.Overrides.{signature_answer, below_answer, overrides_answer};

use crate::by_elements::is_below;
use crate::signatures::subsignature_at;
use apt_base::{ElementRef, NoMemory};
use decl_elements::Place;
use decl_tree::TypeKind;
use element_table::Table;
use std::alloc::Global;
use type_elements::{are_namesakes, is_private, is_static, package_allows};
use type_levels::Answer;
use type_members::{member_of, number_of};
use type_numbers::Types;
use type_relations::{around_of, place_of};

// ---- what the two methods are

fn is_interface(kind: TypeKind) -> bool
    ensures { result ≡ modifiers.is_interface kind }
{
    match kind {
        TypeKind::Interface | TypeKind::AnnotationType => true,
        TypeKind::Enum | TypeKind::Class => false,
    }
}

// It is a member of an interface, or of an annotation interface.
fn is_inside_interface(place: Place<'_>) -> bool
    ensures { result ≡ overriding.is_inside_interface (Some (node_of place.entry)) }
{
    match place {
        Place::Package(_) => false,
        Place::Top(_) => false,
        Place::Inside(kind, _) => is_interface(kind),
        Place::TypeParameter(_) => false,
        Place::Parameter(_) => false,
        Place::DefaultConstructor(_, _) => false,
        Place::Values => false,
        Place::ValueOf => false,
        Place::ValueOfName => false,
    }
}

fn is_of_interface(table: &Table, at: &ElementRef) -> bool
    ensures { result ≡ overriding.is_of_interface table.now at.now }
{
    match place_of(table, at) {
        None => false,
        Some(place) => is_inside_interface(place),
    }
}

/// Whether the methods themselves let the first one override the second one: different methods of one name, neither static, the second one neither private nor kept from the package of the first one, and of an interface if the first one is. It takes no memory.
pub fn may_override(table: &Table, one: &ElementRef, other: &ElementRef) -> bool
    ensures { result ≡ overriding.may_override table.now one.now other.now }
{
    are_namesakes(table, one, other)
        && !is_static(table, one)
        && !is_static(table, other)
        && !is_private(table, other)
        && package_allows(table, one, other)
        && (!is_of_interface(table, one) || is_of_interface(table, other))
}

// ---- their signatures in a type

// Of two types that may be open.
#[tactic(auto, using(crate::proofs::OverridingSteps::signing))]
pub(crate) fn signature_of(
    alloc: Global,
    table: &Table,
    types: &mut Types,
    first: Option<usize>,
    second: Option<usize>,
) -> Result<Answer, NoMemory>
    requires first { AreKnown types.old (option_to_list first) }
    requires second { AreKnown types.old (option_to_list second) }
    ensures answer { IfOk result (λ r. r ≡ signature_of table.now types.old first second) }
    ensures grows { Grows types.old types.new }
{
    match first {
        None => Ok(Answer::Open),
        Some(one) => match second {
            None => Ok(Answer::Open),
            Some(other) => {
                let answer = subsignature_at(alloc, table, types, one, other)?;
                Ok(answer)
            }
        },
    }
}

/// Whether one of two methods has, as a member of a type, a subsignature of the other one (JLS 8.4.2), within 64 steps; open where these do not suffice, or the type of one of them as a member is open. Each number that was given before still has the same type.
pub fn has_subsignature(
    alloc: Global,
    table: &Table,
    types: &mut Types,
    within: &ElementRef,
    one: &ElementRef,
    other: &ElementRef,
) -> Result<Answer, NoMemory>
    ensures answer { IfOk result (λ r. r ≡ signature_answer table.now within.now one.now other.now) }
    ensures grows { Grows types.old types.new }
{
    let container = number_of(alloc, table, types, within)?;
    let first = member_of(alloc, table, types, container, one)?;
    let second = member_of(alloc, table, types, container, other)?;
    let answer = signature_of(alloc, table, types, first, second)?;
    Ok(answer)
}

// ---- overriding

// Whether a type is below both types that declare these methods.
#[tactic(auto, using(crate::proofs::OverridingSteps::overriding))]
fn is_below_both(
    alloc: Global,
    table: &Table,
    types: &mut Types,
    within: &ElementRef,
    one: &ElementRef,
    other: &ElementRef,
) -> Result<Answer, NoMemory>
    ensures answer { IfOk result (λ r. r ≡ below_answer table.now within.now one.now other.now) }
    ensures grows { Grows types.old types.new }
{
    let first = around_of(alloc, table, one)?;
    let below_first = is_below(alloc, table, types, within, &first)?;
    let second = around_of(alloc, table, other)?;
    let below_second = is_below(alloc, table, types, within, &second)?;
    Ok(below_first.and(below_second))
}

/// Whether the first method overrides the second one in a type (JLS 8.4.8.1, 9.4.1.1) within 64 steps: the methods themselves let it, the type is below both declaring types by their elements alone, and in the type the signature of the first one is a subsignature of that of the second one. No where one of these is no, else open where one is open within 64 steps. Each number that was given before still has the same type.
///
/// The types are not looked at where the methods themselves settle it, nor the signatures where the type is not below both declaring types.
#[tactic(auto, using(crate::proofs::OverridingSteps::overriding))]
pub fn overrides(
    alloc: Global,
    table: &Table,
    types: &mut Types,
    one: &ElementRef,
    other: &ElementRef,
    within: &ElementRef,
) -> Result<Answer, NoMemory>
    ensures answer { IfOk result (λ r. r ≡ overrides_answer table.now one.now other.now within.now) }
    ensures grows { Grows types.old types.new }
{
    if !may_override(table, one, other) {
        return Ok(Answer::No);
    }
    let below = is_below_both(alloc, table, types, within, one, other)?;
    match below {
        Answer::No => Ok(Answer::No),
        _ => {
            let signature = has_subsignature(alloc, table, types, within, one, other)?;
            Ok(below.and(signature))
        }
    }
}
