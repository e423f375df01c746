// The question on the type of a member as a member of a type.
ghost use Rattle.std.specs.Prelude.{◌≡◌, ◌↔◌, Some, IsTrue, IfOk};
ghost use Rattle.apt_base.specs.Limits.{max_type_steps};
ghost use Rattle.element_table.specs.TableElements.{node_at};
ghost use Rattle.type_members.specs.MemberOf as members;
ghost use Rattle.type_queries.specs.MemberQuestion as question;
ghost use Rattle.type_queries.specs.MemberQuestion.{AreOfKind, GivesMember, IsIn};

use crate::fault::QueryFault;
use crate::there::are_there;
use apt_base::{ElementRef, NoMemory};
use decl_elements::Place;
use element_table::Table;
use std::alloc::Global;
use type_elements::class_element;
use type_members::{is_reached, member_of};
use type_mirror::Mirror;
use type_numbers::Types;
use type_relations::{around_of, is_there, place_of};
use type_resolve::is_type;

// ---- what stands against the question

fn both_there(table: &Table, container: &Mirror, at: &ElementRef) -> bool
    ensures { result ≡ question.both_there table.now container.now at.now }
{
    are_there(table, container) && is_there(table, at)
}

fn is_type_parameter(table: &Table, at: &ElementRef) -> bool
    ensures { result ≡ question.is_type_parameter (node_at table.now at.now) }
{
    match place_of(table, at) {
        None => false,
        Some(place) => matches!(place, Place::TypeParameter(_)),
    }
}

// Whether it is in a type that is this element or is reached from it.
fn is_in(alloc: Global, table: &Table, from: &ElementRef, at: &ElementRef) -> Result<bool, NoMemory>
    ensures kind { IfOk result (λ r. IsTrue r ↔ IsIn table.now (Some from.now) at.now) }
    ensures test { IfOk result (λ r. r ≡ question.is_in table.now (Some from.now) at.now) }
{
    if is_type_parameter(table, at) {
        return Ok(false);
    }
    let around = around_of(alloc, table, at)?;
    if !is_type(table, &around) {
        return Ok(false);
    }
    is_reached(alloc, table, from, &around)
}

/// Whether the first one is a class type, and the element one that may be its member: no type parameter, and in a type
/// that is the element of the class type or is reached from it by any number of direct supertypes. Where nothing stands
/// at the element it is no member.
///
/// Out of memory comes also where that type is not among the first 65,536 types that are reached, nearest first, and
/// there are more.
pub fn is_member_of(
    alloc: Global,
    table: &Table,
    container: &Mirror,
    at: &ElementRef,
) -> Result<bool, NoMemory>
    ensures kind { IfOk result (λ r. IsTrue r ↔ AreOfKind table.now container.now at.now) }
    ensures test { IfOk result (λ r. r ≡ question.is_member_of table.now container.now at.now) }
{
    match class_element(container) {
        None => Ok(false),
        Some(element) => is_in(alloc, table, element, at),
    }
}

// ---- the question

/// The type of a member as a member of a class type (JLS 4.5.2, 4.8), where the member is of it (`is_member_of`):
/// nothing where the supertype that declares it is not within 64 steps, or where an erasure has no end within them.
/// `as_member_of` says it with what stands against the question.
pub fn type_of_member(
    alloc: Global,
    table: &Table,
    container: &Mirror,
    at: &ElementRef,
) -> Result<Option<Mirror>, NoMemory>
    ensures { IfOk result (λ m. m ≡ members.member_of table.now max_type_steps container.now at.now) }
{
    let mut types = Types::new(alloc);
    let number = types.add(container)?;
    match member_of(alloc, table, &mut types, number, at)? {
        None => Ok(None),
        Some(seen) => {
            let mirror = types.mirror(seen)?;
            Ok(Some(mirror))
        }
    }
}

/// The type of a member as a member of a class type (JLS 4.5.2, 4.8), as `asMemberOf` of `javax.lang.model.util.Types` gives it: a static member has its own type everywhere, and so has one around which nothing has type parameters. Any other one is seen in the supertype that declares it, the type itself included, the one with the fewest steps: there the arguments stand in the place of type parameters, and in a raw type all is erased. `NoSuch` where the type or the member names an element that is not there. `WrongKind` for what is no class type, for a type parameter, and for an element that is in no type which is the element of the class type or is reached from it by direct supertypes. `TooDeep` where the supertype is not within 64 steps, or where the erasure has no end within them.
#[tactic(auto, using(crate::proofs::MemberAnswers::answering))]
pub fn as_member_of(
    alloc: Global,
    table: &Table,
    container: &Mirror,
    at: &ElementRef,
) -> Result<Mirror, QueryFault>
    ensures { GivesMember result table.now container.now at.now }
{
    if !both_there(table, container, at) {
        return Err(QueryFault::NoSuch);
    }
    if !is_member_of(alloc, table, container, at)? {
        return Err(QueryFault::WrongKind);
    }
    match type_of_member(alloc, table, container, at)? {
        None => Err(QueryFault::TooDeep),
        Some(mirror) => Ok(mirror),
    }
}
