// The questions on types, one call each.
ghost use Rattle.std.specs.Prelude.{◌≢◌, Err};
ghost use Rattle.type_queries.specs.declared.fault.QueryFault.TheVariants as fault;
ghost use Rattle.type_queries.specs.Questions.{same_question, type_question, print_question, boxed_question, unboxed_question, direct_question, erasure_question};
ghost use Rattle.type_queries.specs.Verdicts.{Gives};

use crate::fault::QueryFault;
use crate::kinds::{is_executable, is_package};
use crate::there::are_there;
use apt_base::{ElementRef, List, MAX_TYPE_STEPS, Name};
use element_table::Table;
use std::alloc::Global;
use type_elements::type_of_element;
use type_mirror::{BaseMirror, Mirror};
use type_relations::{box_of, boxed_kind, direct, erasure_within, is_there, primitive_of};
use type_texts::text_of;

/// Whether both are the same type, as `isSameType` of `javax.lang.model.util.Types` tells: equal mirrors, of which a wildcard is the same as nothing. `NoSuch` where one names an element that is not there, which is the only fault that comes: it takes no memory.
#[tactic(auto, unfolding(crate::specs::Questions::same_question))]
pub fn is_same(table: &Table, a: &Mirror, b: &Mirror) -> Result<bool, QueryFault>
    ensures value { Gives result (same_question table.now a.now b.now) }
    ensures memory { result ≢ Err fault.Memory }
{
    if !are_there(table, a) {
        return Err(QueryFault::NoSuch);
    }
    if !are_there(table, b) {
        return Err(QueryFault::NoSuch);
    }
    Ok(type_layers::is_same(a, b))
}

/// The type of an element, as its `asType` gives it: of a type the one with its own type parameters as arguments, of an enum constant that of its enum, of a field or a parameter what is written, of a method or a constructor the types of its parts. `NoSuch` where nothing stands there.
#[tactic(auto, unfolding(crate::specs::Questions::type_question))]
pub fn type_of(alloc: Global, table: &Table, at: &ElementRef) -> Result<Mirror, QueryFault>
    ensures { Gives result (type_question table.now at.now) }
{
    if !is_there(table, at) {
        return Err(QueryFault::NoSuch);
    }
    let mirror = type_of_element(alloc, table, at)?;
    Ok(mirror)
}

/// The text of a type, with canonical names, as its `toString` gives it. `NoSuch` where it names an element that is not there.
#[tactic(auto, unfolding(crate::specs::Questions::print_question))]
pub fn print(alloc: Global, table: &Table, of: &Mirror) -> Result<Name, QueryFault>
    ensures { Gives result (print_question table.now of.now) }
{
    if !are_there(table, of) {
        return Err(QueryFault::NoSuch);
    }
    let text = text_of(alloc, table, of)?;
    Ok(text)
}

/// The box of a primitive type (JLS 5.1.7), as `boxedClass` gives it: of the sources or of the stubs, and the error type with its name where the table does not have it. `NoSuch` where the type names an element that is not there, and `WrongKind` for any other type than a primitive one.
#[tactic(auto, using(crate::proofs::BoxQuestions::boxes))]
pub fn boxed(alloc: Global, table: &Table, of: &Mirror) -> Result<Mirror, QueryFault>
    ensures { Gives result (boxed_question table.now of.now) }
{
    if !are_there(table, of) {
        return Err(QueryFault::NoSuch);
    }
    match primitive_of(of) {
        None => Err(QueryFault::WrongKind),
        Some(kind) => {
            let mirror = box_of(alloc, table, kind)?;
            Ok(mirror)
        }
    }
}

/// The primitive type of one of the eight boxes (JLS 5.1.8), as `unboxedType` gives it. Where the table does not have a box, the error type with its name is the box. `NoSuch` where the type names an element that is not there, and `WrongKind` for any other type than a box.
#[tactic(auto, using(crate::proofs::BoxQuestions::boxes))]
pub fn unboxed(alloc: Global, table: &Table, of: &Mirror) -> Result<Mirror, QueryFault>
    ensures { Gives result (unboxed_question table.now of.now) }
{
    if !are_there(table, of) {
        return Err(QueryFault::NoSuch);
    }
    match boxed_kind(alloc, table, of)? {
        None => Err(QueryFault::WrongKind),
        Some(kind) => Ok(Mirror::plain(alloc, BaseMirror::Primitive(kind))),
    }
}

/// The erasure of a type (JLS 4.6), as `erasure` of `javax.lang.model.util.Types` gives it. `NoSuch` where the type names an element that is not there, `WrongKind` for a package, and `TooDeep` where it is not found by 64 steps from a type variable to its first bound.
#[tactic(auto, using(crate::proofs::TypeQuestions::erasures))]
pub fn erasure(alloc: Global, table: &Table, of: &Mirror) -> Result<Mirror, QueryFault>
    ensures { Gives result (erasure_question table.now of.now) }
{
    let is_there = are_there(table, of);
    if !is_there {
        return Err(QueryFault::NoSuch);
    }
    if is_package(of) {
        return Err(QueryFault::WrongKind);
    }
    match erasure_within(alloc, table, MAX_TYPE_STEPS, of)? {
        None => Err(QueryFault::TooDeep),
        Some(erased) => Ok(erased),
    }
}

/// The direct supertypes of a type (JLS 4.10.1 to 4.10.3), the superclass first, as `directSupertypes` gives them. `NoSuch` where the type names an element that is not there, `WrongKind` for a package and for the types of a method or a constructor, and `TooDeep` where those of a raw type have no erasure within 64 steps.
#[tactic(auto, using(crate::proofs::TypeQuestions::supertypes))]
pub fn direct_supertypes(
    alloc: Global,
    table: &Table,
    of: &Mirror,
) -> Result<List<Mirror>, QueryFault>
    ensures { Gives result (direct_question table.now of.now) }
{
    if !are_there(table, of) {
        return Err(QueryFault::NoSuch);
    }
    if is_executable(of) {
        return Err(QueryFault::WrongKind);
    }
    if is_package(of) {
        return Err(QueryFault::WrongKind);
    }
    match direct(alloc, table, of)? {
        None => Err(QueryFault::TooDeep),
        Some(types) => Ok(types),
    }
}
