// The lists of a type that are walked over before its members: type parameters and constants; and fields.
ghost use Rattle.std.specs.Prelude.{◌≤◌, ◌*◌, length};
ghost use Rattle.decl_children.specs.Fronts.{Tells};
ghost use Rattle.decl_children.specs.TypeWalks.{ParamsOver, ConstantsOver};
ghost use Rattle.decl_children.specs.WalkSteps.{FieldsOver};

use crate::headings::{enum_heading_of, generic_name_of};
use crate::items::constants_full;
use crate::members::field_front_of;
use crate::results::params_crowd;
use crate::steps::read_or_none;
use apt_base::{MAX_CHILDREN, NoMemory};
use decl_crossings::fields_cross;
use decl_grammar::Symbol;
use decl_grammar::sorts::OPEN_BRACE;
use decl_values::is_next;
use std::alloc::Global;

/// Whether a class or an interface has too many type parameters.
pub fn named_params_full(
    alloc: Global,
    room: usize,
    symbols: &[Symbol<'_>],
) -> Result<bool, NoMemory>
    requires room { 3 * length symbols.now ≤ room }
    ensures { Tells (ParamsOver symbols.now) result }
{
    let Some(rest) = read_or_none(generic_name_of(room, symbols))? else {
        return Ok(false);
    };
    params_crowd(alloc, room, rest)
}

/// Whether an enum has too many constants.
pub fn enum_constants_full(
    alloc: Global,
    room: usize,
    symbols: &[Symbol<'_>],
) -> Result<bool, NoMemory>
    requires room { 3 * length symbols.now ≤ room }
    ensures { Tells (ConstantsOver symbols.now) result }
{
    let Some(rest) = read_or_none(enum_heading_of(alloc, room, symbols))? else {
        return Ok(false);
    };
    if !is_next(rest, OPEN_BRACE) {
        return Ok(false);
    }
    constants_full(alloc, room, rest)
}

/// Whether the fields of one declaration are too many for a type with this many children.
pub fn fields_full(
    alloc: Global,
    room: usize,
    count: usize,
    symbols: &[Symbol<'_>],
) -> Result<bool, NoMemory>
    requires room { 3 * length symbols.now ≤ room }
    ensures { Tells (FieldsOver room count symbols.now) result }
{
    if count >= MAX_CHILDREN {
        return Ok(false);
    }
    let Some(rest) = read_or_none(field_front_of(alloc, room, symbols))? else {
        return Ok(false);
    };
    match fields_cross(alloc, room, MAX_CHILDREN - 1 - count, rest) {
        Ok(full) => Ok(full),
        Err(_) => Err(NoMemory),
    }
}
