// What stands behind the result of a method (JLS 8.4.5), and the children of methods and constructors.
ghost use Rattle.std.specs.Prelude.{◌≡◌, ◌≤◌, ◌*◌, ◌&&◌, true, false, [], ◌∷◌, length, drop, IfOk};
ghost use Rattle.decl_grammar.specs.Reading.{starts};
ghost use Rattle.decl_children.specs.Fronts.{Tells};
ghost use Rattle.decl_children.specs.Walks.{TypeParamsCrowd};
ghost use Rattle.decl_children.specs.Results.{names_constructor, TypeRead, ResultRead, FindsAt, NamedCrowds, ExecutableCrowds};

use crate::items::type_params_full;
use crate::params::params_full;
use crate::steps::{behind, read_or_none};
use apt_base::NoMemory;
use decl_grammar::Symbol;
use decl_grammar::sorts::{LESS_THAN, OPEN_PARENTHESIS, VOID};
use decl_types::optional_params_of;
use decl_values::{annotations_of, base_type_of, dims_of, is_next, starts_name};
use std::alloc::Global;

// Whether the name of a constructor stands here.
fn is_constructor(symbols: &[Symbol<'_>]) -> bool
    ensures { result ≡ names_constructor symbols.now }
{
    starts_name(symbols) && is_next(behind(symbols), OPEN_PARENTHESIS)
}

// What is behind a type.
fn behind_type<'a, 's>(
    alloc: Global,
    room: usize,
    symbols: &'s [Symbol<'a>],
) -> Result<Option<&'s [Symbol<'a>]>, NoMemory>
    ensures { IfOk result (FindsAt (TypeRead room symbols.now)) }
{
    let Some((_, rest)) = read_or_none(base_type_of(alloc, room, symbols))? else {
        return Ok(None);
    };
    let Some((_, rest)) = read_or_none(dims_of(alloc, room, rest))? else {
        return Ok(None);
    };
    Ok(Some(rest))
}

/// What is behind `void` or a type, where a member's name stands there; at the name of a constructor itself.
pub fn behind_result<'a, 's>(
    alloc: Global,
    room: usize,
    symbols: &'s [Symbol<'a>],
) -> Result<Option<&'s [Symbol<'a>]>, NoMemory>
    ensures { IfOk result (FindsAt (ResultRead room symbols.now)) }
{
    if is_next(symbols, VOID) {
        return Ok(Some(behind(symbols)));
    }
    if is_constructor(symbols) {
        return Ok(Some(symbols));
    }
    behind_type(alloc, room, symbols)
}

// Whether a method or a constructor with this many type parameters has too many children, from its result or its name on.
fn named_full(
    alloc: Global,
    room: usize,
    before: usize,
    symbols: &[Symbol<'_>],
) -> Result<bool, NoMemory>
    requires room { 3 * length symbols.now ≤ room }
    ensures { Tells (NamedCrowds before symbols.now) result }
{
    let Some(at) = behind_result(alloc, room, symbols)? else {
        return Ok(false);
    };
    if !is_constructor(at) {
        return Ok(false);
    }
    params_full(alloc, room, before, behind(at))
}

/// Whether type parameters stand here that are too many.
pub fn params_crowd(alloc: Global, room: usize, symbols: &[Symbol<'_>]) -> Result<bool, NoMemory>
    requires room { 3 * length symbols.now ≤ room }
    ensures { Tells (TypeParamsCrowd symbols.now) result }
{
    if !is_next(symbols, LESS_THAN) {
        return Ok(false);
    }
    type_params_full(alloc, room, symbols)
}

/// Whether a method or a constructor has too many children, from behind its modifiers on.
pub fn executable_full(alloc: Global, room: usize, symbols: &[Symbol<'_>]) -> Result<bool, NoMemory>
    requires room { 3 * length symbols.now ≤ room }
    ensures { Tells (ExecutableCrowds symbols.now) result }
{
    if params_crowd(alloc, room, symbols)? {
        return Ok(true);
    }
    let Some(found) = read_or_none(optional_params_of(alloc, room, symbols))? else {
        return Ok(false);
    };
    let (parameters, rest) = found;
    let Some((_, rest)) = read_or_none(annotations_of(alloc, room, rest))? else {
        return Ok(false);
    };
    named_full(alloc, room, parameters.len(), rest)
}
