// Parameters of a method or a constructor (JLS 8.4.1), walked over one by one.
ghost use Rattle.std.specs.Prelude.{◌≡◌, ◌≤◌, ◌<◌, ◌*◌, true, [], ◌∷◌, length, IfOk};
ghost use Rattle.decl_grammar.specs.Reading.{Gives, starts};
ghost use Rattle.decl_grammar.specs.Rule.{reads};
ghost use Rattle.decl_children.specs.Fronts.{Tells};
ghost use Rattle.decl_children.specs.ParamReads.{step_form, EndRead, BasedRead, ParamRead, FirstBehind, FirstRead, FindsEnd, arguments_of, takes_any, TailCrowds, ParamsCrowd};

use crate::steps::{all, behind, read_or_none};
use apt_base::{MAX_CHILDREN, NoMemory};
use decl_grammar::sorts::{COMMA, FINAL, OPEN_PARENTHESIS};
use decl_grammar::{ParamEnd, ReadFault, Symbol};
use decl_types::{first_step_of, param_modifiers_of, param_step_of, starts_params};
use decl_values::{annotations_of, base_type_of, is_next};
use std::alloc::Global;

// A step behind the base of the type of a parameter.
fn step_of<'a, 's>(
    alloc: Global,
    room: usize,
    first: bool,
    symbols: &'s [Symbol<'a>],
) -> Result<(Option<ParamEnd>, &'s [Symbol<'a>]), ReadFault>
    ensures { Gives (λ x. (x.0, x.1.now)) result (reads room (step_form first) symbols.now) }
{
    if first {
        return first_step_of(alloc, room, symbols);
    }
    param_step_of(alloc, room, symbols)
}

// The end of a parameter from behind its base on.
fn end_of<'a, 's>(
    alloc: Global,
    room: usize,
    first: bool,
    symbols: &'s [Symbol<'a>],
) -> Result<Option<(ParamEnd, &'s [Symbol<'a>])>, NoMemory>
    ensures { IfOk result (FindsEnd (EndRead room first symbols.now)) }
{
    let mut rest = all(symbols);
    'row: loop {
        let Some(found) = read_or_none(step_of(alloc, room, first, rest))? else {
            return Ok(None);
        };
        let (end, after) = found;
        if let Some(end) = end {
            return Ok(Some((end, after)));
        }
        rest = all(after);
    }
}

// The same from its base on.
fn based_of<'a, 's>(
    alloc: Global,
    room: usize,
    first: bool,
    symbols: &'s [Symbol<'a>],
) -> Result<Option<(ParamEnd, &'s [Symbol<'a>])>, NoMemory>
    ensures { IfOk result (FindsEnd (BasedRead room first symbols.now)) }
{
    let Some((_, rest)) = read_or_none(base_type_of(alloc, room, symbols))? else {
        return Ok(None);
    };
    end_of(alloc, room, first, rest)
}

// The end of a parameter from its modifiers on.
fn param_of<'a, 's>(
    alloc: Global,
    room: usize,
    symbols: &'s [Symbol<'a>],
) -> Result<Option<(ParamEnd, &'s [Symbol<'a>])>, NoMemory>
    ensures { IfOk result (FindsEnd (ParamRead room symbols.now)) }
{
    let Some((_, rest)) = read_or_none(param_modifiers_of(alloc, room, symbols))? else {
        return Ok(None);
    };
    based_of(alloc, room, false, rest)
}

// The end of a first parameter from behind its annotations on.
fn first_behind_of<'a, 's>(
    alloc: Global,
    room: usize,
    symbols: &'s [Symbol<'a>],
) -> Result<Option<(ParamEnd, &'s [Symbol<'a>])>, NoMemory>
    ensures { IfOk result (FindsEnd (FirstBehind room symbols.now)) }
{
    if is_next(symbols, FINAL) {
        return param_of(alloc, room, behind(symbols));
    }
    based_of(alloc, room, true, symbols)
}

// The end of a first parameter, or of the receiver.
fn first_of<'a, 's>(
    alloc: Global,
    room: usize,
    symbols: &'s [Symbol<'a>],
) -> Result<Option<(ParamEnd, &'s [Symbol<'a>])>, NoMemory>
    ensures { IfOk result (FindsEnd (FirstRead room symbols.now)) }
{
    let Some((_, rest)) = read_or_none(annotations_of(alloc, room, symbols))? else {
        return Ok(None);
    };
    first_behind_of(alloc, room, rest)
}

// How many arguments a parameter that ends so is.
fn argument_count(end: &ParamEnd) -> usize
    ensures { result ≡ arguments_of end.now }
{
    match end {
        ParamEnd::Named(_, _) => 1,
        ParamEnd::AnyNumber(_) => 1,
        ParamEnd::Receiver => 0,
    }
}

// Whether it takes any number of them.
fn is_open(end: &ParamEnd) -> bool
    ensures { result ≡ takes_any end.now }
{
    match end {
        ParamEnd::Named(_, _) => false,
        ParamEnd::AnyNumber(_) => true,
        ParamEnd::Receiver => false,
    }
}

// Whether the parameters behind a comma are too many, where this many of the child list stand before.
fn more_full(
    alloc: Global,
    room: usize,
    before: usize,
    symbols: &[Symbol<'_>],
) -> Result<bool, NoMemory>
    requires room { 3 * length symbols.now ≤ room }
    ensures { Tells (TailCrowds before symbols.now) result }
{
    let mut count = before;
    let mut rest = all(symbols);
    'row: while is_next(rest, COMMA) {
        let next = behind(rest);
        if count >= MAX_CHILDREN {
            return Ok(starts_params(next));
        }
        let Some(found) = param_of(alloc, room, next)? else {
            return Ok(false);
        };
        let (end, after) = found;
        if is_open(&end) {
            return Ok(false);
        }
        count += argument_count(&end);
        rest = all(after);
    }
    Ok(false)
}

/// Whether the parameters of a method or a constructor with this many type parameters, from their `(` on, are too many.
pub fn params_full(
    alloc: Global,
    room: usize,
    before: usize,
    symbols: &[Symbol<'_>],
) -> Result<bool, NoMemory>
    requires room { 3 * length symbols.now ≤ room }
    requires opened { starts (OPEN_PARENTHESIS ∷ []) symbols.now ≡ true }
    ensures { Tells (ParamsCrowd before symbols.now) result }
{
    let inside = behind(symbols);
    if before >= MAX_CHILDREN {
        return Ok(starts_params(inside));
    }
    let Some(found) = first_of(alloc, room, inside)? else {
        return Ok(false);
    };
    let (end, after) = found;
    if is_open(&end) {
        return Ok(false);
    }
    more_full(alloc, room, before + argument_count(&end), after)
}
