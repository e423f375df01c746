// Steps from one field to the next.
ghost use Rattle.std.specs.Prelude.{◌≡◌, ◌≤◌, ◌*◌, length};
ghost use Rattle.decl_grammar.specs.Reading.{starts};
ghost use Rattle.decl_crossings.specs.Crossings.{EndCrosses, FieldCrosses};
ghost use Rattle.decl_crossings.specs.Steps.{StepsTo, value_ends};

use crate::brackets::behind_dims;
use crate::spots::{Spot, Step};
use decl_grammar::sorts::{COMMA, EQUALS, SEMICOLON};
use decl_grammar::{ReadFault, Symbol};
use decl_names::{is_name_sort, is_next};
use decl_turns::Before;
use std::alloc::Global;

/// A step where an initialiser ends, or where none stands: to what stands behind the name and the brackets of the next field.
pub fn end_step<'a, 's>(
    alloc: Global,
    room: usize,
    left: usize,
    symbols: &'s [Symbol<'a>],
) -> Result<Step<'a, 's>, ReadFault>
    requires { 3 * length symbols.now ≤ room }
    ensures { StepsTo left (EndCrosses left symbols.now) symbols.now result }
{
    let [comma, name, rest @ ..] = symbols else {
        return Ok(Step::Over);
    };
    if comma.sort != COMMA {
        return Ok(Step::Over);
    }
    if !is_name_sort(name.sort) {
        return Ok(Step::Over);
    }
    if left == 0 {
        return Ok(Step::Full);
    }
    match behind_dims(alloc, room, rest)? {
        Some(behind) => Ok(Step::On(left - 1, Spot::Field, behind)),
        None => Ok(Step::Over),
    }
}

// Whether what ends an initialiser stands here.
fn ends_value(symbols: &[Symbol<'_>]) -> bool
    ensures { result ≡ starts value_ends symbols.now }
{
    match symbols {
        [] => false,
        [symbol, ..] => symbol.sort == SEMICOLON || symbol.sort == COMMA,
    }
}

/// A step behind the name and the brackets of a field: into its initialiser, where it has one.
pub fn field_step<'a, 's>(
    alloc: Global,
    room: usize,
    left: usize,
    symbols: &'s [Symbol<'a>],
) -> Result<Step<'a, 's>, ReadFault>
    requires { 3 * length symbols.now ≤ room }
    ensures { StepsTo left (FieldCrosses left symbols.now) symbols.now result }
{
    if !is_next(symbols, EQUALS) {
        return end_step(alloc, room, left, symbols);
    }
    let rest = &symbols[1..];
    if ends_value(rest) {
        return Ok(Step::Over);
    }
    Ok(Step::On(left, Spot::Row(Before::Between), rest))
}
