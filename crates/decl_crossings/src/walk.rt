// A walk over the fields of a declaration.
ghost use Rattle.std.specs.Prelude.{◌≤◌, ◌*◌, length};
ghost use Rattle.decl_crossings.specs.Crossings.{FieldCrosses};
ghost use Rattle.decl_crossings.specs.Steps.{CrossesAt, StepsTo, Tells};
ghost use Rattle.decl_crossings.specs.Moves.{MovesTo};

use crate::field_steps::field_step;
use crate::rest_steps::rest_step;
use crate::spots::{Kind, Move, Spot, Step, move_of};
use decl_grammar::{ReadFault, Symbol};
use decl_names::begin;
use decl_turns::Before;
use std::alloc::Global;

// One step from this spot on.
fn step_at<'a, 's>(
    alloc: Global,
    room: usize,
    left: usize,
    spot: Spot,
    symbols: &'s [Symbol<'a>],
) -> Result<Step<'a, 's>, ReadFault>
    requires { 3 * length symbols.now ≤ room }
    ensures { StepsTo left (CrossesAt spot left symbols.now) symbols.now result }
{
    match spot {
        Spot::Field => field_step(alloc, room, left, symbols),
        Spot::Row(before) => rest_step(alloc, room, left, before, symbols),
    }
}

// The same with the symbols that it leaves.
fn move_at<'a, 's>(
    alloc: Global,
    room: usize,
    left: usize,
    spot: Spot,
    symbols: &'s [Symbol<'a>],
) -> Result<Move<'a, 's>, ReadFault>
    requires { 3 * length symbols.now ≤ room }
    ensures { MovesTo left (CrossesAt spot left symbols.now) symbols.now result }
{
    let step = step_at(alloc, room, left, spot, symbols)?;
    Ok(move_of(step, symbols))
}

// Whether more fields than this many begin from this spot on.
fn crosses(
    alloc: Global,
    room: usize,
    many: usize,
    spot: Spot,
    symbols: &[Symbol<'_>],
) -> Result<bool, ReadFault>
    requires { 3 * length symbols.now ≤ room }
    ensures { Tells (CrossesAt spot many symbols.now) result }
{
    let mut left = many;
    let mut at = spot;
    let mut rest = begin(symbols)?;
    'walk: loop {
        let next = move_at(alloc, room, left, at, rest)?;
        match next.kind {
            Kind::Full => return Ok(true),
            Kind::Over => return Ok(false),
            Kind::On(more, spot) => {
                left = more;
                at = spot;
            }
            Kind::Type => {
                let row = Spot::Row(Before::Between);
                if crosses(alloc, room, left, row, next.within)? {
                    return Ok(true);
                }
                at = Spot::Row(Before::Colons);
            }
        }
        rest = next.rest;
    }
}

/// Whether behind a field, from what stands behind its name and its brackets on, more fields of its declaration than this many begin.
pub fn fields_cross(
    alloc: Global,
    room: usize,
    left: usize,
    symbols: &[Symbol<'_>],
) -> Result<bool, ReadFault>
    requires { 3 * length symbols.now ≤ room }
    ensures { Tells (FieldCrosses left symbols.now) result }
{
    crosses(alloc, room, left, Spot::Field, symbols)
}
