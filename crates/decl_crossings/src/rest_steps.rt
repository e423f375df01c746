// Steps within an initialiser.
ghost use Rattle.std.specs.Prelude.{◌≡◌, ◌≤◌, ◌*◌, length};
ghost use Rattle.decl_turns.specs.declared.states.Next.TheVariants as nexts;
ghost use Rattle.decl_turns.specs.States.{after_of};
ghost use Rattle.decl_crossings.specs.Crossings.{RestCrosses};
ghost use Rattle.decl_crossings.specs.Steps.{StepsTo, TypeStep, next_within};

use crate::field_steps::end_step;
use crate::parts::behind_part;
use crate::spots::{Spot, Step};
use decl_grammar::{ReadFault, Symbol};
use decl_limits::count_separators;
use decl_turns::{Before, Leave, Next, Piece, Place, Turn, next_of};
use std::alloc::Global;

// A step over a part.
fn part_step<'a, 's>(
    alloc: Global,
    room: usize,
    left: usize,
    before: Before,
    piece: Piece,
    turn: Turn,
    behind: Before,
    symbols: &'s [Symbol<'a>],
) -> Result<Step<'a, 's>, ReadFault>
    requires chosen { next_within before symbols.now ≡ nexts.Part piece turn behind }
    requires room { 3 * length symbols.now ≤ room }
    ensures { StepsTo left (RestCrosses left (after_of before) symbols.now) symbols.now result }
{
    match behind_part(alloc, room, piece, symbols)? {
        Some(rest) => Ok(Step::On(left, Spot::Row(behind), rest)),
        None => Ok(Step::Over),
    }
}

// A step over a type with its `::`, behind the `<` of which these symbols stand: what is behind it, and what is within it.
fn type_step<'a, 's>(left: usize, within: &'s [Symbol<'a>], rest: &'s [Symbol<'a>]) -> Step<'a, 's>
    requires { length rest.now ≤ length within.now }
    ensures { TypeStep left within.now rest.now result }
{
    let (of, _) = within.split_at(within.len() - rest.len());
    if count_separators(of) <= left {
        return Step::On(left, Spot::Row(Before::Colons), rest);
    }
    Step::Type(of, rest)
}

// A step over a `<` behind a name, which is the operator, or begins the arguments of a type up to its `::`.
fn two_step<'a, 's>(
    alloc: Global,
    room: usize,
    left: usize,
    before: Before,
    symbols: &'s [Symbol<'a>],
) -> Result<Step<'a, 's>, ReadFault>
    requires chosen { next_within before symbols.now ≡ nexts.Two }
    requires room { 3 * length symbols.now ≤ room }
    ensures { StepsTo left (RestCrosses left (after_of before) symbols.now) symbols.now result }
{
    let [_, within @ ..] = symbols else {
        return Ok(Step::Over);
    };
    match behind_part(alloc, room, Piece::Reference, symbols)? {
        Some(rest) => {
            if rest.is_empty() {
                return Ok(Step::On(left, Spot::Row(Before::Between), within));
            }
            Ok(type_step(left, within, rest))
        }
        None => Ok(Step::On(left, Spot::Row(Before::Between), within)),
    }
}

/// A step within an initialiser.
pub fn rest_step<'a, 's>(
    alloc: Global,
    room: usize,
    left: usize,
    before: Before,
    symbols: &'s [Symbol<'a>],
) -> Result<Step<'a, 's>, ReadFault>
    requires { 3 * length symbols.now ≤ room }
    ensures { StepsTo left (RestCrosses left (after_of before) symbols.now) symbols.now result }
{
    match next_of(Place::Assigned, Leave::Anywhere, before, symbols) {
        Next::Part(piece, turn, behind) => {
            part_step(alloc, room, left, before, piece, turn, behind, symbols)
        }
        Next::Two => two_step(alloc, room, left, before, symbols),
        Next::Nothing => Ok(Step::Over),
        Next::End => end_step(alloc, room, left, symbols),
    }
}
