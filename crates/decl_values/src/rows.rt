// Reads expressions part by part (JLS 15), up to what stands behind them. Behind a name a `<` may begin the rest of a type up to its `::`: that is
// tried, and where it fails the `<` is the operator. Of the faults behind it the one that is furthest on counts.
ghost use Rattle.std.specs.Prelude.{◌≡◌, ◌<◌, Option, None, length, IfOk, IfSome};
ghost use Rattle.decl_grammar.specs.Reading.{Fails};
ghost use Rattle.decl_turns.specs.Turns.{next_at, first_at};
ghost use Rattle.decl_turns.specs.States.{rest_read, expression_read, IsFree};
ghost use Rattle.decl_values.specs.Ends.{less_of, fallen_of, furthest_of, part_read, Goes, GoesOrEnds, EndsRow};
ghost use Rattle.decl_grammar.specs.declared.fault.ReadFault.TheVariants as faults;
ghost use Rattle.decl_turns.specs.declared.states.Next.TheVariants as nexts;
ghost use Rattle.decl_turns.specs.declared.states.Piece.TheVariants as pieces;

use crate::pieces::piece_of;
use crate::reached::{End, Row};
use decl_grammar::{ReadFault, Symbol};
use decl_turns::{
    Before, Leave, Next, Piece, Place, Turn, first_leave, first_next, leave_behind, next_of,
};
use std::alloc::Global;

/// How many symbols are left at the further one of two places, of which the first may not be there.
pub fn less(far: Option<usize>, left: usize) -> usize
    ensures { result ≡ less_of far left }
{
    match far {
        Some(at) => {
            if at <= left {
                return at;
            }
            left
        }
        None => left,
    }
}

/// The same of two places that may not be there.
pub fn furthest(far: Option<usize>, other: Option<usize>) -> Option<usize>
    ensures { result ≡ furthest_of far other }
{
    match other {
        Some(left) => Some(less(far, left)),
        None => far,
    }
}

/// A fault behind a place where a reading as a type failed.
pub fn fallen(far: Option<usize>, fault: ReadFault) -> ReadFault
    ensures { result ≡ fallen_of far fault }
{
    match fault {
        ReadFault::Bad(left) => ReadFault::Bad(less(far, left)),
        ReadFault::Deep(left) => ReadFault::Deep(left),
        ReadFault::Memory => ReadFault::Memory,
    }
}

// A part, and what is then the place in the expression.
#[cycle(values)]
fn step_of<'a, 's>(
    alloc: Global,
    room: usize,
    place: Place,
    row: &Row<'a, 's>,
    piece: Piece,
    turn: Turn,
    before: Before,
) -> Result<Row<'a, 's>, ReadFault>
    requires { next_at place row.now.leave row.now.before row.now.rest.now ≡ nexts.Part piece turn before }
    ensures goes { Goes room place row.now result }
    ensures smaller { IfOk result (λ r. length r.rest.now < length row.now.rest.now) }
{
    let leave = leave_behind(turn, row.leave)?;
    match piece_of(alloc, room, place, piece, row.rest) {
        Ok(rest) => Ok(Row {
            leave,
            before,
            rest,
            far: row.far,
        }),
        Err(fault) => Err(fallen(row.far, fault)),
    }
}

// The operator `<`, where the reading as a type failed this far on.
#[cycle(values)]
fn compared_of<'a, 's>(
    alloc: Global,
    room: usize,
    place: Place,
    row: &Row<'a, 's>,
    left: usize,
) -> Result<Row<'a, 's>, ReadFault>
    requires two { next_at place row.now.leave row.now.before row.now.rest.now ≡ nexts.Two }
    requires failed { Fails (faults.Bad left) (part_read room place pieces.Reference row.now.rest.now) }
    ensures goes { Goes room place row.now result }
    ensures smaller { IfOk result (λ r. length r.rest.now < length row.now.rest.now) }
{
    let far = Some(less(row.far, left));
    match piece_of(alloc, room, place, Piece::One, row.rest) {
        Ok(rest) => Ok(Row {
            leave: row.leave,
            before: Before::Between,
            rest,
            far,
        }),
        Err(fault) => Err(fallen(far, fault)),
    }
}

// The rest of a type up to its `::`, or the operator `<` where that fails.
#[cycle(values)]
fn two_of<'a, 's>(
    alloc: Global,
    room: usize,
    place: Place,
    row: &Row<'a, 's>,
) -> Result<Row<'a, 's>, ReadFault>
    requires { next_at place row.now.leave row.now.before row.now.rest.now ≡ nexts.Two }
    ensures goes { Goes room place row.now result }
    ensures smaller { IfOk result (λ r. length r.rest.now < length row.now.rest.now) }
{
    match piece_of(alloc, room, place, Piece::Reference, row.rest) {
        Ok(rest) => Ok(Row {
            leave: row.leave,
            before: Before::Colons,
            rest,
            far: row.far,
        }),
        Err(ReadFault::Bad(left)) => compared_of(alloc, room, place, row, left),
        Err(ReadFault::Deep(left)) => Err(ReadFault::Deep(left)),
        Err(ReadFault::Memory) => Err(ReadFault::Memory),
    }
}

// Whether the expression goes on here; the next place in it, where it does.
#[cycle(values)]
fn turn_of<'a, 's>(
    alloc: Global,
    room: usize,
    place: Place,
    row: &Row<'a, 's>,
) -> Result<Option<Row<'a, 's>>, ReadFault>
    ensures goes { GoesOrEnds room place row.now result }
    ensures smaller { IfOk result (λ o. IfSome o (λ r. length r.rest.now < length row.now.rest.now)) }
{
    match next_of(place, row.leave, row.before, row.rest) {
        Next::Part(piece, turn, before) => {
            match step_of(alloc, room, place, row, piece, turn, before) {
                Ok(next) => Ok(Some(next)),
                Err(fault) => Err(fault),
            }
        }
        Next::Two => match two_of(alloc, room, place, row) {
            Ok(next) => Ok(Some(next)),
            Err(fault) => Err(fault),
        },
        Next::Nothing => Err(fallen(row.far, ReadFault::Bad(row.rest.len()))),
        Next::End => Ok(None),
    }
}

// The place at the beginning of some symbols, where no reading failed yet.
fn row_at<'a, 's>(leave: Leave, before: Before, symbols: &'s [Symbol<'a>]) -> Row<'a, 's>
    ensures leave { result.leave ≡ leave }
    ensures before { result.before ≡ before }
    ensures rest { result.rest.now ≡ symbols.now }
    ensures far { result.far ≡ None }
{
    Row {
        leave,
        before,
        rest: symbols,
        far: None,
    }
}

/// The rest of an expression from this place in it on, up to what stands behind it.
#[cycle(values)]
pub fn row_of<'a, 's>(
    alloc: Global,
    room: usize,
    place: Place,
    leave: Leave,
    before: Before,
    symbols: &'s [Symbol<'a>],
) -> Result<End<'a, 's>, ReadFault>
    requires { IsFree place leave }
    ensures { EndsRow room place (rest_read room place leave before symbols.now) symbols.now result }
{
    let mut row = row_at(leave, before, symbols);
    'row: loop {
        match turn_of(alloc, room, place, &row)? {
            Some(next) => row = next,
            None => {
                return Ok(End {
                    rest: row.rest,
                    far: row.far,
                });
            }
        }
    }
}

// An expression that begins with this part.
#[cycle(values)]
fn begun_of<'a, 's>(
    alloc: Global,
    room: usize,
    place: Place,
    piece: Piece,
    turn: Turn,
    before: Before,
    symbols: &'s [Symbol<'a>],
) -> Result<End<'a, 's>, ReadFault>
    requires { first_at place symbols.now ≡ nexts.Part piece turn before }
    ensures { EndsRow room place (expression_read room place symbols.now) symbols.now result }
{
    let rest = piece_of(alloc, room, place, piece, symbols)?;
    let leave = leave_behind(turn, first_leave(place))?;
    row_of(alloc, room, place, leave, before, rest)
}

/// An expression, up to what stands behind it.
#[cycle(values)]
pub fn ended_of<'a, 's>(
    alloc: Global,
    room: usize,
    place: Place,
    symbols: &'s [Symbol<'a>],
) -> Result<End<'a, 's>, ReadFault>
    ensures { EndsRow room place (expression_read room place symbols.now) symbols.now result }
{
    match first_next(place, symbols) {
        Next::Part(piece, turn, before) => {
            begun_of(alloc, room, place, piece, turn, before, symbols)
        }
        Next::Two => Err(ReadFault::Bad(symbols.len())),
        Next::Nothing => Err(ReadFault::Bad(symbols.len())),
        Next::End => Err(ReadFault::Bad(symbols.len())),
    }
}
