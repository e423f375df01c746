// Passes over the parts of an initialiser.
ghost use Rattle.std.specs.Prelude.{◌<◌, length};
ghost use Rattle.decl_turns.specs.declared.states.Place.TheVariants as places;
ghost use Rattle.decl_values.specs.Ends.{part_read};
ghost use Rattle.decl_crossings.specs.Steps.{Passes, WhereSome};

use decl_grammar::{ReadFault, Symbol};
use decl_turns::{Piece, Place};
use decl_values::piece_of;
use std::alloc::Global;

/// What stands behind a part of an initialiser, where the part is whole.
pub fn behind_part<'a, 's>(
    alloc: Global,
    room: usize,
    piece: Piece,
    symbols: &'s [Symbol<'a>],
) -> Result<Option<&'s [Symbol<'a>]>, ReadFault>
    ensures passes { Passes (part_read room places.Assigned piece symbols.now) result }
    ensures smaller { WhereSome result (λ rest. length rest.now < length symbols.now) }
{
    match piece_of(alloc, room, Place::Assigned, piece, symbols) {
        Ok(rest) => Ok(Some(rest)),
        Err(ReadFault::Memory) => Err(ReadFault::Memory),
        Err(ReadFault::Bad(_)) => Ok(None),
        Err(ReadFault::Deep(_)) => Ok(None),
    }
}
