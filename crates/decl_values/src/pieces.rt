// Reads the parts of expressions, and passes over those that are not looked into (JLS 15.13, 15.20.2).
ghost use Rattle.std.specs.Prelude.{◌≡◌, true};
ghost use Rattle.decl_grammar.specs.Reading.{Gives};
ghost use Rattle.decl_grammar.specs.Form.{is_value};
ghost use Rattle.decl_grammar.specs.Expressions.{test_form, test_name_form, reference_form};
ghost use Rattle.decl_grammar.specs.Rule.{reads};
ghost use Rattle.decl_turns.specs.States.{stands_of};
ghost use Rattle.decl_values.specs.Ends.{part_read, part_form_read};

use crate::annotations::annotations_of;
use crate::creations::creation_of;
use crate::type_arguments::type_arguments_of;
use crate::types::{dim_of, dims_of, parts_of};
use decl_grammar::sorts::{
    DOT, DOUBLE_COLON, INSTANCEOF, OPEN_BRACE, OPEN_BRACKET, OPEN_PARENTHESIS,
};
use decl_grammar::{ReadFault, Symbol};
use decl_names::{annotated_start_of, one, read_name, read_over, shut};
use decl_turns::{Piece, Place, begins_part, is_valued, pass_one};
use std::alloc::Global;

// `instanceof`, and annotations.
#[cycle(values)]
#[tactic(auto, unfolding(decl_grammar::specs::Expressions::test_form))]
fn test_of<'a, 's>(
    alloc: Global,
    room: usize,
    symbols: &'s [Symbol<'a>],
) -> Result<&'s [Symbol<'a>], ReadFault>
    ensures { Gives (λ x. (tt, x.now)) result (reads room test_form symbols.now) }
{
    let (_, rest) = one(symbols, INSTANCEOF)?;
    let (_, rest) = annotations_of(alloc, room, rest)?;
    Ok(rest)
}

// A dot, annotations, and a name of a type that is tested.
#[cycle(values)]
#[tactic(auto, unfolding(decl_grammar::specs::Expressions::test_name_form))]
fn test_name_of<'a, 's>(
    alloc: Global,
    room: usize,
    symbols: &'s [Symbol<'a>],
) -> Result<&'s [Symbol<'a>], ReadFault>
    ensures { Gives (λ x. (tt, x.now)) result (reads room test_name_form symbols.now) }
{
    let (_, rest) = one(symbols, DOT)?;
    let (_, rest) = annotations_of(alloc, room, rest)?;
    let (_, rest) = read_name(room, rest)?;
    Ok(rest)
}

// The rest of a type from its arguments up to its `::`.
#[cycle(values)]
#[tactic(auto, unfolding(decl_grammar::specs::Expressions::reference_form))]
fn reference_end_of<'a, 's>(
    alloc: Global,
    room: usize,
    symbols: &'s [Symbol<'a>],
) -> Result<&'s [Symbol<'a>], ReadFault>
    ensures { Gives (λ x. (tt, x.now)) result (reads room reference_form symbols.now) }
{
    let (_, rest) = type_arguments_of(alloc, room, symbols)?;
    let (_, rest) = parts_of(alloc, room, rest)?;
    let (_, rest) = dims_of(alloc, room, rest)?;
    let (_, rest) = one(rest, DOUBLE_COLON)?;
    Ok(rest)
}

// A part of an expression, where so much may be open in it.
#[cycle(values)]
fn part_in<'a, 's>(
    alloc: Global,
    room: usize,
    piece: Piece,
    symbols: &'s [Symbol<'a>],
) -> Result<&'s [Symbol<'a>], ReadFault>
    ensures { Gives (λ x. (tt, x.now)) result (part_form_read room piece symbols.now) }
{
    match piece {
        Piece::One => pass_one(symbols),
        Piece::Round => read_over(alloc, OPEN_PARENTHESIS, symbols),
        Piece::Brace => read_over(alloc, OPEN_BRACE, symbols),
        Piece::Square => read_over(alloc, OPEN_BRACKET, symbols),
        Piece::Arguments => {
            let (_, rest) = type_arguments_of(alloc, room, symbols)?;
            Ok(rest)
        }
        Piece::Annotated => annotated_start_of(alloc, room, symbols),
        Piece::Created => creation_of(alloc, room, symbols),
        Piece::Reference => reference_end_of(alloc, room, symbols),
        Piece::Tested => test_of(alloc, room, symbols),
        Piece::TestedName => test_name_of(alloc, room, symbols),
        Piece::TestedDim => {
            let (_, rest) = dim_of(alloc, room, symbols)?;
            Ok(rest)
        }
    }
}

// A part of a value, which is open there.
#[cycle(values)]
fn value_part_of<'a, 's>(
    alloc: Global,
    room: usize,
    place: Place,
    piece: Piece,
    symbols: &'s [Symbol<'a>],
) -> Result<&'s [Symbol<'a>], ReadFault>
    requires { is_value (stands_of place) ≡ true }
    ensures { Gives (λ x. (tt, x.now)) result (part_read room place piece symbols.now) }
{
    if room > 0 {
        return part_in(alloc, room - 1, piece, symbols);
    }
    Err(shut(begins_part(piece, symbols), symbols))
}

/// A part of an expression that stands here.
#[cycle(values)]
pub fn piece_of<'a, 's>(
    alloc: Global,
    room: usize,
    place: Place,
    piece: Piece,
    symbols: &'s [Symbol<'a>],
) -> Result<&'s [Symbol<'a>], ReadFault>
    ensures { Gives (λ x. (tt, x.now)) result (part_read room place piece symbols.now) }
{
    if is_valued(place) {
        return value_part_of(alloc, room, place, piece, symbols);
    }
    part_in(alloc, room, piece, symbols)
}
