// Passes over annotations, up to the first symbol of the type behind them (JLS 15.13).
ghost use Rattle.std.specs.Prelude.{◌++◌};
ghost use Rattle.decl_grammar.specs.Reading.{Gives, one_at};
ghost use Rattle.decl_grammar.specs.Form.{ats, names, primitive_sorts, many};
ghost use Rattle.decl_grammar.specs.Rows.{read_as};
ghost use Rattle.decl_grammar.specs.Types.{silently};
ghost use Rattle.decl_grammar.specs.Expressions.{annotation_over, annotated_form};
ghost use Rattle.decl_grammar.specs.Rule.{reads};

use crate::names::read_chain;
use crate::skipping::read_over;
use crate::sorts::{is_at, starts_annotation, starts_type};
use crate::steps::{begin, is_next};
use decl_grammar::sorts::OPEN_PARENTHESIS;
use decl_grammar::{ReadFault, Symbol};
use std::alloc::Global;

// What follows the `@` of an annotation.
#[tactic(auto, unfolding(decl_grammar::specs::Reading::one_at))]
fn read_at<'a, 's>(
    symbols: &'s [Symbol<'a>],
) -> Result<(&'s Symbol<'a>, &'s [Symbol<'a>]), ReadFault>
    ensures { Gives (λ x. (x.0.now, x.1.now)) result (one_at ats symbols.now) }
{
    match symbols {
        [] => Err(ReadFault::Bad(0)),
        [symbol, rest @ ..] => {
            if is_at(symbol.sort) {
                return Ok((symbol, rest));
            }
            Err(ReadFault::Bad(symbols.len()))
        }
    }
}

// An annotation, of which what stands in its brackets is passed over.
#[tactic(auto, unfolding(decl_grammar::specs::Expressions::annotation_over))]
fn annotation_over_of<'a, 's>(
    alloc: Global,
    room: usize,
    symbols: &'s [Symbol<'a>],
) -> Result<&'s [Symbol<'a>], ReadFault>
    ensures { Gives (λ x. (tt, x.now)) result (reads room annotation_over symbols.now) }
{
    let (_, rest) = read_at(symbols)?;
    let (_, rest) = read_chain(alloc, room, rest)?;
    if is_next(rest, OPEN_PARENTHESIS) {
        return read_over(alloc, OPEN_PARENTHESIS, rest);
    }
    Ok(rest)
}

// What is behind further annotations.
fn more_annotations_over_of<'a, 's>(
    alloc: Global,
    room: usize,
    symbols: &'s [Symbol<'a>],
) -> Result<&'s [Symbol<'a>], ReadFault>
    ensures { Gives (λ x. (tt, x.now)) result (read_as silently room (many annotation_over) symbols.now) }
{
    let mut rest = begin(symbols)?;
    'row: while starts_annotation(rest) {
        rest = annotation_over_of(alloc, room, rest)?;
    }
    Ok(rest)
}

// The first symbol of a type.
#[tactic(auto, unfolding(decl_grammar::specs::Reading::one_at))]
fn read_type_start<'a, 's>(
    symbols: &'s [Symbol<'a>],
) -> Result<(&'s Symbol<'a>, &'s [Symbol<'a>]), ReadFault>
    ensures { Gives (λ x. (x.0.now, x.1.now)) result (one_at (names ++ primitive_sorts) symbols.now) }
{
    match symbols {
        [] => Err(ReadFault::Bad(0)),
        [symbol, rest @ ..] => {
            if starts_type(symbols) {
                return Ok((symbol, rest));
            }
            Err(ReadFault::Bad(symbols.len()))
        }
    }
}

/// Annotations, and the first symbol of the type behind them.
#[tactic(auto, unfolding(decl_grammar::specs::Expressions::annotated_form))]
pub fn annotated_start_of<'a, 's>(
    alloc: Global,
    room: usize,
    symbols: &'s [Symbol<'a>],
) -> Result<&'s [Symbol<'a>], ReadFault>
    ensures { Gives (λ x. (tt, x.now)) result (reads room annotated_form symbols.now) }
{
    let rest = annotation_over_of(alloc, room, symbols)?;
    let rest = more_annotations_over_of(alloc, room, rest)?;
    let (_, rest) = read_type_start(rest)?;
    Ok(rest)
}
