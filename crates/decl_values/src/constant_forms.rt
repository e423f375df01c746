// Reads the constant forms of initialisers (JLS 8.3, 15.28): arrays of them, annotations, and those that are told by their tokens.
ghost use Rattle.std.specs.Prelude.{◌<◌, List, length, IfOk};
ghost use Rattle.decl_grammar.specs.Reading.{Gives};
ghost use Rattle.decl_grammar.specs.Form.{constant_value};
ghost use Rattle.decl_grammar.specs.Expressions.{constant_array, constant_form};
ghost use Rattle.decl_grammar.specs.Rule.{reads, read_nest};
ghost use Rattle.decl_values.specs.ConstantRows.{ConstantItem, items_from, constant_rest};

use crate::annotations::annotation_of;
use crate::around::closed;
use crate::values::listed_step_of;
use apt_base::List;
use decl_constants::plain_value_of;
use decl_grammar::sorts::{CLOSE_BRACE, COMMA, OPEN_BRACE};
use decl_grammar::{ReadFault, Symbol};
use decl_names::{begin, is_next, one, shut, starts_annotation, starts_constant};
use decl_tree::ValueText;
use std::alloc::Global;

// A constant form of an array, and whether another one comes behind it.
#[cycle(constants)]
fn constant_item_of<'a, 's>(
    alloc: Global,
    room: usize,
    symbols: &'s [Symbol<'a>],
) -> Result<(ValueText, (bool, &'s [Symbol<'a>])), ReadFault>
    ensures item { ConstantItem room symbols.now result }
    ensures smaller { IfOk result (λ x. length x.1.1.now < length symbols.now) }
{
    let (value, rest) = constant_of(alloc, room, symbols)?;
    let (more, rest) = listed_step_of(rest)?;
    Ok((value, (more, rest)))
}

// The constant forms of an array, of which there is one, up to its `}`.
#[cycle(constants)]
fn constant_items_of<'a, 's>(
    alloc: Global,
    room: usize,
    symbols: &'s [Symbol<'a>],
) -> Result<(Vec<ValueText>, &'s [Symbol<'a>]), ReadFault>
    ensures { Gives (λ x. (x.0.items, x.1.now)) result (items_from room symbols.now) }
{
    let mut all = Vec::new(alloc);
    let mut rest = begin(symbols)?;
    'row: loop {
        let (value, (more, after)) = constant_item_of(alloc, room, rest)?;
        all.push(value)?;
        if !more {
            return Ok((all, after));
        }
        rest = after;
    }
}

// What stands behind the `{` of an array of constant forms, up to its `}`.
#[cycle(constants)]
#[tactic(auto, unfolding(crate::specs::ConstantRows::constant_rest, decl_grammar::specs::Expressions::listed_end))]
fn constant_rest_of<'a, 's>(
    alloc: Global,
    room: usize,
    symbols: &'s [Symbol<'a>],
) -> Result<(Vec<ValueText>, &'s [Symbol<'a>]), ReadFault>
    ensures { Gives (λ x. (x.0.items, x.1.now)) result (reads room constant_rest symbols.now) }
{
    if is_next(symbols, CLOSE_BRACE) {
        return closed(Vec::new(alloc), symbols, CLOSE_BRACE);
    }
    if is_next(symbols, COMMA) {
        let (_, rest) = one(symbols, COMMA)?;
        return closed(Vec::new(alloc), rest, CLOSE_BRACE);
    }
    constant_items_of(alloc, room, symbols)
}

// An array of constant forms.
#[cycle(constants)]
#[tactic(auto, unfolding(decl_grammar::specs::Expressions::constant_array, crate::specs::ConstantRows::constant_rest))]
fn constant_array_of<'a, 's>(
    alloc: Global,
    room: usize,
    symbols: &'s [Symbol<'a>],
) -> Result<(ValueText, &'s [Symbol<'a>]), ReadFault>
    ensures { Gives (λ x. (x.0, x.1.now)) result (reads room constant_array symbols.now) }
{
    let (_, rest) = one(symbols, OPEN_BRACE)?;
    let (values, rest) = constant_rest_of(alloc, room, rest)?;
    Ok((ValueText::Array(List::from_vec(values)), rest))
}

// A constant form, where so much may be open in it.
#[cycle(constants)]
#[tactic(auto, using(crate::proofs::PartFirsts::constant_array_first, decl_grammar::proofs::Firsts::annotation_first), unfolding(decl_grammar::specs::Expressions::constant_form, decl_constants::specs::ConstantParts::plain_value_form))]
fn constant_form_of<'a, 's>(
    alloc: Global,
    room: usize,
    symbols: &'s [Symbol<'a>],
) -> Result<(ValueText, &'s [Symbol<'a>]), ReadFault>
    ensures { Gives (λ x. (x.0, x.1.now)) result (reads room constant_form symbols.now) }
{
    if is_next(symbols, OPEN_BRACE) {
        return constant_array_of(alloc, room, symbols);
    }
    if starts_annotation(symbols) {
        let (annotation, rest) = annotation_of(alloc, room, symbols)?;
        return Ok((ValueText::Nested(annotation), rest));
    }
    plain_value_of(alloc, room, symbols)
}

/// A constant form (JLS 15.28, as far as it is kept).
#[cycle(constants)]
pub fn constant_of<'a, 's>(
    alloc: Global,
    room: usize,
    symbols: &'s [Symbol<'a>],
) -> Result<(ValueText, &'s [Symbol<'a>]), ReadFault>
    ensures { Gives (λ x. (x.0, x.1.now)) result (read_nest room constant_value symbols.now) }
{
    if room > 0 {
        return constant_form_of(alloc, room - 1, symbols);
    }
    Err(shut(starts_constant(symbols), symbols))
}
