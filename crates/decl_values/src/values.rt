// Reads single values and arrays of them (JLS 9.7.1): each value together with what stands behind it, up to the bracket that ends them all.
ghost use Rattle.std.specs.Prelude.{◌≡◌, ◌<◌, ◌≤◌, true, List, length, IfOk};
ghost use Rattle.std.specs.List.{list_any};
ghost use Rattle.decl_grammar.specs.Reading.{Gives, UnlessMemory};
ghost use Rattle.decl_grammar.specs.Form.{is_value, array_value, nested_annotation};
ghost use Rattle.decl_grammar.specs.Expressions.{is_other, array_form};
ghost use Rattle.decl_grammar.specs.Rule.{reads, read_nest};
ghost use Rattle.decl_turns.specs.States.{stands_of};
ghost use Rattle.decl_values.specs.Ends.{EndsWith, expression_as_value, array_left, value_read, default_read, array_rest, listed_step, values_from, ListedItem};
ghost use Rattle.decl_turns.specs.declared.states.Place.TheVariants as places;

use crate::annotations::annotation_of;
use crate::around::{closed, ended};
use crate::reached::End;
use crate::rows::{ended_of, fallen, furthest};
use apt_base::List;
use decl_constants::{joined_text, meaning_of};
use decl_grammar::sorts::{CLOSE_BRACE, CLOSE_PARENTHESIS, COMMA, OPEN_BRACE, SEMICOLON};
use decl_grammar::{ReadFault, Symbol};
use decl_names::{begin, is_next, one, shut, starts_annotation};
use decl_tree::{AnnotationText, ValueText};
use decl_turns::Place;
use std::alloc::Global;

// ---- single values

// An array as a value.
#[cycle(values)]
fn array_value_of<'a, 's>(
    alloc: Global,
    room: usize,
    symbols: &'s [Symbol<'a>],
) -> Result<(ValueText, &'s [Symbol<'a>]), ReadFault>
    ensures { Gives (λ x. (x.0, x.1.now)) result (read_nest room array_value symbols.now) }
{
    if room > 0 {
        return array_in(alloc, room - 1, symbols);
    }
    Err(shut(is_next(symbols, OPEN_BRACE), symbols))
}

// An annotation as a value.
#[cycle(values)]
fn nested_annotation_of<'a, 's>(
    alloc: Global,
    room: usize,
    symbols: &'s [Symbol<'a>],
) -> Result<(AnnotationText, &'s [Symbol<'a>]), ReadFault>
    ensures { Gives (λ x. (x.0, x.1.now)) result (read_nest room nested_annotation symbols.now) }
{
    if room > 0 {
        return annotation_of(alloc, room - 1, symbols);
    }
    Err(shut(starts_annotation(symbols), symbols))
}

// An expression as a value, up to what stands behind it.
#[cycle(values)]
fn expression_value_of<'a, 's>(
    alloc: Global,
    room: usize,
    place: Place,
    symbols: &'s [Symbol<'a>],
) -> Result<(ValueText, End<'a, 's>), ReadFault>
    ensures { EndsWith room place (expression_as_value room place symbols.now) symbols.now result }
{
    let end = ended_of(alloc, room, place, symbols)?;
    let value = meaning_of(alloc, symbols, end.rest.len())?;
    Ok((value, end))
}

/// A value, up to what stands behind it.
#[cycle(values)]
pub fn value_of<'a, 's>(
    alloc: Global,
    room: usize,
    place: Place,
    symbols: &'s [Symbol<'a>],
) -> Result<(ValueText, End<'a, 's>), ReadFault>
    requires { is_value (stands_of place) ≡ true }
    ensures { EndsWith room place (value_read room place symbols.now) symbols.now result }
{
    if is_next(symbols, OPEN_BRACE) {
        let (value, rest) = array_value_of(alloc, room, symbols)?;
        return Ok((value, End { rest, far: None }));
    }
    if starts_annotation(symbols) {
        let (annotation, rest) = nested_annotation_of(alloc, room, symbols)?;
        return Ok((ValueText::Nested(annotation), End { rest, far: None }));
    }
    expression_value_of(alloc, room, place, symbols)
}

/// The default of an element of an annotation interface, and the `;` behind it.
pub fn default_of<'a, 's>(
    alloc: Global,
    room: usize,
    symbols: &'s [Symbol<'a>],
) -> Result<(ValueText, &'s [Symbol<'a>]), ReadFault>
    ensures { Gives (λ x. ((x.0, tt), x.1.now)) result (default_read room symbols.now) }
{
    let (value, end) = value_of(alloc, room, Place::Defaulted, symbols)?;
    match one(end.rest, SEMICOLON) {
        Ok(read) => {
            let (_, rest) = read;
            Ok((value, rest))
        }
        Err(fault) => Err(fallen(end.far, fault)),
    }
}

/// A value alone in the brackets of an annotation, and the `)` behind it.
#[cycle(values)]
pub fn lone_value_of<'a, 's>(
    alloc: Global,
    room: usize,
    symbols: &'s [Symbol<'a>],
) -> Result<(ValueText, &'s [Symbol<'a>]), ReadFault>
    ensures { Gives (λ x. ((x.0, tt), x.1.now)) result (value_read room places.Alone symbols.now) }
{
    let (value, end) = value_of(alloc, room, Place::Alone, symbols)?;
    match one(end.rest, CLOSE_PARENTHESIS) {
        Ok(read) => {
            let (_, rest) = read;
            Ok((value, rest))
        }
        Err(fault) => Err(fallen(end.far, fault)),
    }
}

// ---- arrays

/// Behind a value of an array: whether another one comes.
pub fn listed_step_of<'a, 's>(
    symbols: &'s [Symbol<'a>],
) -> Result<(bool, &'s [Symbol<'a>]), ReadFault>
    ensures { Gives (λ x. (x.0, x.1.now)) result (listed_step symbols.now) }
{
    if is_next(symbols, CLOSE_BRACE) {
        return ended(false, symbols, CLOSE_BRACE);
    }
    let (_, rest) = one(symbols, COMMA)?;
    if is_next(rest, CLOSE_BRACE) {
        return ended(false, rest, CLOSE_BRACE);
    }
    Ok((true, rest))
}

// A value of an array, and whether another one comes behind it. Readings of types failed this far on before it.
#[cycle(values)]
fn listed_item_of<'a, 's>(
    alloc: Global,
    room: usize,
    far: Option<usize>,
    symbols: &'s [Symbol<'a>],
) -> Result<(ValueText, (bool, End<'a, 's>)), ReadFault>
    ensures item { ListedItem room far symbols.now result }
    ensures smaller { IfOk result (λ x. length x.1.1.rest.now < length symbols.now) }
{
    match value_of(alloc, room, Place::Listed, symbols) {
        Ok((value, end)) => {
            let far = furthest(far, end.far);
            match listed_step_of(end.rest) {
                Ok(step) => {
                    let (more, rest) = step;
                    Ok((value, (more, End { rest, far })))
                }
                Err(fault) => Err(fallen(far, fault)),
            }
        }
        Err(fault) => Err(fallen(far, fault)),
    }
}

// The values of an array, of which there is one, up to its `}`.
#[cycle(values)]
fn values_of<'a, 's>(
    alloc: Global,
    room: usize,
    symbols: &'s [Symbol<'a>],
) -> Result<(Vec<ValueText>, &'s [Symbol<'a>]), ReadFault>
    ensures { Gives (λ x. (x.0.items, x.1.now)) result (values_from room symbols.now) }
{
    let mut all = Vec::new(alloc);
    let mut far = None;
    let mut rest = begin(symbols)?;
    'row: loop {
        let (value, (more, end)) = listed_item_of(alloc, room, far, rest)?;
        all.push(value)?;
        if !more {
            return Ok((all, end.rest));
        }
        far = end.far;
        rest = end.rest;
    }
}

// Whether a value is no constant form.
fn is_other_value(value: &ValueText) -> bool
    ensures { result ≡ is_other value.now }
{
    match value {
        ValueText::Literal(_) => false,
        ValueText::Negated(_) => false,
        ValueText::Joined(_) => false,
        ValueText::Class(_) => false,
        ValueText::Chain(_) => false,
        ValueText::Array(_) => false,
        ValueText::Nested(_) => false,
        ValueText::Other(_) => true,
    }
}

// Whether one of these is no constant form.
fn has_other(values: &[ValueText]) -> bool
    ensures { result ≡ list_any is_other values.now }
{
    let mut rest = values;
    'row: while let [each, after @ ..] = rest {
        if is_other_value(each) {
            return true;
        }
        rest = after;
    }
    false
}

// An array with these values, which is kept as its tokens where one of them is no constant form. This much of the symbols is left behind it.
fn array_meaning(
    alloc: Global,
    values: Vec<ValueText>,
    symbols: &[Symbol<'_>],
    left: usize,
) -> Result<ValueText, ReadFault>
    requires { left ≤ length symbols.now }
    ensures { UnlessMemory result (λ v. v ≡ array_left values.items symbols.now left) }
{
    if has_other(values.as_slice()) {
        let text = joined_text(alloc, &symbols[..symbols.len() - left])?;
        return Ok(ValueText::Other(text));
    }
    Ok(ValueText::Array(List::from_vec(values)))
}

// What stands behind the `{` of an array, up to its `}`.
#[cycle(values)]
#[tactic(auto, unfolding(crate::specs::Ends::array_rest, decl_grammar::specs::Expressions::listed_end))]
fn array_rest_of<'a, 's>(
    alloc: Global,
    room: usize,
    symbols: &'s [Symbol<'a>],
) -> Result<(Vec<ValueText>, &'s [Symbol<'a>]), ReadFault>
    ensures { Gives (λ x. (x.0.items, x.1.now)) result (reads room array_rest symbols.now) }
{
    if is_next(symbols, CLOSE_BRACE) {
        return closed(Vec::new(alloc), symbols, CLOSE_BRACE);
    }
    if is_next(symbols, COMMA) {
        let (_, rest) = one(symbols, COMMA)?;
        return closed(Vec::new(alloc), rest, CLOSE_BRACE);
    }
    values_of(alloc, room, symbols)
}

// An array of values.
#[cycle(values)]
#[tactic(auto, unfolding(decl_grammar::specs::Expressions::array_form, crate::specs::Ends::array_rest))]
fn array_in<'a, 's>(
    alloc: Global,
    room: usize,
    symbols: &'s [Symbol<'a>],
) -> Result<(ValueText, &'s [Symbol<'a>]), ReadFault>
    ensures { Gives (λ x. (x.0, x.1.now)) result (reads room array_form symbols.now) }
{
    let (_, rest) = one(symbols, OPEN_BRACE)?;
    let (values, rest) = array_rest_of(alloc, room, rest)?;
    let value = array_meaning(alloc, values, symbols, rest.len())?;
    Ok((value, rest))
}
