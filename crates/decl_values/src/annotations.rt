// Reads annotations, rows of them, and their pairs (JLS 9.7).
ghost use Rattle.std.specs.Prelude.{◌<◌, List, length, IfOk};
ghost use Rattle.decl_grammar.specs.Reading.{Gives};
ghost use Rattle.decl_grammar.specs.Form.{first_name};
ghost use Rattle.decl_grammar.specs.Rows.{row_behind};
ghost use Rattle.decl_grammar.specs.Types.{named_text, annotation, annotation_body, annotation_arguments, pairs_or_value, first_pair, annotations};
ghost use Rattle.decl_grammar.specs.Rule.{reads, read_nest};
ghost use Rattle.decl_values.specs.Ends.{paired_step, pairs_from, PairedItem};

use crate::around::{closed, ended, one_item};
use crate::reached::End;
use crate::rows::{fallen, furthest};
use crate::values::{lone_value_of, value_of};
use apt_base::{List, Name};
use decl_grammar::sorts::{
    AT, AT_INTERFACE, CLOSE_PARENTHESIS, COMMA, EQUALS, NAMED, OPEN_PARENTHESIS,
};
use decl_grammar::{ReadFault, Symbol};
use decl_names::{begin, is_next, one, read_chain, read_name, shut, starts_annotation};
use decl_tree::{AnnotationText, ElementValuePair, ValueText};
use decl_turns::Place;
use std::alloc::Global;

// ---- pairs

// A name that a `=` follows.
#[tactic(auto, unfolding(decl_grammar::specs::Types::named_text))]
fn named_text_of<'a, 's>(
    room: usize,
    symbols: &'s [Symbol<'a>],
) -> Result<(&'a str, &'s [Symbol<'a>]), ReadFault>
    ensures { Gives (λ x. (x.0.now, x.1.now)) result (reads room named_text symbols.now) }
{
    let (name, rest) = one(symbols, NAMED)?;
    Ok((name.text.as_str(), rest))
}

// The name of a first pair, which might still be a value.
fn first_name_of<'a, 's>(
    room: usize,
    symbols: &'s [Symbol<'a>],
) -> Result<(&'a str, &'s [Symbol<'a>]), ReadFault>
    ensures { Gives (λ x. (x.0.now, x.1.now)) result (read_nest room first_name symbols.now) }
{
    if room > 0 {
        return named_text_of(room - 1, symbols);
    }
    Err(shut(is_next(symbols, NAMED), symbols))
}

// Behind a value of a pair: the name of the next one, where there is one.
fn paired_step_of<'a, 's>(
    alloc: Global,
    room: usize,
    symbols: &'s [Symbol<'a>],
) -> Result<(Option<Name>, &'s [Symbol<'a>]), ReadFault>
    ensures { Gives (λ x. (x.0, x.1.now)) result (paired_step room symbols.now) }
{
    if is_next(symbols, CLOSE_PARENTHESIS) {
        return ended(None, symbols, CLOSE_PARENTHESIS);
    }
    let (_, rest) = one(symbols, COMMA)?;
    let (text, rest) = read_name(room, rest)?;
    let (_, rest) = one(rest, EQUALS)?;
    let name = Name::new(alloc, text)?;
    Ok((Some(name), rest))
}

// The value of a pair, and the name of the next one. Readings of types failed this far on before it.
#[cycle(values)]
fn paired_item_of<'a, 's>(
    alloc: Global,
    room: usize,
    far: Option<usize>,
    symbols: &'s [Symbol<'a>],
) -> Result<(ValueText, (Option<Name>, End<'a, 's>)), ReadFault>
    ensures item { PairedItem room far symbols.now result }
    ensures smaller { IfOk result (λ x. length x.1.1.rest.now < length symbols.now) }
{
    match value_of(alloc, room, Place::Paired, symbols) {
        Ok((value, end)) => {
            let far = furthest(far, end.far);
            match paired_step_of(alloc, room, end.rest) {
                Ok(step) => {
                    let (next, rest) = step;
                    Ok((value, (next, End { rest, far })))
                }
                Err(fault) => Err(fallen(far, fault)),
            }
        }
        Err(fault) => Err(fallen(far, fault)),
    }
}

// The pairs from the value of this one on, up to the `)` behind them.
#[cycle(values)]
fn pairs_of<'a, 's>(
    alloc: Global,
    room: usize,
    first: Name,
    symbols: &'s [Symbol<'a>],
) -> Result<(Vec<ElementValuePair>, &'s [Symbol<'a>]), ReadFault>
    ensures { Gives (λ x. (x.0.items, x.1.now)) result (pairs_from room first symbols.now) }
{
    let mut all = Vec::new(alloc);
    let mut far = None;
    let mut name = first;
    let mut rest = begin(symbols)?;
    'row: loop {
        let (value, (next, end)) = paired_item_of(alloc, room, far, rest)?;
        all.push(ElementValuePair { name, value })?;
        match next {
            Some(next_name) => name = next_name,
            None => return Ok((all, end.rest)),
        }
        far = end.far;
        rest = end.rest;
    }
}

// The pairs from the first one on.
#[cycle(values)]
#[tactic(auto, unfolding(decl_grammar::specs::Types::first_pair))]
fn first_pair_of<'a, 's>(
    alloc: Global,
    room: usize,
    symbols: &'s [Symbol<'a>],
) -> Result<(Vec<ElementValuePair>, &'s [Symbol<'a>]), ReadFault>
    ensures { Gives (λ x. (x.0.items, x.1.now)) result (reads room first_pair symbols.now) }
{
    let (text, rest) = first_name_of(room, symbols)?;
    let (_, rest) = one(rest, EQUALS)?;
    let name = Name::new(alloc, text)?;
    pairs_of(alloc, room, name, rest)
}

// Pairs, or a value alone.
#[cycle(values)]
#[tactic(auto, using(crate::proofs::PartFirsts::first_pair_first), unfolding(decl_grammar::specs::Types::pairs_or_value))]
fn pairs_or_value_of<'a, 's>(
    alloc: Global,
    room: usize,
    symbols: &'s [Symbol<'a>],
) -> Result<(Vec<ElementValuePair>, &'s [Symbol<'a>]), ReadFault>
    ensures { Gives (λ x. (x.0.items, x.1.now)) result (reads room pairs_or_value symbols.now) }
{
    if is_next(symbols, NAMED) {
        return first_pair_of(alloc, room, symbols);
    }
    let name = Name::new(alloc, "value")?;
    let (value, rest) = lone_value_of(alloc, room, symbols)?;
    let all = one_item(alloc, ElementValuePair { name, value })?;
    Ok((all, rest))
}

// ---- annotations

// The values of an annotation, in their brackets.
#[cycle(values)]
#[tactic(auto, unfolding(decl_grammar::specs::Types::annotation_arguments))]
fn arguments_of<'a, 's>(
    alloc: Global,
    room: usize,
    symbols: &'s [Symbol<'a>],
) -> Result<(Vec<ElementValuePair>, &'s [Symbol<'a>]), ReadFault>
    ensures { Gives (λ x. (x.0.items, x.1.now)) result (reads room annotation_arguments symbols.now) }
{
    let (_, rest) = one(symbols, OPEN_PARENTHESIS)?;
    if is_next(rest, CLOSE_PARENTHESIS) {
        return closed(Vec::new(alloc), rest, CLOSE_PARENTHESIS);
    }
    pairs_or_value_of(alloc, room, rest)
}

/// An annotation behind its `@` (JLS 9.7): its name and its values. `Bad` where the symbols stop being one, `Deep` where more than 200 values
/// and lists of type arguments are open at once, `Memory` when memory runs out.
#[cycle(values)]
#[tactic(auto, using(decl_grammar::proofs::Firsts::arguments_first), unfolding(decl_grammar::specs::Types::annotation_body))]
pub fn annotation_body_of<'a, 's>(
    alloc: Global,
    room: usize,
    symbols: &'s [Symbol<'a>],
) -> Result<(AnnotationText, &'s [Symbol<'a>]), ReadFault>
    ensures { Gives (λ x. (x.0, x.1.now)) result (reads room annotation_body symbols.now) }
{
    let (name, rest) = read_chain(alloc, room, symbols)?;
    if is_next(rest, OPEN_PARENTHESIS) {
        let (values, rest) = arguments_of(alloc, room, rest)?;
        let values = List::from_vec(values);
        return Ok((AnnotationText { name, values }, rest));
    }
    let values = List::new(alloc);
    Ok((AnnotationText { name, values }, rest))
}

/// An annotation (JLS 9.7).
#[cycle(values)]
#[tactic(auto, unfolding(decl_grammar::specs::Types::annotation, decl_grammar::specs::Reading::one_at))]
pub fn annotation_of<'a, 's>(
    alloc: Global,
    room: usize,
    symbols: &'s [Symbol<'a>],
) -> Result<(AnnotationText, &'s [Symbol<'a>]), ReadFault>
    ensures { Gives (λ x. (x.0, x.1.now)) result (reads room annotation symbols.now) }
{
    if is_next(symbols, AT_INTERFACE) {
        let (_, rest) = one(symbols, AT_INTERFACE)?;
        return annotation_body_of(alloc, room, rest);
    }
    let (_, rest) = one(symbols, AT)?;
    annotation_body_of(alloc, room, rest)
}

// The annotations that stand here, put behind others.
#[cycle(values)]
fn more_annotations_of<'a, 's>(
    alloc: Global,
    room: usize,
    front: Vec<AnnotationText>,
    symbols: &'s [Symbol<'a>],
) -> Result<(Vec<AnnotationText>, &'s [Symbol<'a>]), ReadFault>
    ensures { Gives (λ x. (x.0.items, x.1.now)) result (row_behind front.items room annotation symbols.now) }
{
    let mut all = front;
    let mut rest = begin(symbols)?;
    'row: while starts_annotation(rest) {
        let (next, after) = annotation_of(alloc, room, rest)?;
        all.push(next)?;
        rest = after;
    }
    Ok((all, rest))
}

/// The annotations that stand here.
#[cycle(values)]
#[tactic(auto, using(decl_grammar::proofs::Loop::starts_with), unfolding(decl_grammar::specs::Types::annotations))]
pub fn annotations_of<'a, 's>(
    alloc: Global,
    room: usize,
    symbols: &'s [Symbol<'a>],
) -> Result<(Vec<AnnotationText>, &'s [Symbol<'a>]), ReadFault>
    ensures { Gives (λ x. (x.0.items, x.1.now)) result (reads room annotations symbols.now) }
{
    let front = Vec::new(alloc);
    more_annotations_of(alloc, room, front, symbols)
}
