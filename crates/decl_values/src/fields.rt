// Reads initialisers (JLS 8.3) and what stands behind the name of a field, up to the `;` that ends the declaration.
ghost use Rattle.std.specs.Prelude.{◌≡◌, ◌<◌, [], ◌∷◌, ℕ, List, length, IfOk, Ok, Some, None, if◌then◌else◌, ◌==◌};
ghost use Rattle.decl_turns.specs.declared.states.Place.TheVariants as places;
ghost use Rattle.decl_grammar.specs.Reading.{Gives};
ghost use Rattle.decl_values.specs.Ends.{EndsWith, initialiser_read, value_or_end_read, ConstantTried, declared_step, FieldItem};
ghost use Rattle.decl_values.specs.FieldRows.{fields_from};

use crate::around::ended;
use crate::constant_forms::constant_of;
use crate::reached::End;
use crate::rows::{ended_of, fallen, furthest};
use crate::types::dims_of;
use apt_base::List;
use decl_grammar::sorts::{COMMA, EQUALS, SEMICOLON};
use decl_grammar::{Declarator, NameAt, ReadFault, Symbol};
use decl_names::{begin, is_next, one, read_name_at};
use decl_tree::{Around, ValueText};
use decl_turns::Place;
use std::alloc::Global;

// What was read as a constant form, where it ended here.
fn kept_if<T: Drop>(value: Option<T>, left: usize, here: usize) -> Option<T>
    ensures { result ≡ (if here == left then value else None) }
{
    if here == left {
        return value;
    }
    None
}

// An initialiser that is no constant form with a `;` behind it: that reading failed with this many symbols left. The value that was read as a
// constant form is kept where the expression ends where that ended.
fn free_initialiser_of<'a, 's>(
    alloc: Global,
    room: usize,
    value: Option<ValueText>,
    left: usize,
    symbols: &'s [Symbol<'a>],
) -> Result<(Option<ValueText>, End<'a, 's>), ReadFault>
    requires { ConstantTried room symbols.now value left }
    ensures { EndsWith room places.Assigned (initialiser_read room symbols.now) symbols.now result }
{
    match ended_of(alloc, room, Place::Assigned, symbols) {
        Ok(end) => {
            let far = furthest(Some(left), end.far);
            let kept = kept_if(value, left, end.rest.len());
            Ok((
                kept,
                End {
                    rest: end.rest,
                    far,
                },
            ))
        }
        Err(fault) => Err(fallen(Some(left), fault)),
    }
}

// An initialiser, up to what stands behind it: the constant form that it is, where it is one.
fn initialiser_of<'a, 's>(
    alloc: Global,
    room: usize,
    symbols: &'s [Symbol<'a>],
) -> Result<(Option<ValueText>, End<'a, 's>), ReadFault>
    ensures { EndsWith room places.Assigned (initialiser_read room symbols.now) symbols.now result }
{
    match constant_of(alloc, room, symbols) {
        Ok(read) => {
            let (value, rest) = read;
            if is_next(rest, SEMICOLON) {
                return Ok((Some(value), End { rest, far: None }));
            }
            free_initialiser_of(alloc, room, Some(value), rest.len(), symbols)
        }
        Err(ReadFault::Bad(left)) => free_initialiser_of(alloc, room, None, left, symbols),
        Err(ReadFault::Deep(left)) => Err(ReadFault::Deep(left)),
        Err(ReadFault::Memory) => Err(ReadFault::Memory),
    }
}

// `=` and an initialiser, where they stand here, up to what stands behind them.
fn optional_initialiser_of<'a, 's>(
    alloc: Global,
    room: usize,
    symbols: &'s [Symbol<'a>],
) -> Result<(Option<ValueText>, End<'a, 's>), ReadFault>
    ensures { EndsWith room places.Assigned (value_or_end_read room symbols.now) symbols.now result }
{
    if is_next(symbols, EQUALS) {
        let (_, rest) = one(symbols, EQUALS)?;
        return initialiser_of(alloc, room, rest);
    }
    Ok((
        None,
        End {
            rest: symbols,
            far: None,
        },
    ))
}

// Behind a field: the name of the next one and the brackets behind it, where there is one.
fn declared_step_of<'a, 's>(
    alloc: Global,
    room: usize,
    symbols: &'s [Symbol<'a>],
) -> Result<(Option<(NameAt, List<Around>)>, &'s [Symbol<'a>]), ReadFault>
    ensures { Gives (λ x. (x.0, x.1.now)) result (declared_step room symbols.now) }
{
    if is_next(symbols, SEMICOLON) {
        return ended(None, symbols, SEMICOLON);
    }
    let (_, rest) = one(symbols, COMMA)?;
    let (name, rest) = read_name_at(alloc, room, rest)?;
    let (dims, rest) = dims_of(alloc, room, rest)?;
    let dims = List::from_vec(dims);
    Ok((Some((name, dims)), rest))
}

// The constant of a field, and the name of the next one. Readings of types failed this far on before it.
fn field_item_of<'a, 's>(
    alloc: Global,
    room: usize,
    far: Option<usize>,
    symbols: &'s [Symbol<'a>],
) -> Result<
    (
        Option<ValueText>,
        (Option<(NameAt, List<Around>)>, End<'a, 's>),
    ),
    ReadFault,
>
    ensures item { FieldItem room far symbols.now result }
    ensures smaller { IfOk result (λ x. length x.1.1.rest.now < length symbols.now) }
{
    match optional_initialiser_of(alloc, room, symbols) {
        Ok((constant, end)) => {
            let far = furthest(far, end.far);
            match declared_step_of(alloc, room, end.rest) {
                Ok(step) => {
                    let (next, rest) = step;
                    Ok((constant, (next, End { rest, far })))
                }
                Err(fault) => Err(fallen(far, fault)),
            }
        }
        Err(fault) => Err(fallen(far, fault)),
    }
}

/// The fields from what stands behind this name and these brackets on, up to the `;` behind them (JLS 8.3).
pub fn fields_of<'a, 's>(
    alloc: Global,
    room: usize,
    first: NameAt,
    brackets: List<Around>,
    symbols: &'s [Symbol<'a>],
) -> Result<(Vec<Declarator>, &'s [Symbol<'a>]), ReadFault>
    ensures { Gives (λ x. (x.0.items, x.1.now)) result (fields_from room first brackets symbols.now) }
{
    let mut all = Vec::new(alloc);
    let mut far = None;
    let mut name = first;
    let mut dims = brackets;
    let mut rest = begin(symbols)?;
    'row: loop {
        let (constant, (next, end)) = field_item_of(alloc, room, far, rest)?;
        all.push(Declarator {
            name,
            dims,
            constant,
        })?;
        match next {
            Some((next_name, next_dims)) => {
                name = next_name;
                dims = next_dims;
            }
            None => return Ok((all, end.rest)),
        }
        far = end.far;
        rest = end.rest;
    }
}
