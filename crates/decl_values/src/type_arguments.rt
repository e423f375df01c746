// Reads type arguments and wildcards (JLS 4.5.1).
ghost use Rattle.std.specs.Prelude.{◌≡◌, [], ◌∷◌, List, MatchResult};
ghost use Rattle.decl_grammar.specs.Reading.{Gives, starts};
ghost use Rattle.decl_grammar.specs.Form.{maybe, nest, type_arguments};
ghost use Rattle.decl_grammar.specs.Types.{wildcard_bound, type_argument, next_argument, arguments_form, wildcard, bounded_text};
ghost use Rattle.decl_grammar.specs.Rule.{reads, read_nest};
ghost use Rattle.decl_values.specs.Closings.{bound_read};
ghost use Rattle.decl_values.specs.Ends.{arguments_behind};
ghost use Rattle.decl_grammar.specs.declared.fault.ReadFault.TheVariants as faults;

use crate::annotations::annotations_of;
use crate::around::{closed, one_item, put_first};
use crate::types::{annotated_reference_of, reference_of};
use apt_base::List;
use decl_grammar::sorts::{COMMA, EXTENDS, GREATER_THAN, LESS_THAN, QUESTION, SUPER};
use decl_grammar::{ReadFault, Symbol};
use decl_names::{begin, is_next, one, shut};
use decl_tree::{Around, BaseType, TypeText};
use std::alloc::Global;

// The same type within something around it.
fn within(item: Around, text: TypeText) -> Result<TypeText, ReadFault>
    ensures { MatchResult result (λ x. x ≡ bounded_text item text) (λ e. e ≡ faults.Memory) }
{
    let TypeText { around, base } = text;
    let around = put_first(item, around)?;
    Ok(TypeText { around, base })
}

// The type in the bound of a wildcard, within `extends` or `super`.
#[cycle(values)]
fn bounded_of<'a, 's>(
    alloc: Global,
    room: usize,
    item: Around,
    symbols: &'s [Symbol<'a>],
) -> Result<(TypeText, &'s [Symbol<'a>]), ReadFault>
    ensures { Gives (λ x. (x.0, x.1.now)) result (bound_read item room symbols.now) }
{
    let (text, rest) = annotated_reference_of(alloc, room, symbols)?;
    Ok((within(item, text)?, rest))
}

// The bound of a wildcard.
#[cycle(values)]
#[tactic(auto, unfolding(decl_grammar::specs::Types::wildcard_bound))]
fn wildcard_bound_of<'a, 's>(
    alloc: Global,
    room: usize,
    symbols: &'s [Symbol<'a>],
) -> Result<(TypeText, &'s [Symbol<'a>]), ReadFault>
    ensures { Gives (λ x. (x.0, x.1.now)) result (reads room wildcard_bound symbols.now) }
{
    if is_next(symbols, EXTENDS) {
        let (_, rest) = one(symbols, EXTENDS)?;
        return bounded_of(alloc, room, Around::Extends, rest);
    }
    let (_, rest) = one(symbols, SUPER)?;
    bounded_of(alloc, room, Around::Super, rest)
}

// Whether the bound of a wildcard begins here.
fn starts_bound(symbols: &[Symbol<'_>]) -> bool
    ensures { result ≡ starts (EXTENDS ∷ SUPER ∷ []) symbols.now }
{
    is_next(symbols, EXTENDS) || is_next(symbols, SUPER)
}

// A wildcard (JLS 4.5.1).
#[cycle(values)]
#[tactic(auto, using(decl_grammar::proofs::Firsts::wildcard_bound_first), unfolding(decl_grammar::specs::Types::wildcard))]
fn wildcard_of<'a, 's>(
    alloc: Global,
    room: usize,
    symbols: &'s [Symbol<'a>],
) -> Result<(TypeText, &'s [Symbol<'a>]), ReadFault>
    ensures { Gives (λ x. (x.0, x.1.now)) result (reads room wildcard symbols.now) }
{
    let (_, rest) = one(symbols, QUESTION)?;
    if starts_bound(rest) {
        return wildcard_bound_of(alloc, room, rest);
    }
    let base = BaseType::Wildcard;
    let around = List::new(alloc);
    Ok((TypeText { around, base }, rest))
}

/// A type argument.
#[cycle(values)]
#[tactic(auto, using(decl_grammar::proofs::Firsts::wildcard_first), unfolding(decl_grammar::specs::Types::type_argument))]
pub fn type_argument_of<'a, 's>(
    alloc: Global,
    room: usize,
    symbols: &'s [Symbol<'a>],
) -> Result<(TypeText, &'s [Symbol<'a>]), ReadFault>
    ensures { Gives (λ x. (x.0, x.1.now)) result (reads room type_argument symbols.now) }
{
    let (_, rest) = annotations_of(alloc, room, symbols)?;
    if is_next(rest, QUESTION) {
        return wildcard_of(alloc, room, rest);
    }
    reference_of(alloc, room, rest)
}

// A comma and a type argument.
#[cycle(values)]
#[tactic(auto, unfolding(decl_grammar::specs::Types::next_argument))]
fn next_argument_of<'a, 's>(
    alloc: Global,
    room: usize,
    symbols: &'s [Symbol<'a>],
) -> Result<(TypeText, &'s [Symbol<'a>]), ReadFault>
    ensures { Gives (λ x. (x.0, x.1.now)) result (reads room next_argument symbols.now) }
{
    let (_, rest) = one(symbols, COMMA)?;
    type_argument_of(alloc, room, rest)
}

/// The type arguments behind commas, put behind others.
#[cycle(values)]
pub fn more_arguments_of<'a, 's>(
    alloc: Global,
    room: usize,
    front: Vec<TypeText>,
    symbols: &'s [Symbol<'a>],
) -> Result<(Vec<TypeText>, &'s [Symbol<'a>]), ReadFault>
    ensures { Gives (λ x. (x.0.items, x.1.now)) result (arguments_behind front.items room symbols.now) }
{
    let mut all = front;
    let mut rest = begin(symbols)?;
    'row: while is_next(rest, COMMA) {
        let (next, after) = next_argument_of(alloc, room, rest)?;
        all.push(next)?;
        rest = after;
    }
    Ok((all, rest))
}

// A list of type arguments, where so much may be open in it.
#[cycle(values)]
#[tactic(auto, unfolding(decl_grammar::specs::Types::arguments_form))]
fn arguments_in<'a, 's>(
    alloc: Global,
    room: usize,
    symbols: &'s [Symbol<'a>],
) -> Result<(Vec<TypeText>, &'s [Symbol<'a>]), ReadFault>
    ensures { Gives (λ x. (x.0.items, x.1.now)) result (reads room arguments_form symbols.now) }
{
    let (_, rest) = one(symbols, LESS_THAN)?;
    let (first, rest) = type_argument_of(alloc, room, rest)?;
    let front = one_item(alloc, first)?;
    let (all, rest) = more_arguments_of(alloc, room, front, rest)?;
    closed(all, rest, GREATER_THAN)
}

/// A list of type arguments (JLS 4.5.1).
#[cycle(values)]
pub fn type_arguments_of<'a, 's>(
    alloc: Global,
    room: usize,
    symbols: &'s [Symbol<'a>],
) -> Result<(Vec<TypeText>, &'s [Symbol<'a>]), ReadFault>
    ensures { Gives (λ x. (x.0.items, x.1.now)) result (read_nest room type_arguments symbols.now) }
{
    if room > 0 {
        return arguments_in(alloc, room - 1, symbols);
    }
    Err(shut(is_next(symbols, LESS_THAN), symbols))
}

/// The type arguments that stand here, where there are any.
#[cycle(values)]
pub fn optional_arguments_of<'a, 's>(
    alloc: Global,
    room: usize,
    symbols: &'s [Symbol<'a>],
) -> Result<(Option<List<TypeText>>, &'s [Symbol<'a>]), ReadFault>
    ensures { Gives (λ x. (x.0, x.1.now)) result (reads room (maybe (nest type_arguments)) symbols.now) }
{
    if is_next(symbols, LESS_THAN) {
        let (arguments, rest) = type_arguments_of(alloc, room, symbols)?;
        return Ok((Some(List::from_vec(arguments)), rest));
    }
    Ok((None, symbols))
}
