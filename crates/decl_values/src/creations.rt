// Reads what an expression creates (JLS 15.9, 15.10.1).
ghost use Rattle.std.specs.Prelude.{◌≡◌, ◌++◌, [], ◌∷◌};
ghost use Rattle.decl_grammar.specs.Reading.{Gives, starts};
ghost use Rattle.decl_grammar.specs.Form.{names, primitive_sorts, many, created_arguments};
ghost use Rattle.decl_grammar.specs.Rows.{read_as};
ghost use Rattle.decl_grammar.specs.Types.{silently};
ghost use Rattle.decl_grammar.specs.Expressions.{created_part, next_created_part, created_type, creation_form, created_arguments_form};
ghost use Rattle.decl_grammar.specs.Rule.{reads, read_nest};
ghost use Rattle.decl_values.specs.Ends.{argument_firsts, created_class};

use crate::annotations::annotations_of;
use crate::around::{closed, one_item};
use crate::type_arguments::{more_arguments_of, optional_arguments_of, type_argument_of};
use decl_constants::primitive_type_of;
use decl_grammar::sorts::{DOT, GREATER_THAN, LESS_THAN, NEW, QUESTION};
use decl_grammar::{ReadFault, Symbol};
use decl_names::{
    begin, is_next, one, read_name, shut, starts_annotation, starts_name, starts_type,
};
use decl_tree::TypeText;
use std::alloc::Global;

// Whether a wildcard or a type begins here.
fn starts_bare_argument(symbols: &[Symbol<'_>]) -> bool
    ensures { result ≡ starts ((QUESTION ∷ []) ++ (names ++ primitive_sorts)) symbols.now }
{
    is_next(symbols, QUESTION) || starts_type(symbols)
}

// Whether a type argument begins here.
fn starts_argument(symbols: &[Symbol<'_>]) -> bool
    ensures { result ≡ starts argument_firsts symbols.now }
{
    starts_annotation(symbols) || starts_bare_argument(symbols)
}

// The type arguments of a class that is created, where so much may be open in them.
#[cycle(values)]
#[tactic(auto, using(crate::proofs::PartFirsts::argument_list_first), unfolding(decl_grammar::specs::Expressions::created_arguments_form))]
fn created_arguments_in<'a, 's>(
    alloc: Global,
    room: usize,
    symbols: &'s [Symbol<'a>],
) -> Result<(Vec<TypeText>, &'s [Symbol<'a>]), ReadFault>
    ensures { Gives (λ x. (x.0.items, x.1.now)) result (reads room created_arguments_form symbols.now) }
{
    let (_, rest) = one(symbols, LESS_THAN)?;
    if starts_argument(rest) {
        let (first, rest) = type_argument_of(alloc, room, rest)?;
        let front = one_item(alloc, first)?;
        let (all, rest) = more_arguments_of(alloc, room, front, rest)?;
        return closed(all, rest, GREATER_THAN);
    }
    closed(Vec::new(alloc), rest, GREATER_THAN)
}

// The type arguments of a class that is created, which may be `<>`.
#[cycle(values)]
fn created_arguments_of<'a, 's>(
    alloc: Global,
    room: usize,
    symbols: &'s [Symbol<'a>],
) -> Result<(Vec<TypeText>, &'s [Symbol<'a>]), ReadFault>
    ensures { Gives (λ x. (x.0.items, x.1.now)) result (read_nest room created_arguments symbols.now) }
{
    if room > 0 {
        return created_arguments_in(alloc, room - 1, symbols);
    }
    Err(shut(is_next(symbols, LESS_THAN), symbols))
}

// A name of a class that is created, and its type arguments.
#[cycle(values)]
#[tactic(auto, unfolding(decl_grammar::specs::Expressions::created_part))]
fn created_part_of<'a, 's>(
    alloc: Global,
    room: usize,
    symbols: &'s [Symbol<'a>],
) -> Result<&'s [Symbol<'a>], ReadFault>
    ensures { Gives (λ x. (tt, x.now)) result (reads room created_part symbols.now) }
{
    let (_, rest) = read_name(room, symbols)?;
    if is_next(rest, LESS_THAN) {
        let (_, rest) = created_arguments_of(alloc, room, rest)?;
        return Ok(rest);
    }
    Ok(rest)
}

// A dot, annotations, and a name of a class that is created.
#[cycle(values)]
#[tactic(auto, unfolding(decl_grammar::specs::Expressions::next_created_part))]
fn next_created_part_of<'a, 's>(
    alloc: Global,
    room: usize,
    symbols: &'s [Symbol<'a>],
) -> Result<&'s [Symbol<'a>], ReadFault>
    ensures { Gives (λ x. (tt, x.now)) result (reads room next_created_part symbols.now) }
{
    let (_, rest) = one(symbols, DOT)?;
    let (_, rest) = annotations_of(alloc, room, rest)?;
    created_part_of(alloc, room, rest)
}

// What is behind the further names of a class that is created.
#[cycle(values)]
fn more_created_parts_of<'a, 's>(
    alloc: Global,
    room: usize,
    symbols: &'s [Symbol<'a>],
) -> Result<&'s [Symbol<'a>], ReadFault>
    ensures { Gives (λ x. (tt, x.now)) result (read_as silently room (many next_created_part) symbols.now) }
{
    let mut rest = begin(symbols)?;
    'row: while is_next(rest, DOT) {
        rest = next_created_part_of(alloc, room, rest)?;
    }
    Ok(rest)
}

// A class that is created.
#[cycle(values)]
#[tactic(auto, unfolding(crate::specs::Ends::created_class))]
fn created_class_of<'a, 's>(
    alloc: Global,
    room: usize,
    symbols: &'s [Symbol<'a>],
) -> Result<&'s [Symbol<'a>], ReadFault>
    ensures { Gives (λ x. (tt, x.now)) result (reads room created_class symbols.now) }
{
    let rest = created_part_of(alloc, room, symbols)?;
    more_created_parts_of(alloc, room, rest)
}

// A class that is created, or the primitive type of an array that is.
#[cycle(values)]
#[tactic(auto, using(crate::proofs::PartFirsts::created_class_first), unfolding(decl_grammar::specs::Expressions::created_type, crate::specs::Ends::created_class))]
fn created_type_of<'a, 's>(
    alloc: Global,
    room: usize,
    symbols: &'s [Symbol<'a>],
) -> Result<&'s [Symbol<'a>], ReadFault>
    ensures { Gives (λ x. (tt, x.now)) result (reads room created_type symbols.now) }
{
    if starts_name(symbols) {
        return created_class_of(alloc, room, symbols);
    }
    let (_, rest) = primitive_type_of(room, symbols)?;
    Ok(rest)
}

/// `new`, and what is created.
#[cycle(values)]
#[tactic(auto, unfolding(decl_grammar::specs::Expressions::creation_form))]
pub fn creation_of<'a, 's>(
    alloc: Global,
    room: usize,
    symbols: &'s [Symbol<'a>],
) -> Result<&'s [Symbol<'a>], ReadFault>
    ensures { Gives (λ x. (tt, x.now)) result (reads room creation_form symbols.now) }
{
    let (_, rest) = one(symbols, NEW)?;
    let (_, rest) = optional_arguments_of(alloc, room, rest)?;
    let (_, rest) = annotations_of(alloc, room, rest)?;
    created_type_of(alloc, room, rest)
}
