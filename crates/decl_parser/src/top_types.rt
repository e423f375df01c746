// Reads top-level types (JLS 7.6).
ghost use Rattle.std.specs.Prelude.{◌≡◌, [], ◌∷◌, ◌++◌, Ok};
ghost use Rattle.decl_grammar.specs.Reading.{Gives, starts};
ghost use Rattle.decl_grammar.specs.Form.{many, modifier_words, first_of, nested_type};
ghost use Rattle.decl_grammar.specs.Rows.{row_behind};
ghost use Rattle.decl_parser.specs.MemberRows.{top_type_firsts};
ghost use Rattle.decl_grammar.specs.Grammar.{modified_type, top_type};
ghost use Rattle.decl_grammar.specs.Rule.{reads};

use crate::declarations::type_rest_of;
use decl_grammar::sorts::{AT, SEMICOLON};
use decl_grammar::{Modifiers, ReadFault, Symbol, TypeAt, TypeRest};
use decl_members::type_at;
use decl_types::{starts_modifier, starts_type_word, type_modifiers_of};
use decl_values::{begin, doc_before, is_next, one};
use std::alloc::Global;

// A type and the modifiers before it.
#[tactic(auto, unfolding(decl_grammar::specs::Grammar::modified_type))]
fn modified_type_of<'a, 's>(
    alloc: Global,
    room: usize,
    symbols: &'s [Symbol<'a>],
) -> Result<((Modifiers, TypeRest), &'s [Symbol<'a>]), ReadFault>
    ensures { Gives (λ x. (x.0, x.1.now)) result (reads room modified_type symbols.now) }
{
    let (modifiers, rest) = type_modifiers_of(alloc, room, symbols)?;
    let (declaration, rest) = type_rest_of(alloc, room, rest)?;
    Ok(((modifiers, declaration), rest))
}

// A top-level type, or a `;`.
#[tactic(auto, unfolding(decl_grammar::specs::Grammar::top_type))]
fn top_type_of<'a, 's>(
    alloc: Global,
    room: usize,
    symbols: &'s [Symbol<'a>],
) -> Result<(Option<TypeAt>, &'s [Symbol<'a>]), ReadFault>
    ensures { Gives (λ x. (x.0, x.1.now)) result (reads room top_type symbols.now) }
{
    if is_next(symbols, SEMICOLON) {
        let (_, rest) = one(symbols, SEMICOLON)?;
        return Ok((None, rest));
    }
    let ((modifiers, declaration), rest) = modified_type_of(alloc, room, symbols)?;
    let doc = doc_before(alloc, &symbols[..symbols.len() - rest.len()])?;
    let made = type_at(alloc, doc, modifiers, declaration)?;
    Ok((Some(made), rest))
}

// Whether a type begins here, or its modifiers.
fn starts_modified(symbols: &[Symbol<'_>]) -> bool
    ensures { result ≡ starts ((modifier_words ++ (AT ∷ [])) ++ first_of nested_type) symbols.now }
{
    starts_modifier(symbols) || starts_type_word(symbols)
}

// Whether a top-level type begins here, or a `;`.
fn starts_top_type(symbols: &[Symbol<'_>]) -> bool
    ensures { result ≡ starts top_type_firsts symbols.now }
{
    is_next(symbols, SEMICOLON) || starts_modified(symbols)
}

// The top-level types that stand here, put behind others.
fn more_top_types_of<'a, 's>(
    alloc: Global,
    room: usize,
    front: Vec<Option<TypeAt>>,
    symbols: &'s [Symbol<'a>],
) -> Result<(Vec<Option<TypeAt>>, &'s [Symbol<'a>]), ReadFault>
    ensures { Gives (λ x. (x.0.items, x.1.now)) result (row_behind front.items room top_type symbols.now) }
{
    let mut all = front;
    let mut rest = begin(symbols)?;
    'row: while starts_top_type(rest) {
        let (next, after) = top_type_of(alloc, room, rest)?;
        all.push(next)?;
        rest = after;
    }
    Ok((all, rest))
}

/// The top-level types that stand here.
#[tactic(auto, using(decl_grammar::proofs::Loop::starts_with))]
pub fn top_types_of<'a, 's>(
    alloc: Global,
    room: usize,
    symbols: &'s [Symbol<'a>],
) -> Result<(Vec<Option<TypeAt>>, &'s [Symbol<'a>]), ReadFault>
    ensures { Gives (λ x. (x.0.items, x.1.now)) result (reads room (many top_type) symbols.now) }
{
    let front = Vec::new(alloc);
    more_top_types_of(alloc, room, front, symbols)
}
