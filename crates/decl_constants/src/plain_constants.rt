// Reads the constant forms that hold no other value (JLS 15.28): literals and names and what a `+` joins of them, negated numerals, and class literals.
ghost use Rattle.std.specs.Prelude.{◌≡◌, [], ◌∷◌, length, ◌≤◌, ◌-◌, take};
ghost use Rattle.decl_grammar.specs.Symbols.{numbers};
ghost use Rattle.decl_grammar.specs.Reading.{Gives, starts, one_at, UnlessMemory};
ghost use Rattle.decl_grammar.specs.Form.{many, constant_chain, turned};
ghost use Rattle.decl_grammar.specs.Rows.{read_as};
ghost use Rattle.decl_grammar.specs.Types.{silently};
ghost use Rattle.decl_grammar.specs.Expressions.{plain_constant, plus_constant, bare_dim, dot_class, array_class, literal_constant, named_constant, negated_constant, primitive_class, void_class, plain_form};
ghost use Rattle.decl_grammar.specs.Rule.{reads, read_nest};
ghost use Rattle.decl_constants.specs.ConstantParts.{dims_class, chain_end, chain_step, plain_value_form};
ghost use Rattle.decl_grammar.specs.Constants.{expression_of};

use crate::constants::expression_value;
use crate::primitives::primitive_type_of;
use decl_grammar::sorts::{
    CLASS, CLOSE_BRACKET, DOT, FLOATING, INTEGER, MINUS, OPEN_BRACKET, PLUS, VOID,
};
use decl_grammar::{ReadFault, Symbol};
use decl_names::{
    begin, is_literal_sort, is_next, one, read_chain, read_name, starts_name, starts_primitive,
};
use decl_tree::ValueText;
use std::alloc::Global;

// Whether a literal begins here.
fn starts_literal(symbols: &[Symbol<'_>]) -> bool
    ensures { result ≡ starts (numbers INTEGER 7) symbols.now }
{
    match symbols {
        [] => false,
        [symbol, ..] => is_literal_sort(symbol.sort),
    }
}

// What is behind a literal.
#[tactic(auto, unfolding(decl_grammar::specs::Reading::one_at))]
fn read_literal<'a, 's>(symbols: &'s [Symbol<'a>]) -> Result<&'s [Symbol<'a>], ReadFault>
    ensures { Gives (λ x. (tt, x.now)) result (turned silently (one_at (numbers INTEGER 7) symbols.now)) }
{
    match symbols {
        [] => Err(ReadFault::Bad(0)),
        [symbol, rest @ ..] => {
            if is_literal_sort(symbol.sort) {
                return Ok(rest);
            }
            Err(ReadFault::Bad(symbols.len()))
        }
    }
}

// What is behind a numeral.
#[tactic(auto, unfolding(decl_grammar::specs::Reading::one_at))]
fn read_numeral<'a, 's>(
    symbols: &'s [Symbol<'a>],
) -> Result<(&'s Symbol<'a>, &'s [Symbol<'a>]), ReadFault>
    ensures { Gives (λ x. (x.0.now, x.1.now)) result (one_at (INTEGER ∷ FLOATING ∷ []) symbols.now) }
{
    match symbols {
        [] => Err(ReadFault::Bad(0)),
        [symbol, rest @ ..] => {
            if symbol.sort == INTEGER || symbol.sort == FLOATING {
                return Ok((symbol, rest));
            }
            Err(ReadFault::Bad(symbols.len()))
        }
    }
}

// A literal, or names that dots join.
#[tactic(auto, unfolding(decl_grammar::specs::Expressions::plain_constant))]
fn plain_constant_of<'a, 's>(
    alloc: Global,
    room: usize,
    symbols: &'s [Symbol<'a>],
) -> Result<&'s [Symbol<'a>], ReadFault>
    ensures { Gives (λ x. (tt, x.now)) result (reads room plain_constant symbols.now) }
{
    if starts_literal(symbols) {
        return read_literal(symbols);
    }
    let (_, rest) = read_chain(alloc, room, symbols)?;
    Ok(rest)
}

// `+`, and such a constant.
#[tactic(auto, unfolding(decl_grammar::specs::Expressions::plus_constant))]
fn plus_constant_of<'a, 's>(
    alloc: Global,
    room: usize,
    symbols: &'s [Symbol<'a>],
) -> Result<&'s [Symbol<'a>], ReadFault>
    ensures { Gives (λ x. (tt, x.now)) result (reads room plus_constant symbols.now) }
{
    let (_, rest) = one(symbols, PLUS)?;
    plain_constant_of(alloc, room, rest)
}

// What is behind all that a `+` joins here.
fn more_plus_of<'a, 's>(
    alloc: Global,
    room: usize,
    symbols: &'s [Symbol<'a>],
) -> Result<&'s [Symbol<'a>], ReadFault>
    ensures { Gives (λ x. (tt, x.now)) result (read_as silently room (many plus_constant) symbols.now) }
{
    let mut rest = begin(symbols)?;
    'row: while is_next(rest, PLUS) {
        rest = plus_constant_of(alloc, room, rest)?;
    }
    Ok(rest)
}

// `[` and `]`.
#[tactic(auto, unfolding(decl_grammar::specs::Expressions::bare_dim))]
fn bare_dim_of<'a, 's>(
    room: usize,
    symbols: &'s [Symbol<'a>],
) -> Result<(&'s Symbol<'a>, &'s [Symbol<'a>]), ReadFault>
    ensures { Gives (λ x. (x.0.now, x.1.now)) result (reads room bare_dim symbols.now) }
{
    let (_, rest) = one(symbols, OPEN_BRACKET)?;
    one(rest, CLOSE_BRACKET)
}

// What is behind all pairs of brackets.
fn more_bare_dims_of<'a, 's>(
    room: usize,
    symbols: &'s [Symbol<'a>],
) -> Result<&'s [Symbol<'a>], ReadFault>
    ensures { Gives (λ x. (tt, x.now)) result (read_as silently room (many bare_dim) symbols.now) }
{
    let mut rest = begin(symbols)?;
    'row: while is_next(rest, OPEN_BRACKET) {
        let (_, after) = bare_dim_of(room, rest)?;
        rest = after;
    }
    Ok(rest)
}

// `.` and `class`.
#[tactic(auto, unfolding(decl_grammar::specs::Expressions::dot_class))]
fn dot_class_of<'a, 's>(
    room: usize,
    symbols: &'s [Symbol<'a>],
) -> Result<(&'s Symbol<'a>, &'s [Symbol<'a>]), ReadFault>
    ensures { Gives (λ x. (x.0.now, x.1.now)) result (reads room dot_class symbols.now) }
{
    let (_, rest) = one(symbols, DOT)?;
    one(rest, CLASS)
}

// Pairs of brackets, and `.class`.
#[tactic(auto, unfolding(crate::specs::ConstantParts::dims_class))]
fn dims_class_of<'a, 's>(
    room: usize,
    symbols: &'s [Symbol<'a>],
) -> Result<(&'s Symbol<'a>, &'s [Symbol<'a>]), ReadFault>
    ensures { Gives (λ x. (x.0.now, x.1.now)) result (reads room dims_class symbols.now) }
{
    let rest = more_bare_dims_of(room, symbols)?;
    dot_class_of(room, rest)
}

// Pairs of brackets, of which there is one, and `.class`.
#[tactic(auto, unfolding(decl_grammar::specs::Expressions::array_class, crate::specs::ConstantParts::dims_class))]
fn array_class_of<'a, 's>(
    room: usize,
    symbols: &'s [Symbol<'a>],
) -> Result<(&'s Symbol<'a>, &'s [Symbol<'a>]), ReadFault>
    ensures { Gives (λ x. (x.0.now, x.1.now)) result (reads room array_class symbols.now) }
{
    let (_, rest) = bare_dim_of(room, symbols)?;
    dims_class_of(room, rest)
}

// Whether brackets or a `+` go on behind a name.
fn starts_chain_end(symbols: &[Symbol<'_>]) -> bool
    ensures { result ≡ starts (OPEN_BRACKET ∷ PLUS ∷ []) symbols.now }
{
    is_next(symbols, OPEN_BRACKET) || is_next(symbols, PLUS)
}

// Whether what goes on behind a name begins here.
fn starts_chain(symbols: &[Symbol<'_>]) -> bool
    ensures { result ≡ starts (DOT ∷ OPEN_BRACKET ∷ PLUS ∷ []) symbols.now }
{
    is_next(symbols, DOT) || starts_chain_end(symbols)
}

// Behind a name what is no further name: brackets and `.class`, or what a `+` joins.
#[tactic(auto, using(crate::proofs::ConstantFirsts::array_class_first), unfolding(crate::specs::ConstantParts::chain_end))]
fn chain_end_of<'a, 's>(
    alloc: Global,
    room: usize,
    symbols: &'s [Symbol<'a>],
) -> Result<&'s [Symbol<'a>], ReadFault>
    ensures { Gives (λ x. (tt, x.now)) result (reads room chain_end symbols.now) }
{
    if is_next(symbols, OPEN_BRACKET) {
        let (_, rest) = array_class_of(room, symbols)?;
        return Ok(rest);
    }
    let rest = plus_constant_of(alloc, room, symbols)?;
    more_plus_of(alloc, room, rest)
}

// `.`, and `class` or a name; whether what goes on behind a name begins behind it.
fn chain_step_of<'a, 's>(
    room: usize,
    symbols: &'s [Symbol<'a>],
) -> Result<(bool, &'s [Symbol<'a>]), ReadFault>
    ensures { Gives (λ x. (x.0, x.1.now)) result (chain_step room symbols.now) }
{
    let (_, rest) = one(symbols, DOT)?;
    if is_next(rest, CLASS) {
        let (_, rest) = one(rest, CLASS)?;
        return Ok((false, rest));
    }
    let (_, rest) = read_name(room, rest)?;
    Ok((starts_chain(rest), rest))
}

// What is behind all that goes on behind a name.
fn chain_of<'a, 's>(
    alloc: Global,
    room: usize,
    symbols: &'s [Symbol<'a>],
) -> Result<&'s [Symbol<'a>], ReadFault>
    ensures { Gives (λ x. (tt, x.now)) result (read_nest room constant_chain symbols.now) }
{
    let mut rest = begin(symbols)?;
    'row: while is_next(rest, DOT) {
        let (more, after) = chain_step_of(room, rest)?;
        if !more {
            return Ok(after);
        }
        rest = after;
    }
    chain_end_of(alloc, room, rest)
}

// A literal, and what a `+` joins to it.
#[tactic(auto, unfolding(decl_grammar::specs::Expressions::literal_constant))]
fn literal_constant_of<'a, 's>(
    alloc: Global,
    room: usize,
    symbols: &'s [Symbol<'a>],
) -> Result<&'s [Symbol<'a>], ReadFault>
    ensures { Gives (λ x. (tt, x.now)) result (reads room literal_constant symbols.now) }
{
    let rest = read_literal(symbols)?;
    more_plus_of(alloc, room, rest)
}

// A name, and what goes on behind it.
#[tactic(auto, unfolding(decl_grammar::specs::Expressions::named_constant))]
fn named_constant_of<'a, 's>(
    alloc: Global,
    room: usize,
    symbols: &'s [Symbol<'a>],
) -> Result<&'s [Symbol<'a>], ReadFault>
    ensures { Gives (λ x. (tt, x.now)) result (reads room named_constant symbols.now) }
{
    let (_, rest) = read_name(room, symbols)?;
    if starts_chain(rest) {
        return chain_of(alloc, room, rest);
    }
    Ok(rest)
}

// A negated numeral.
#[tactic(auto, unfolding(decl_grammar::specs::Expressions::negated_constant))]
fn negated_constant_of<'a, 's>(
    room: usize,
    symbols: &'s [Symbol<'a>],
) -> Result<&'s [Symbol<'a>], ReadFault>
    ensures { Gives (λ x. (tt, x.now)) result (reads room negated_constant symbols.now) }
{
    let (_, rest) = one(symbols, MINUS)?;
    let (_, rest) = read_numeral(rest)?;
    Ok(rest)
}

// The class literal of a primitive type or of an array of one.
#[tactic(auto, unfolding(decl_grammar::specs::Expressions::primitive_class, crate::specs::ConstantParts::dims_class))]
fn primitive_class_of<'a, 's>(
    room: usize,
    symbols: &'s [Symbol<'a>],
) -> Result<&'s [Symbol<'a>], ReadFault>
    ensures { Gives (λ x. (tt, x.now)) result (reads room primitive_class symbols.now) }
{
    let (_, rest) = primitive_type_of(room, symbols)?;
    let (_, rest) = dims_class_of(room, rest)?;
    Ok(rest)
}

// `void.class`.
#[tactic(auto, unfolding(decl_grammar::specs::Expressions::void_class))]
fn void_class_of<'a, 's>(
    room: usize,
    symbols: &'s [Symbol<'a>],
) -> Result<&'s [Symbol<'a>], ReadFault>
    ensures { Gives (λ x. (tt, x.now)) result (reads room void_class symbols.now) }
{
    let (_, rest) = one(symbols, VOID)?;
    let (_, rest) = dot_class_of(room, rest)?;
    Ok(rest)
}

// A constant form that is no array and no annotation, as its symbols.
#[tactic(auto, using(crate::proofs::ConstantFirsts::literal_constant_first, crate::proofs::ConstantFirsts::named_constant_first, crate::proofs::ConstantFirsts::negated_constant_first, crate::proofs::ConstantFirsts::primitive_class_first), unfolding(decl_grammar::specs::Expressions::plain_form))]
fn plain_form_of<'a, 's>(
    alloc: Global,
    room: usize,
    symbols: &'s [Symbol<'a>],
) -> Result<&'s [Symbol<'a>], ReadFault>
    ensures { Gives (λ x. (tt, x.now)) result (reads room plain_form symbols.now) }
{
    if starts_literal(symbols) {
        return literal_constant_of(alloc, room, symbols);
    }
    if starts_name(symbols) {
        return named_constant_of(alloc, room, symbols);
    }
    if is_next(symbols, MINUS) {
        return negated_constant_of(room, symbols);
    }
    if starts_primitive(symbols) {
        return primitive_class_of(room, symbols);
    }
    void_class_of(room, symbols)
}

/// The same with its meaning.
#[tactic(auto, unfolding(crate::specs::ConstantParts::plain_value_form))]
pub fn plain_value_of<'a, 's>(
    alloc: Global,
    room: usize,
    symbols: &'s [Symbol<'a>],
) -> Result<(ValueText, &'s [Symbol<'a>]), ReadFault>
    ensures { Gives (λ x. (x.0, x.1.now)) result (reads room plain_value_form symbols.now) }
{
    let rest = plain_form_of(alloc, room, symbols)?;
    let value = meaning_of(alloc, symbols, rest.len())?;
    Ok((value, rest))
}

/// What an expression means, where this much of the symbols is left behind it.
pub fn meaning_of(
    alloc: Global,
    symbols: &[Symbol<'_>],
    left: usize,
) -> Result<ValueText, ReadFault>
    requires { left ≤ length symbols.now }
    ensures { UnlessMemory result (λ v. v ≡ expression_of (take (length symbols.now - left) symbols.now)) }
{
    expression_value(alloc, &symbols[..symbols.len() - left])
}
