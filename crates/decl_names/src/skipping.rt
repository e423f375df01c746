// Passes over what stands between brackets.
ghost use Rattle.std.specs.Prelude.{◌≡◌, ◌<◌, ℕ, suc, [], ◌∷◌, List, length, IfOk, Ok, Some, None};
ghost use Rattle.decl_grammar.specs.Reading.{Gives, has, starts, openers, closers, pass, skip, one_at};

use decl_grammar::sorts::{
    CLOSE_BRACE, CLOSE_BRACKET, CLOSE_PARENTHESIS, OPEN_BRACE, OPEN_BRACKET, OPEN_PARENTHESIS,
};
use decl_grammar::{ReadFault, Symbol};
use std::alloc::Global;

/// Whether a symbol of this sort opens a bracket.
pub fn is_opening(sort: u8) -> bool
    ensures { result ≡ has openers sort }
{
    sort == OPEN_PARENTHESIS || sort == OPEN_BRACE || sort == OPEN_BRACKET
}

// Whether a closing bracket has this sort.
fn is_closing(sort: u8) -> bool
    ensures { result ≡ has closers sort }
{
    sort == CLOSE_PARENTHESIS || sort == CLOSE_BRACE || sort == CLOSE_BRACKET
}

/// The sort of the bracket that closes one of this sort.
pub fn closer_of(sort: u8) -> u8
    requires { sort < 255 }
    ensures { result ≡ suc sort }
{
    sort + 1
}

/// What is behind the bracket that closes this one. Brackets stand in pairs up to there.
#[tactic(auto, unfolding(decl_grammar::specs::Reading::pass))]
pub fn pass_over<'a, 's>(
    alloc: Global,
    closer: u8,
    symbols: &'s [Symbol<'a>],
) -> Result<&'s [Symbol<'a>], ReadFault>
    ensures { Gives (λ x. (tt, x.now)) result (pass (closer ∷ []) symbols.now) }
{
    let mut open = Vec::new(alloc);
    open.push(closer)?;
    let mut rest = symbols;
    'brackets: while let Some(expected) = open.pop() {
        let [symbol, after @ ..] = rest else {
            return Err(ReadFault::Bad(0));
        };
        let sort = symbol.sort;
        if sort != expected {
            if is_closing(sort) {
                return Err(ReadFault::Bad(rest.len()));
            }
            open.push(expected)?;
            if is_opening(sort) {
                open.push(closer_of(sort))?;
            }
        }
        rest = after;
    }
    Ok(rest)
}

/// What is behind a bracket of this sort and all up to where it is closed.
#[tactic(auto, unfolding(decl_grammar::specs::Reading::one_at))]
pub fn read_over<'a, 's>(
    alloc: Global,
    sort: u8,
    symbols: &'s [Symbol<'a>],
) -> Result<&'s [Symbol<'a>], ReadFault>
    requires { sort < 255 }
    ensures { Gives (λ x. (tt, x.now)) result (skip (sort ∷ []) symbols.now) }
{
    match symbols {
        [] => Err(ReadFault::Bad(0)),
        [symbol, rest @ ..] => {
            if symbol.sort == sort {
                return pass_over(alloc, closer_of(sort), rest);
            }
            Err(ReadFault::Bad(symbols.len()))
        }
    }
}
