// What an expression begins with, by where it stands and by its first symbol (JLS 15).
ghost use Rattle.std.specs.Prelude.{◌≡◌};
ghost use Rattle.decl_grammar.specs.Form.{first_names};
ghost use Rattle.decl_turns.specs.States.{stands_of, leave_first};
ghost use Rattle.decl_turns.specs.Turns.{valued_at, value_signs_next, value_first, assigned_first, first_of_sort, first_at};

use crate::states::{Before, Leave, Next, Piece, Place};
use crate::turns::{
    braces_then, part_then, plain_dots_then, signs_then, symbol_then, told_first, told_then,
};
use decl_grammar::Symbol;
use decl_grammar::sorts::{LESS_THAN, OPEN_BRACKET};

// How a value that is no array and no annotation begins, names and signs that may stand anywhere aside.
fn value_signs_then(sort: u8) -> Next
    ensures { result ≡ value_signs_next sort }
{
    if sort == LESS_THAN {
        return symbol_then(Before::Between);
    }
    if let Some(next) = plain_dots_then(sort) {
        return next;
    }
    if sort == OPEN_BRACKET {
        return part_then(Piece::Square, Before::Between);
    }
    Next::Nothing
}

// How a value that is no array and no annotation begins.
fn value_then(place: Place, sort: u8) -> Next
    ensures { result ≡ value_first (first_names (stands_of place)) sort }
{
    if let Some(next) = told_first(place, sort) {
        return next;
    }
    value_signs_then(sort)
}

// How an initialiser begins.
fn assigned_then(sort: u8) -> Next
    ensures { result ≡ assigned_first sort }
{
    if let Some(next) = told_then(Before::Between, sort) {
        return next;
    }
    if let Some(next) = signs_then(false, Before::Between, sort) {
        return next;
    }
    if let Some(next) = braces_then(Place::Assigned, Leave::Anywhere, sort) {
        return next;
    }
    Next::Nothing
}

// How an expression begins with this sort.
fn first_then(place: Place, sort: u8) -> Next
    ensures { result ≡ first_of_sort (valued_at place) (first_names (stands_of place)) sort }
{
    match place {
        Place::Assigned => assigned_then(sort),
        Place::Alone => value_then(place, sort),
        Place::Paired => value_then(place, sort),
        Place::Listed => value_then(place, sort),
        Place::Defaulted => value_then(place, sort),
    }
}

/// How an expression begins here.
pub fn first_next(place: Place, symbols: &[Symbol<'_>]) -> Next
    ensures { result ≡ first_at place symbols.now }
{
    match symbols {
        [] => Next::Nothing,
        [symbol, ..] => first_then(place, symbol.sort),
    }
}

/// Where a `=` is allowed where an expression begins.
pub fn first_leave(place: Place) -> Leave
    ensures { result ≡ leave_first place }
{
    match place {
        Place::Alone => Leave::Within(0),
        Place::Paired => Leave::Within(0),
        Place::Listed => Leave::Within(0),
        Place::Defaulted => Leave::Within(0),
        Place::Assigned => Leave::Anywhere,
    }
}
