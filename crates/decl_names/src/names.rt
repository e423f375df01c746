// Reads names.
ghost use Rattle.std.specs.Prelude.{◌≡◌, [], ◌∷◌, List, length, IfOk, Ok, string_bytes, ◌++◌, codes};
ghost use Rattle.decl_grammar.specs.Reading.{Gives, has, one_at, starts};
ghost use Rattle.decl_grammar.specs.Form.{names, many, turned};
ghost use Rattle.decl_grammar.specs.Constants.{more_dotted};
ghost use Rattle.decl_grammar.specs.Rows.{names_behind};
ghost use Rattle.decl_grammar.specs.Types.{name, name_at, dot_name, name_chain};
ghost use Rattle.decl_grammar.specs.Rule.{reads};

use crate::steps::{begin, is_next, one};
use apt_base::Name;
use decl_grammar::sorts::{DOT, IDENTIFIER, NAMED};
use decl_grammar::{NameAt, ReadFault, Symbol};
use std::alloc::Global;

/// Whether a name has this sort.
pub fn is_name_sort(sort: u8) -> bool
    ensures { result ≡ has names sort }
{
    sort == IDENTIFIER || sort == NAMED
}

/// Whether a name begins here.
pub fn starts_name(symbols: &[Symbol<'_>]) -> bool
    ensures { result ≡ starts names symbols.now }
{
    match symbols {
        [] => false,
        [symbol, ..] => symbol.sort == IDENTIFIER || symbol.sort == NAMED,
    }
}

/// A name (JLS 3.8).
#[tactic(auto, unfolding(decl_grammar::specs::Reading::one_at, decl_grammar::specs::Types::name))]
pub fn read_name<'a, 's>(
    room: usize,
    symbols: &'s [Symbol<'a>],
) -> Result<(&'a str, &'s [Symbol<'a>]), ReadFault>
    ensures { Gives (λ x. (x.0.now, x.1.now)) result (reads room name symbols.now) }
{
    match symbols {
        [] => Err(ReadFault::Bad(0)),
        [symbol, rest @ ..] => {
            if symbol.sort == IDENTIFIER || symbol.sort == NAMED {
                Ok((symbol.text.as_str(), rest))
            } else {
                Err(ReadFault::Bad(symbols.len()))
            }
        }
    }
}

/// A name with its line.
#[tactic(auto, unfolding(decl_grammar::specs::Reading::one_at))]
pub fn read_name_at<'a, 's>(
    alloc: Global,
    room: usize,
    symbols: &'s [Symbol<'a>],
) -> Result<(NameAt, &'s [Symbol<'a>]), ReadFault>
    ensures { Gives (λ x. (x.0, x.1.now)) result (reads room name_at symbols.now) }
{
    match symbols {
        [] => Err(ReadFault::Bad(0)),
        [symbol, rest @ ..] => {
            if symbol.sort == IDENTIFIER || symbol.sort == NAMED {
                let name = Name::new(alloc, symbol.text.as_str())?;
                let line = symbol.line;
                Ok((NameAt { name, line }, rest))
            } else {
                Err(ReadFault::Bad(symbols.len()))
            }
        }
    }
}

// A `.` and a name.
#[tactic(auto, unfolding(decl_grammar::specs::Types::dot_name))]
fn read_dot_name<'a, 's>(
    room: usize,
    symbols: &'s [Symbol<'a>],
) -> Result<(&'a str, &'s [Symbol<'a>]), ReadFault>
    ensures { Gives (λ x. (x.0.now, x.1.now)) result (reads room dot_name symbols.now) }
{
    let (_, rest) = one(symbols, DOT)?;
    read_name(room, rest)
}

/// Names that dots join, as one text (JLS 6.5).
#[tactic(auto, unfolding(decl_grammar::specs::Types::name_chain))]
pub fn read_chain<'a, 's>(
    alloc: Global,
    room: usize,
    symbols: &'s [Symbol<'a>],
) -> Result<(Name, &'s [Symbol<'a>]), ReadFault>
    ensures { Gives (λ x. (x.0, x.1.now)) result (reads room name_chain symbols.now) }
{
    let (first, rest) = read_name(room, symbols)?;
    let front = String::from_str(alloc, first)?;
    more_names_of(alloc, room, front, rest)
}

// The names behind dots, put behind a text.
fn more_names_of<'a, 's>(
    alloc: Global,
    room: usize,
    front: String,
    symbols: &'s [Symbol<'a>],
) -> Result<(Name, &'s [Symbol<'a>]), ReadFault>
    ensures { Gives (λ x. (x.0, x.1.now)) result (names_behind (string_bytes front) room symbols.now) }
{
    let mut text = front;
    let mut rest = begin(symbols)?;
    'row: while is_next(rest, DOT) {
        let (next, after) = read_dot_name(room, rest)?;
        text.push('.')?;
        text.push_str(next)?;
        rest = after;
    }
    Ok((Name::from_string(alloc, text), rest))
}
