// Which parts of expressions begin here.
ghost use Rattle.std.specs.Prelude.{◌≡◌, ◌∷◌};
ghost use Rattle.decl_grammar.specs.Reading.{Gives, starts, one_at};
ghost use Rattle.decl_grammar.specs.Form.{ats, first_of_part, turned};
ghost use Rattle.decl_grammar.specs.Types.{silently};
ghost use Rattle.decl_turns.specs.States.{sorts_at, part_at};

use crate::states::Piece;
use decl_grammar::sorts::{
    DOT, INSTANCEOF, LESS_THAN, NEW, OPEN_BRACE, OPEN_BRACKET, OPEN_PARENTHESIS,
};
use decl_grammar::{ReadFault, Symbol};
use decl_names::{is_next, is_square_or_at, starts_annotation};

/// What is behind the next symbol.
#[tactic(auto, unfolding(decl_grammar::specs::Reading::one_at))]
pub fn pass_one<'a, 's>(symbols: &'s [Symbol<'a>]) -> Result<&'s [Symbol<'a>], ReadFault>
    ensures { Gives (λ x. (tt, x.now)) result (turned silently (one_at (sorts_at symbols.now) symbols.now)) }
{
    match symbols {
        [] => Err(ReadFault::Bad(0)),
        [_, rest @ ..] => Ok(rest),
    }
}

// Whether any symbol is left.
fn is_any(symbols: &[Symbol<'_>]) -> bool
    ensures { result ≡ starts (sorts_at symbols.now) symbols.now }
{
    match symbols {
        [] => false,
        [_, ..] => true,
    }
}

// Whether a pair of brackets of a type that is tested begins here.
fn starts_tested_dim(symbols: &[Symbol<'_>]) -> bool
    ensures { result ≡ starts (OPEN_BRACKET ∷ ats) symbols.now }
{
    match symbols {
        [] => false,
        [symbol, ..] => is_square_or_at(symbol.sort),
    }
}

/// Whether this part begins here.
pub fn begins_part(piece: Piece, symbols: &[Symbol<'_>]) -> bool
    ensures { result ≡ starts (first_of_part (part_at piece symbols.now)) symbols.now }
{
    match piece {
        Piece::One => is_any(symbols),
        Piece::Round => is_next(symbols, OPEN_PARENTHESIS),
        Piece::Brace => is_next(symbols, OPEN_BRACE),
        Piece::Square => is_next(symbols, OPEN_BRACKET),
        Piece::Arguments => is_next(symbols, LESS_THAN),
        Piece::Annotated => starts_annotation(symbols),
        Piece::Created => is_next(symbols, NEW),
        Piece::Reference => is_next(symbols, LESS_THAN),
        Piece::Tested => is_next(symbols, INSTANCEOF),
        Piece::TestedName => is_next(symbols, DOT),
        Piece::TestedDim => starts_tested_dim(symbols),
    }
}
