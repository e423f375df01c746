// How many symbols separate items.
ghost use Rattle.std.specs.Prelude.{◌≡◌};
ghost use Rattle.decl_limits.specs.Separators.{separators};

use decl_grammar::Symbol;
use decl_grammar::sorts::{CLOSE_BRACE, COMMA, SEMICOLON};

/// How many of these symbols are a `,`, a `;` or a `}`: each item of a child list but a few has one of its own.
#[tactic(auto, unfolding(crate::specs::Separators::separators))]
pub fn count_separators(symbols: &[Symbol<'_>]) -> usize
    ensures { result ≡ separators symbols.now }
{
    let mut count = 0;
    for symbol in symbols {
        if symbol.sort == CLOSE_BRACE || symbol.sort == SEMICOLON || symbol.sort == COMMA {
            count += 1;
        }
    }
    count
}
