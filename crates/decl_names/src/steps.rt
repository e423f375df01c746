// Reads single symbols.
ghost use Rattle.std.specs.Prelude.{◌≡◌, [], ◌∷◌, List, length, IfOk, Ok, MatchResult, if◌then◌else◌};
ghost use Rattle.decl_grammar.specs.Reading.{Gives, shut_fault, one_at, starts};
ghost use Rattle.decl_grammar.specs.declared.fault.ReadFault.TheVariants as faults;

use decl_grammar::{ReadFault, Symbol};

/// Whether the next symbol is of this sort.
pub fn is_next(symbols: &[Symbol<'_>], sort: u8) -> bool
    ensures { result ≡ starts (sort ∷ []) symbols.now }
{
    match symbols {
        [] => false,
        [symbol, ..] => symbol.sort == sort,
    }
}

/// What follows the next symbol, which must be of this sort.
#[tactic(auto, unfolding(decl_grammar::specs::Reading::one_at))]
pub fn one<'a, 's>(
    symbols: &'s [Symbol<'a>],
    sort: u8,
) -> Result<(&'s Symbol<'a>, &'s [Symbol<'a>]), ReadFault>
    ensures { Gives (λ x. (x.0.now, x.1.now)) result (one_at (sort ∷ []) symbols.now) }
{
    match symbols {
        [] => Err(ReadFault::Bad(0)),
        [symbol, rest @ ..] => {
            if symbol.sort == sort {
                Ok((symbol, rest))
            } else {
                Err(ReadFault::Bad(symbols.len()))
            }
        }
    }
}

/// The symbols themselves, as a call gives them, from which a loop begins. It gives no fault.
pub fn begin<'a, 's>(symbols: &'s [Symbol<'a>]) -> Result<&'s [Symbol<'a>], ReadFault>
    ensures { MatchResult result (λ rest. rest.now ≡ symbols.now) (λ e. ⊥) }
{
    Ok(symbols)
}

/// The fault where a form that counts as nesting is to be read with no room left: too deep, if the form begins here,
/// and otherwise a fault of the grammar.
pub fn shut(begins: bool, symbols: &[Symbol<'_>]) -> ReadFault
    ensures { result ≡ shut_fault begins symbols.now }
{
    if begins {
        ReadFault::Deep(symbols.len())
    } else {
        ReadFault::Bad(symbols.len())
    }
}
