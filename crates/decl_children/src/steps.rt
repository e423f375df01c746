// Steps over symbols, and what a reader gave.
ghost use Rattle.std.specs.Prelude.{◌≡◌, drop, Some, None, IfOk};
ghost use Rattle.decl_children.specs.Fronts.{ReadOrNone};

use apt_base::NoMemory;
use decl_grammar::{ReadFault, Symbol};

/// What is behind the next symbol.
pub fn behind<'a, 's>(symbols: &'s [Symbol<'a>]) -> &'s [Symbol<'a>]
    ensures { result.now ≡ drop 1 symbols.now }
{
    if let [_, rest @ ..] = symbols {
        return rest;
    }
    symbols
}

/// The symbols themselves, as a call gives them, from which a loop begins.
pub fn all<'a, 's>(symbols: &'s [Symbol<'a>]) -> &'s [Symbol<'a>]
    ensures { result.now ≡ symbols.now }
{
    symbols
}

/// What was read, or none where the symbols end within it or are faulty.
pub fn read_or_none<T: Drop>(read: Result<T, ReadFault>) -> Result<Option<T>, NoMemory>
    ensures { IfOk result (λ o. ReadOrNone read o) }
{
    match read {
        Ok(value) => Ok(Some(value)),
        Err(ReadFault::Memory) => Err(NoMemory),
        Err(ReadFault::Bad(_)) => Ok(None),
        Err(ReadFault::Deep(_)) => Ok(None),
    }
}
