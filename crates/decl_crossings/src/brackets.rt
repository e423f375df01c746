// Passes over the brackets behind the name of a field.
ghost use Rattle.std.specs.Prelude.{◌≤◌, length};
ghost use Rattle.decl_grammar.specs.Form.{many, turned};
ghost use Rattle.decl_grammar.specs.Types.{dim, silently};
ghost use Rattle.decl_grammar.specs.Reading.{Gives};
ghost use Rattle.decl_grammar.specs.Rule.{reads};
ghost use Rattle.decl_crossings.specs.Steps.{Passes, WhereSome};

use decl_grammar::{ReadFault, Symbol};
use decl_values::dims_of;
use std::alloc::Global;

// What stands behind pairs of brackets.
fn after_dims<'a, 's>(
    alloc: Global,
    room: usize,
    symbols: &'s [Symbol<'a>],
) -> Result<&'s [Symbol<'a>], ReadFault>
    ensures { Gives (λ x. (tt, x.now)) result (turned silently (reads room (many dim) symbols.now)) }
{
    let (_, rest) = dims_of(alloc, room, symbols)?;
    Ok(rest)
}

/// What stands behind the pairs of brackets that stand here, where these are whole.
pub fn behind_dims<'a, 's>(
    alloc: Global,
    room: usize,
    symbols: &'s [Symbol<'a>],
) -> Result<Option<&'s [Symbol<'a>]>, ReadFault>
    ensures passes { Passes (turned silently (reads room (many dim) symbols.now)) result }
    ensures smaller { WhereSome result (λ rest. length rest.now ≤ length symbols.now) }
{
    match after_dims(alloc, room, symbols) {
        Ok(rest) => Ok(Some(rest)),
        Err(ReadFault::Memory) => Err(ReadFault::Memory),
        Err(ReadFault::Bad(_)) => Ok(None),
        Err(ReadFault::Deep(_)) => Ok(None),
    }
}
