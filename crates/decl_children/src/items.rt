// Lists of which each item has a comma behind it: type parameters and the constants of an enum.
ghost use Rattle.std.specs.Prelude.{◌≡◌, ◌≤◌, ◌*◌, ◌++◌, true, [], ◌∷◌, length, drop};
ghost use Rattle.decl_grammar.specs.Reading.{starts};
ghost use Rattle.decl_grammar.specs.Form.{ats, names};
ghost use Rattle.decl_children.specs.Fronts.{Tells};
ghost use Rattle.decl_children.specs.Walks.{TypeParamsCrowd, ConstantsCrowd};

use crate::steps::{behind, read_or_none};
use apt_base::{MAX_CHILDREN, NoMemory};
use decl_grammar::Symbol;
use decl_grammar::sorts::{COMMA, LESS_THAN, OPEN_BRACE};
use decl_members::{constant_in, starts_constant};
use decl_types::type_param_of;
use decl_values::{is_next, starts_annotation, starts_name};
use std::alloc::Global;

// Whether a type parameter may begin here.
fn starts_type_param(symbols: &[Symbol<'_>]) -> bool
    ensures { result ≡ starts (ats ++ names) symbols.now }
{
    starts_annotation(symbols) || starts_name(symbols)
}

/// Whether type parameters, from their `<` on, are too many: a further one begins behind the most.
pub fn type_params_full(
    alloc: Global,
    room: usize,
    symbols: &[Symbol<'_>],
) -> Result<bool, NoMemory>
    requires room { 3 * length symbols.now ≤ room }
    requires opened { starts (LESS_THAN ∷ []) symbols.now ≡ true }
    ensures { Tells (TypeParamsCrowd symbols.now) result }
{
    let mut count: usize = 0;
    let mut rest = behind(symbols);
    'row: while starts_type_param(rest) {
        if count >= MAX_CHILDREN {
            return Ok(true);
        }
        let Some((_, after)) = read_or_none(type_param_of(alloc, room, rest))? else {
            return Ok(false);
        };
        if !is_next(after, COMMA) {
            return Ok(false);
        }
        count += 1;
        rest = behind(after);
    }
    Ok(false)
}

/// Whether the constants of an enum, from its `{` on, are too many.
pub fn constants_full(alloc: Global, room: usize, symbols: &[Symbol<'_>]) -> Result<bool, NoMemory>
    requires room { 3 * length symbols.now ≤ room }
    requires opened { starts (OPEN_BRACE ∷ []) symbols.now ≡ true }
    ensures { Tells (ConstantsCrowd symbols.now) result }
{
    let mut count: usize = 0;
    let mut rest = behind(symbols);
    'row: while starts_constant(rest) {
        if count >= MAX_CHILDREN {
            return Ok(true);
        }
        let Some((_, after)) = read_or_none(constant_in(alloc, room, rest))? else {
            return Ok(false);
        };
        if !is_next(after, COMMA) {
            return Ok(false);
        }
        count += 1;
        rest = behind(after);
    }
    Ok(false)
}
