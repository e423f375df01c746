// A walk over a file: its package, its imports, and its types one by one (JLS 7.3 to 7.6).
ghost use Rattle.std.specs.Prelude.{◌≤◌, ◌*◌, ℕ, length};
ghost use Rattle.decl_grammar.specs.File.{BeginsPhrase};
ghost use Rattle.decl_grammar.specs.Reading.{Gives};
ghost use Rattle.decl_grammar.specs.Form.{maybe};
ghost use Rattle.decl_grammar.specs.Grammar.{ordinary, package_form};
ghost use Rattle.decl_grammar.specs.Rule.{reads};
ghost use Rattle.decl_limits.specs.Children.{IsCrowded};
ghost use Rattle.decl_children.specs.Fronts.{Tells};
ghost use Rattle.decl_children.specs.Members.{TypesCrowd};
ghost use Rattle.decl_children.specs.TypeWalks.{Walks};
ghost use Rattle.decl_children.specs.TopSteps.{TopCrowds, TopEnds};

use crate::steps::{all, behind, read_or_none};
use crate::types::walk_type;
use crate::walks::Walk;
use apt_base::NoMemory;
use decl_grammar::sorts::{PACKAGE, SEMICOLON};
use decl_grammar::{NameAt, ReadFault, Symbol};
use decl_limits::most_separators;
use decl_types::{package_of, type_modifiers_of};
use decl_values::{imports_of, is_next};
use std::alloc::Global;

// Where no more symbols than these separate within the same braces, no child list is too long.
const FEW: usize = 32_765;

// A type with its modifiers, or a `;`.
fn walk_top<'a, 's>(
    alloc: Global,
    room: usize,
    symbols: &'s [Symbol<'a>],
) -> Result<Walk<'a, 's>, NoMemory>
    requires room { 3 * length symbols.now ≤ room }
    ensures { Walks (TopCrowds symbols.now) (TopEnds symbols.now) result }
{
    if is_next(symbols, SEMICOLON) {
        return Ok(Walk::Behind(behind(symbols)));
    }
    let Some((_, rest)) = read_or_none(type_modifiers_of(alloc, room, symbols))? else {
        return Ok(Walk::Ended);
    };
    walk_type(alloc, room, rest)
}

// Whether one of the types is full.
fn types_full(alloc: Global, room: usize, symbols: &[Symbol<'_>]) -> Result<bool, NoMemory>
    requires room { 3 * length symbols.now ≤ room }
    ensures { Tells (TypesCrowd symbols.now) result }
{
    let mut rest = all(symbols);
    'row: loop {
        match walk_top(alloc, room, rest)? {
            Walk::Full => return Ok(true),
            Walk::Ended => return Ok(false),
            Walk::Behind(after) => rest = all(after),
        }
    }
}

// The package, where one stands here.
#[tactic(auto, using(decl_grammar::proofs::Firsts::package_form_first))]
fn optional_package_of<'a, 's>(
    alloc: Global,
    room: usize,
    symbols: &'s [Symbol<'a>],
) -> Result<(Option<NameAt>, &'s [Symbol<'a>]), ReadFault>
    ensures { Gives (λ x. (x.0, x.1.now)) result (reads room (maybe package_form) symbols.now) }
{
    if is_next(symbols, PACKAGE) {
        let (name, rest) = package_of(alloc, room, symbols)?;
        return Ok((Some(name), rest));
    }
    Ok((None, symbols))
}

// Whether a child list is too long, where so much room is enough.
fn file_full(alloc: Global, room: usize, symbols: &[Symbol<'_>]) -> Result<bool, NoMemory>
    requires room { 3 * length symbols.now ≤ room }
    ensures { Tells (IsCrowded symbols.now) result }
{
    let Some((_, unpackaged)) = read_or_none(optional_package_of(alloc, room, symbols))? else {
        return Ok(false);
    };
    let Some((_, types)) = read_or_none(imports_of(alloc, room, unpackaged))? else {
        return Ok(false);
    };
    types_full(alloc, room, types)
}

/// Whether a child list is too long in symbols that begin an ordinary compilation unit: at one of them it has more than 65,535 items.
pub fn is_crowded(alloc: Global, symbols: &[Symbol<'_>]) -> Result<bool, NoMemory>
    requires { (n : ℕ) × BeginsPhrase ordinary symbols.now n }
    ensures { Tells (IsCrowded symbols.now) result }
{
    let most = most_separators(alloc, symbols)?;
    if most <= FEW {
        return Ok(false);
    }
    let room = symbols.len() * 3;
    file_full(alloc, room, symbols)
}
