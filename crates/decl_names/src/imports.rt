// Reads imports (JLS 7.5).
ghost use Rattle.std.specs.Prelude.{◌≡◌, ◌++◌, [], ◌∷◌, ℕ, List, length, IfOk, Ok, Some, None, string_bytes, option_map};
ghost use Rattle.decl_grammar.specs.Reading.{Gives, has, starts, one_at};
ghost use Rattle.decl_grammar.specs.Form.{names, many, maybe, nest, import_rest, turned, with_front};
ghost use Rattle.decl_grammar.specs.Rows.{name_seen, row_behind, import_behind, deeper_behind};
ghost use Rattle.decl_grammar.specs.Types.{list_or_none};
ghost use Rattle.decl_grammar.specs.Grammar.{single_or, import_step, import_named, import_static, static_import, import_form, with_dot};
ghost use Rattle.decl_grammar.specs.Rule.{reads, read_nest};

use crate::names::{read_name, starts_name};
use crate::steps::{begin, is_next, one};
use apt_base::Name;
use decl_grammar::sorts::{DOT, IMPORT, SEMICOLON, STAR, STATIC};
use decl_grammar::{ReadFault, Symbol};
use decl_tree::{Import, ImportKind};
use std::alloc::Global;

// A dot, and the name behind it or a star.
#[tactic(auto, using(decl_grammar::proofs::Firsts::name_first), unfolding(decl_grammar::specs::Grammar::import_step))]
fn import_step_of<'a, 's>(
    room: usize,
    symbols: &'s [Symbol<'a>],
) -> Result<(Option<&'a str>, &'s [Symbol<'a>]), ReadFault>
    ensures { Gives (λ x. (name_seen x.0, x.1.now)) result (reads room import_step symbols.now) }
{
    let (_, rest) = one(symbols, DOT)?;
    if starts_name(rest) {
        let (name, rest) = read_name(room, rest)?;
        return Ok((Some(name), rest));
    }
    let (_, rest) = one(rest, STAR)?;
    Ok((None, rest))
}

// What stands behind a name of an import, put behind it.
fn import_rest_of<'a, 's>(
    alloc: Global,
    room: usize,
    front: String,
    symbols: &'s [Symbol<'a>],
) -> Result<(Import, &'s [Symbol<'a>]), ReadFault>
    ensures { Gives (λ x. (x.0, x.1.now)) result (import_behind (string_bytes front) room symbols.now) }
{
    let mut text = front;
    let mut rest = begin(symbols)?;
    'row: while is_next(rest, DOT) {
        let (next, after) = import_step_of(room, rest)?;
        match next {
            Some(name) => {
                text.push_str(".")?;
                text.push_str(name)?;
            }
            None => {
                let name = Name::from_string(alloc, text);
                let kind = ImportKind::OnDemand;
                return Ok((Import { kind, name }, after));
            }
        }
        rest = after;
    }
    let name = Name::from_string(alloc, text);
    let kind = ImportKind::Single;
    Ok((Import { kind, name }, rest))
}

// An import that is not static.
#[tactic(auto, unfolding(decl_grammar::specs::Grammar::import_named))]
fn import_named_of<'a, 's>(
    alloc: Global,
    room: usize,
    symbols: &'s [Symbol<'a>],
) -> Result<(Import, &'s [Symbol<'a>]), ReadFault>
    ensures { Gives (λ x. (x.0, x.1.now)) result (reads room import_named symbols.now) }
{
    let (first, rest) = read_name(room, symbols)?;
    let front = String::from_str(alloc, first)?;
    import_rest_of(alloc, room, front, rest)
}

// The static import of the same members.
fn static_of(import: Import) -> Import
    ensures { result ≡ static_import import }
{
    let Import { kind, name } = import;
    match kind {
        ImportKind::Single => Import {
            kind: ImportKind::StaticSingle,
            name,
        },
        ImportKind::OnDemand => Import {
            kind: ImportKind::StaticOnDemand,
            name,
        },
        ImportKind::StaticSingle => Import { kind, name },
        ImportKind::StaticOnDemand => Import { kind, name },
    }
}

// What stands behind the first name of a static import, of which there is one more at least.
fn deeper_import_of<'a, 's>(
    alloc: Global,
    room: usize,
    front: String,
    symbols: &'s [Symbol<'a>],
) -> Result<(Import, &'s [Symbol<'a>]), ReadFault>
    ensures { Gives (λ x. (x.0, x.1.now)) result (deeper_behind (string_bytes front) room symbols.now) }
{
    if is_next(symbols, DOT) {
        return import_rest_of(alloc, room, front, symbols);
    }
    Err(ReadFault::Bad(symbols.len()))
}

// An import of static members.
#[tactic(auto, unfolding(decl_grammar::specs::Grammar::import_static))]
fn import_static_of<'a, 's>(
    alloc: Global,
    room: usize,
    symbols: &'s [Symbol<'a>],
) -> Result<(Import, &'s [Symbol<'a>]), ReadFault>
    ensures { Gives (λ x. (x.0, x.1.now)) result (reads room import_static symbols.now) }
{
    let (_, rest) = one(symbols, STATIC)?;
    let (first, rest) = read_name(room, rest)?;
    let front = String::from_str(alloc, first)?;
    let (import, rest) = deeper_import_of(alloc, room, front, rest)?;
    Ok((static_of(import), rest))
}

// An import.
#[tactic(auto, using(decl_grammar::proofs::Firsts::import_named_first), unfolding(decl_grammar::specs::Grammar::import_form))]
fn import_of<'a, 's>(
    alloc: Global,
    room: usize,
    symbols: &'s [Symbol<'a>],
) -> Result<(Import, &'s [Symbol<'a>]), ReadFault>
    ensures { Gives (λ x. (x.0, x.1.now)) result (reads room import_form symbols.now) }
{
    let (_, rest) = one(symbols, IMPORT)?;
    if starts_name(rest) {
        let (import, rest) = import_named_of(alloc, room, rest)?;
        let (_, rest) = one(rest, SEMICOLON)?;
        return Ok((import, rest));
    }
    let (import, rest) = import_static_of(alloc, room, rest)?;
    let (_, rest) = one(rest, SEMICOLON)?;
    Ok((import, rest))
}

// The imports that stand here, put behind others.
fn more_imports_of<'a, 's>(
    alloc: Global,
    room: usize,
    front: Vec<Import>,
    symbols: &'s [Symbol<'a>],
) -> Result<(Vec<Import>, &'s [Symbol<'a>]), ReadFault>
    ensures { Gives (λ x. (x.0.items, x.1.now)) result (row_behind front.items room import_form symbols.now) }
{
    let mut all = front;
    let mut rest = begin(symbols)?;
    'row: while is_next(rest, IMPORT) {
        let (next, after) = import_of(alloc, room, rest)?;
        all.push(next)?;
        rest = after;
    }
    Ok((all, rest))
}

/// The imports that stand here.
#[tactic(auto, using(decl_grammar::proofs::Loop::starts_with))]
pub fn imports_of<'a, 's>(
    alloc: Global,
    room: usize,
    symbols: &'s [Symbol<'a>],
) -> Result<(Vec<Import>, &'s [Symbol<'a>]), ReadFault>
    ensures { Gives (λ x. (x.0.items, x.1.now)) result (reads room (many import_form) symbols.now) }
{
    let front = Vec::new(alloc);
    more_imports_of(alloc, room, front, symbols)
}
