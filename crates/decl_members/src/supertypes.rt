// Reads what stands behind `extends` and `implements` in the heading of a type (JLS 8.1.4, 8.1.5, 9.1.3).
ghost use Rattle.std.specs.Prelude.{Ok, Some, None};
ghost use Rattle.decl_grammar.specs.Reading.{Gives};
ghost use Rattle.decl_grammar.specs.Grammar.{superclass, implemented, extended};
ghost use Rattle.decl_grammar.specs.Rule.{reads};

use decl_grammar::sorts::{EXTENDS, IMPLEMENTS};
use decl_grammar::{ReadFault, Symbol};
use decl_tree::TypeText;
use decl_types::classes_of;
use decl_values::{annotated_class_of, is_next, one};
use std::alloc::Global;

/// The type behind the `extends` of a class.
#[tactic(auto, unfolding(decl_grammar::specs::Grammar::superclass))]
pub fn superclass_of<'a, 's>(
    alloc: Global,
    room: usize,
    symbols: &'s [Symbol<'a>],
) -> Result<(Option<TypeText>, &'s [Symbol<'a>]), ReadFault>
    ensures { Gives (λ x. (x.0, x.1.now)) result (reads room superclass symbols.now) }
{
    if is_next(symbols, EXTENDS) {
        let (_, rest) = one(symbols, EXTENDS)?;
        let (text, rest) = annotated_class_of(alloc, room, rest)?;
        return Ok((Some(text), rest));
    }
    Ok((None, symbols))
}

/// The types behind `implements`.
#[tactic(auto, unfolding(decl_grammar::specs::Grammar::implemented))]
pub fn implemented_of<'a, 's>(
    alloc: Global,
    room: usize,
    symbols: &'s [Symbol<'a>],
) -> Result<(Vec<TypeText>, &'s [Symbol<'a>]), ReadFault>
    ensures { Gives (λ x. (x.0.items, x.1.now)) result (reads room implemented symbols.now) }
{
    if is_next(symbols, IMPLEMENTS) {
        let (_, rest) = one(symbols, IMPLEMENTS)?;
        return classes_of(alloc, room, rest);
    }
    Ok((Vec::new(alloc), symbols))
}

/// The types behind the `extends` of an interface.
#[tactic(auto, unfolding(decl_grammar::specs::Grammar::extended))]
pub fn extended_of<'a, 's>(
    alloc: Global,
    room: usize,
    symbols: &'s [Symbol<'a>],
) -> Result<(Vec<TypeText>, &'s [Symbol<'a>]), ReadFault>
    ensures { Gives (λ x. (x.0.items, x.1.now)) result (reads room extended symbols.now) }
{
    if is_next(symbols, EXTENDS) {
        let (_, rest) = one(symbols, EXTENDS)?;
        return classes_of(alloc, room, rest);
    }
    Ok((Vec::new(alloc), symbols))
}
