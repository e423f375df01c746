// Readers of the headings of types, up to a place where members may stand (JLS 8.1, 8.9, 9.1, 9.6).
ghost use Rattle.std.specs.Prelude.{[], ◌∷◌};
ghost use Rattle.decl_grammar.specs.Reading.{Gives, one_at};
ghost use Rattle.decl_grammar.specs.Rule.{reads};
ghost use Rattle.decl_limits.specs.Children.{class_heading, interface_heading, annotation_heading, enum_heading, whole_constants, generic_name};
ghost use Rattle.decl_children.specs.Members.{heading_of};
ghost use Rattle.decl_children.specs.TypeWalks.{enum_front};

use decl_grammar::sorts::{AT_INTERFACE, CLASS, ENUM, INTERFACE, OPEN_BRACE, SEMICOLON};
use decl_grammar::{ReadFault, Symbol};
use decl_members::{constants_of, extended_of, implemented_of, superclass_of};
use decl_tree::TypeKind;
use decl_types::optional_params_of;
use decl_values::{one, read_name};
use std::alloc::Global;

// Of a class.
#[tactic(auto, unfolding(decl_limits::specs::Children::class_heading))]
fn class_heading_of<'a, 's>(
    alloc: Global,
    room: usize,
    symbols: &'s [Symbol<'a>],
) -> Result<(usize, &'s [Symbol<'a>]), ReadFault>
    ensures { Gives (λ x. (x.0, x.1.now)) result (reads room class_heading symbols.now) }
{
    let (_, rest) = one(symbols, CLASS)?;
    let (_, rest) = read_name(room, rest)?;
    let (parameters, rest) = optional_params_of(alloc, room, rest)?;
    let (_, rest) = superclass_of(alloc, room, rest)?;
    let (_, rest) = implemented_of(alloc, room, rest)?;
    let (_, rest) = one(rest, OPEN_BRACE)?;
    Ok((parameters.len(), rest))
}

// Of an interface.
#[tactic(auto, unfolding(decl_limits::specs::Children::interface_heading))]
fn interface_heading_of<'a, 's>(
    alloc: Global,
    room: usize,
    symbols: &'s [Symbol<'a>],
) -> Result<(usize, &'s [Symbol<'a>]), ReadFault>
    ensures { Gives (λ x. (x.0, x.1.now)) result (reads room interface_heading symbols.now) }
{
    let (_, rest) = one(symbols, INTERFACE)?;
    let (_, rest) = read_name(room, rest)?;
    let (parameters, rest) = optional_params_of(alloc, room, rest)?;
    let (_, rest) = extended_of(alloc, room, rest)?;
    let (_, rest) = one(rest, OPEN_BRACE)?;
    Ok((parameters.len(), rest))
}

// Of an annotation interface.
#[tactic(auto, unfolding(decl_limits::specs::Children::annotation_heading))]
fn annotation_heading_of<'a, 's>(
    room: usize,
    symbols: &'s [Symbol<'a>],
) -> Result<(usize, &'s [Symbol<'a>]), ReadFault>
    ensures { Gives (λ x. (x.0, x.1.now)) result (reads room annotation_heading symbols.now) }
{
    let (_, rest) = one(symbols, AT_INTERFACE)?;
    let (_, rest) = one(rest, INTERFACE)?;
    let (_, rest) = read_name(room, rest)?;
    let (_, rest) = one(rest, OPEN_BRACE)?;
    Ok((0, rest))
}

/// Of an enum up to what stands before its `{`.
#[tactic(auto, unfolding(decl_limits::specs::Children::enum_heading))]
pub fn enum_heading_of<'a, 's>(
    alloc: Global,
    room: usize,
    symbols: &'s [Symbol<'a>],
) -> Result<&'s [Symbol<'a>], ReadFault>
    ensures { Gives (λ x. (tt, x.now)) result (reads room enum_heading symbols.now) }
{
    let (_, rest) = one(symbols, ENUM)?;
    let (_, rest) = read_name(room, rest)?;
    let (_, rest) = implemented_of(alloc, room, rest)?;
    Ok(rest)
}

/// Of an enum up to what stands behind its constants: how many there are.
pub fn enum_front_of<'a, 's>(
    alloc: Global,
    room: usize,
    symbols: &'s [Symbol<'a>],
) -> Result<(usize, &'s [Symbol<'a>]), ReadFault>
    ensures { Gives (λ x. (x.0, x.1.now)) result (reads room enum_front symbols.now) }
{
    let rest = enum_heading_of(alloc, room, symbols)?;
    let (_, rest) = one(rest, OPEN_BRACE)?;
    let (constants, rest) = constants_of(alloc, room, rest)?;
    Ok((constants.len(), rest))
}

// Of an enum up to the `;` behind its constants.
#[tactic(auto, unfolding(decl_limits::specs::Children::whole_constants))]
fn constants_heading_of<'a, 's>(
    alloc: Global,
    room: usize,
    symbols: &'s [Symbol<'a>],
) -> Result<(usize, &'s [Symbol<'a>]), ReadFault>
    ensures { Gives (λ x. (x.0, x.1.now)) result (reads room whole_constants symbols.now) }
{
    let rest = enum_heading_of(alloc, room, symbols)?;
    let (_, rest) = one(rest, OPEN_BRACE)?;
    let (constants, rest) = constants_of(alloc, room, rest)?;
    let (_, rest) = one(rest, SEMICOLON)?;
    Ok((constants.len(), rest))
}

/// How many children a type of this kind has where its members may stand.
pub fn heading_at<'a, 's>(
    alloc: Global,
    room: usize,
    kind: TypeKind,
    symbols: &'s [Symbol<'a>],
) -> Result<(usize, &'s [Symbol<'a>]), ReadFault>
    ensures { Gives (λ x. (x.0, x.1.now)) result (reads room (heading_of kind) symbols.now) }
{
    match kind {
        TypeKind::Enum => constants_heading_of(alloc, room, symbols),
        TypeKind::Class => class_heading_of(alloc, room, symbols),
        TypeKind::AnnotationType => annotation_heading_of(room, symbols),
        TypeKind::Interface => interface_heading_of(alloc, room, symbols),
    }
}

// `class` or `interface`.
#[tactic(auto, unfolding(decl_grammar::specs::Reading::one_at))]
fn generic_word<'a, 's>(
    symbols: &'s [Symbol<'a>],
) -> Result<(&'s Symbol<'a>, &'s [Symbol<'a>]), ReadFault>
    ensures { Gives (λ x. (x.0.now, x.1.now)) result (one_at (CLASS ∷ INTERFACE ∷ []) symbols.now) }
{
    match symbols {
        [] => Err(ReadFault::Bad(0)),
        [symbol, rest @ ..] => {
            if symbol.sort == CLASS || symbol.sort == INTERFACE {
                Ok((symbol, rest))
            } else {
                Err(ReadFault::Bad(symbols.len()))
            }
        }
    }
}

/// `class` or `interface` and a name.
#[tactic(auto, unfolding(decl_limits::specs::Children::generic_name))]
pub fn generic_name_of<'a, 's>(
    room: usize,
    symbols: &'s [Symbol<'a>],
) -> Result<&'s [Symbol<'a>], ReadFault>
    ensures { Gives (λ x. (tt, x.now)) result (reads room generic_name symbols.now) }
{
    let (_, rest) = generic_word(symbols)?;
    let (_, rest) = read_name(room, rest)?;
    Ok(rest)
}
