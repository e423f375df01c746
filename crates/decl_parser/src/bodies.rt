// Reads the bodies of types: their members with their modifiers (JLS 8.1.7, 8.9.2, 9.1.5, 9.6.1).
ghost use Rattle.std.specs.Prelude.{◌≡◌, ◌&&◌, true, false, [], ◌∷◌, Ok};
ghost use Rattle.decl_grammar.specs.declared.written.Unmodified.TheVariants as unmodified;
ghost use Rattle.decl_grammar.specs.Reading.{Gives, starts};
ghost use Rattle.decl_grammar.specs.Grammar.{nested_member, unmodified_of, annotation_unmodified, with_static, static_rest, plain_modified, modified, modified_form, members_in, enum_members};
ghost use Rattle.decl_grammar.specs.Rule.{reads};
ghost use Rattle.decl_types.specs.Members.{has_blocks};
ghost use Rattle.decl_parser.specs.MemberRows.{enum_behind, plain_of_class, modified_of_class, declared_behind, member_behind, members_behind};

use crate::declarations::nested_type_of;
use decl_grammar::sorts::{CLOSE_BRACE, OPEN_BRACE, SEMICOLON, VOID};
use decl_grammar::{MemberAt, MemberRest, Modifiers, ReadFault, Symbol, Unmodified};
use decl_members::{
    add_members, generic_member_of, named_member_of, primitive_member_of, void_method_of,
};
use decl_tree::TypeKind;
use decl_types::{
    none, optional_modifiers_of, plain_modifiers_of, starts_member, starts_plain_modifier,
    starts_type_word, starts_unmodified, static_word_of,
};
use decl_values::{begin, doc_before, is_next, one, read_over, starts_name, starts_primitive};
use std::alloc::Global;

// The same as a member.
#[cycle(declarations)]
#[tactic(auto, unfolding(decl_grammar::specs::Grammar::nested_member))]
fn nested_member_of<'a, 's>(
    alloc: Global,
    room: usize,
    symbols: &'s [Symbol<'a>],
) -> Result<(Unmodified, &'s [Symbol<'a>]), ReadFault>
    ensures { Gives (λ x. (x.0, x.1.now)) result (reads room nested_member symbols.now) }
{
    let (declaration, rest) = nested_type_of(alloc, room, symbols)?;
    Ok((Unmodified::Nested(declaration), rest))
}

// A member of a class, with constructors, or of an interface, behind its modifiers.
#[cycle(declarations)]
#[tactic(auto, using(decl_types::proofs::MemberFirsts::nested_member_first, decl_types::proofs::MemberFirsts::void_method_first, decl_types::proofs::MemberFirsts::primitive_any_first, decl_types::proofs::MemberFirsts::named_member_first), unfolding(decl_grammar::specs::Grammar::unmodified_of))]
fn bare_member_of<'a, 's>(
    alloc: Global,
    room: usize,
    constructors: bool,
    symbols: &'s [Symbol<'a>],
) -> Result<(Unmodified, &'s [Symbol<'a>]), ReadFault>
    ensures { Gives (λ x. (x.0, x.1.now)) result (reads room (unmodified_of constructors) symbols.now) }
{
    if starts_type_word(symbols) {
        return nested_member_of(alloc, room, symbols);
    }
    if is_next(symbols, VOID) {
        return void_method_of(alloc, room, symbols);
    }
    if starts_primitive(symbols) {
        return primitive_member_of(alloc, room, MemberRest::Any, symbols);
    }
    if starts_name(symbols) {
        return named_member_of(alloc, room, constructors, MemberRest::Any, symbols);
    }
    generic_member_of(alloc, room, constructors, symbols)
}

// A member of an annotation interface behind its modifiers.
#[cycle(declarations)]
#[tactic(auto, using(decl_types::proofs::MemberFirsts::nested_member_first, decl_types::proofs::MemberFirsts::primitive_element_first), unfolding(decl_grammar::specs::Grammar::annotation_unmodified))]
fn bare_element_of<'a, 's>(
    alloc: Global,
    room: usize,
    symbols: &'s [Symbol<'a>],
) -> Result<(Unmodified, &'s [Symbol<'a>]), ReadFault>
    ensures { Gives (λ x. (x.0, x.1.now)) result (reads room annotation_unmodified symbols.now) }
{
    if starts_type_word(symbols) {
        return nested_member_of(alloc, room, symbols);
    }
    if starts_primitive(symbols) {
        return primitive_member_of(alloc, room, MemberRest::Element, symbols);
    }
    named_member_of(alloc, room, false, MemberRest::Element, symbols)
}

// Modifiers with a `static` before them.
fn static_and(modifiers: Modifiers) -> Modifiers
    ensures { result ≡ (with_static (modifiers, unmodified.Nothing)).0 }
{
    let Modifiers { bits, annotations } = modifiers;
    let bits = 32 | bits;
    Modifiers { bits, annotations }
}

// An initialiser or a member behind a first `static`.
#[cycle(declarations)]
#[tactic(auto, unfolding(decl_grammar::specs::Grammar::static_rest))]
fn static_rest_of<'a, 's>(
    alloc: Global,
    room: usize,
    symbols: &'s [Symbol<'a>],
) -> Result<((Modifiers, Unmodified), &'s [Symbol<'a>]), ReadFault>
    ensures { Gives (λ x. (x.0, x.1.now)) result (reads room (static_rest (unmodified_of true)) symbols.now) }
{
    if is_next(symbols, OPEN_BRACE) {
        let rest = read_over(alloc, OPEN_BRACE, symbols)?;
        return Ok(((none(alloc), Unmodified::Nothing), rest));
    }
    let (modifiers, rest) = optional_modifiers_of(alloc, room, symbols)?;
    let (member, rest) = bare_member_of(alloc, room, true, rest)?;
    Ok(((static_and(modifiers), member), rest))
}

// A member whose first modifier is not `static`.
#[cycle(declarations)]
#[tactic(auto, unfolding(decl_grammar::specs::Grammar::plain_modified))]
fn plain_modified_of<'a, 's>(
    alloc: Global,
    room: usize,
    symbols: &'s [Symbol<'a>],
) -> Result<((Modifiers, Unmodified), &'s [Symbol<'a>]), ReadFault>
    ensures { Gives (λ x. (x.0, x.1.now)) result (reads room plain_of_class symbols.now) }
{
    let (modifiers, rest) = plain_modifiers_of(alloc, room, symbols)?;
    let (member, rest) = bare_member_of(alloc, room, true, rest)?;
    Ok(((modifiers, member), rest))
}

// A member of a class or a static initialiser, with its modifiers.
#[cycle(declarations)]
#[tactic(auto, using(decl_types::proofs::MemberFirsts::class_unmodified_first, decl_types::proofs::MemberFirsts::plain_modified_first))]
fn class_modified_of<'a, 's>(
    alloc: Global,
    room: usize,
    symbols: &'s [Symbol<'a>],
) -> Result<((Modifiers, Unmodified), &'s [Symbol<'a>]), ReadFault>
    ensures { Gives (λ x. (x.0, x.1.now)) result (reads room modified_of_class symbols.now) }
{
    if starts_unmodified(symbols) {
        let (member, rest) = bare_member_of(alloc, room, true, symbols)?;
        return Ok(((none(alloc), member), rest));
    }
    if starts_plain_modifier(symbols) {
        return plain_modified_of(alloc, room, symbols);
    }
    let (_, rest) = static_word_of(room, symbols)?;
    static_rest_of(alloc, room, rest)
}

// A member of an interface with its modifiers.
#[cycle(declarations)]
fn interface_modified_of<'a, 's>(
    alloc: Global,
    room: usize,
    symbols: &'s [Symbol<'a>],
) -> Result<((Modifiers, Unmodified), &'s [Symbol<'a>]), ReadFault>
    ensures { Gives (λ x. (x.0, x.1.now)) result (reads room (modified (unmodified_of false)) symbols.now) }
{
    let (modifiers, rest) = optional_modifiers_of(alloc, room, symbols)?;
    let (member, rest) = bare_member_of(alloc, room, false, rest)?;
    Ok(((modifiers, member), rest))
}

// A member of an annotation interface with its modifiers.
#[cycle(declarations)]
fn element_modified_of<'a, 's>(
    alloc: Global,
    room: usize,
    symbols: &'s [Symbol<'a>],
) -> Result<((Modifiers, Unmodified), &'s [Symbol<'a>]), ReadFault>
    ensures { Gives (λ x. (x.0, x.1.now)) result (reads room (modified annotation_unmodified) symbols.now) }
{
    let (modifiers, rest) = optional_modifiers_of(alloc, room, symbols)?;
    let (member, rest) = bare_element_of(alloc, room, rest)?;
    Ok(((modifiers, member), rest))
}

// A member of a type of this kind with its modifiers, or a static initialiser.
#[cycle(declarations)]
#[tactic(auto, unfolding(decl_grammar::specs::Grammar::modified_form))]
fn modified_of<'a, 's>(
    alloc: Global,
    room: usize,
    kind: TypeKind,
    symbols: &'s [Symbol<'a>],
) -> Result<((Modifiers, Unmodified), &'s [Symbol<'a>]), ReadFault>
    ensures { Gives (λ x. (x.0, x.1.now)) result (reads room (modified_form kind) symbols.now) }
{
    match kind {
        TypeKind::Enum => class_modified_of(alloc, room, symbols),
        TypeKind::Class => class_modified_of(alloc, room, symbols),
        TypeKind::AnnotationType => element_modified_of(alloc, room, symbols),
        TypeKind::Interface => interface_modified_of(alloc, room, symbols),
    }
}

// What a member with its modifiers and its doc comment gives, put behind other members.
#[cycle(declarations)]
fn documented_of<'a, 's>(
    alloc: Global,
    room: usize,
    kind: TypeKind,
    front: Vec<MemberAt>,
    symbols: &'s [Symbol<'a>],
) -> Result<(Vec<MemberAt>, &'s [Symbol<'a>]), ReadFault>
    ensures { Gives (λ x. (x.0.items, x.1.now)) result (declared_behind front.items room kind symbols.now) }
{
    let ((modifiers, member), rest) = modified_of(alloc, room, kind, symbols)?;
    let doc = doc_before(alloc, &symbols[..symbols.len() - rest.len()])?;
    let all = add_members(alloc, front, doc, modifiers, member)?;
    Ok((all, rest))
}

/// Whether a type of this kind may have an initialiser here.
pub fn is_initialiser(kind: TypeKind, symbols: &[Symbol<'_>]) -> bool
    ensures { result ≡ (has_blocks kind && starts (OPEN_BRACE ∷ []) symbols.now) }
{
    match kind {
        TypeKind::Enum => is_next(symbols, OPEN_BRACE),
        TypeKind::Class => is_next(symbols, OPEN_BRACE),
        TypeKind::AnnotationType => false,
        TypeKind::Interface => false,
    }
}

/// What a member gives, put behind other members: nothing for a `;` and for an initialiser.
#[cycle(declarations)]
pub fn member_of<'a, 's>(
    alloc: Global,
    room: usize,
    kind: TypeKind,
    front: Vec<MemberAt>,
    symbols: &'s [Symbol<'a>],
) -> Result<(Vec<MemberAt>, &'s [Symbol<'a>]), ReadFault>
    ensures { Gives (λ x. (x.0.items, x.1.now)) result (member_behind front.items room kind symbols.now) }
{
    if is_next(symbols, SEMICOLON) {
        let (_, rest) = one(symbols, SEMICOLON)?;
        return Ok((front, rest));
    }
    if is_initialiser(kind, symbols) {
        let rest = read_over(alloc, OPEN_BRACE, symbols)?;
        return Ok((front, rest));
    }
    documented_of(alloc, room, kind, front, symbols)
}

// The members that stand here, put behind others.
#[cycle(declarations)]
fn more_members_of<'a, 's>(
    alloc: Global,
    room: usize,
    kind: TypeKind,
    front: Vec<MemberAt>,
    symbols: &'s [Symbol<'a>],
) -> Result<(Vec<MemberAt>, &'s [Symbol<'a>]), ReadFault>
    ensures { Gives (λ x. (x.0.items, x.1.now)) result (members_behind front.items room kind symbols.now) }
{
    let mut all = front;
    let mut rest = begin(symbols)?;
    'row: while starts_member(kind, rest) {
        let (next, after) = member_of(alloc, room, kind, all, rest)?;
        all = next;
        rest = after;
    }
    Ok((all, rest))
}

/// The members of a type, in their braces.
#[cycle(declarations)]
pub fn members_of<'a, 's>(
    alloc: Global,
    room: usize,
    kind: TypeKind,
    symbols: &'s [Symbol<'a>],
) -> Result<(Vec<MemberAt>, &'s [Symbol<'a>]), ReadFault>
    ensures { Gives (λ x. (x.0.items, x.1.now)) result (reads room (members_in kind) symbols.now) }
{
    let (_, rest) = one(symbols, OPEN_BRACE)?;
    let front = Vec::new(alloc);
    let (all, rest) = more_members_of(alloc, room, kind, front, rest)?;
    let (_, rest) = one(rest, CLOSE_BRACE)?;
    Ok((all, rest))
}

/// The members of an enum behind its constants, put behind them.
#[cycle(declarations)]
#[tactic(auto, using(decl_types::proofs::MemberFolds::none_behind), unfolding(decl_grammar::specs::Grammar::enum_members))]
pub fn more_enum_members_of<'a, 's>(
    alloc: Global,
    room: usize,
    front: Vec<MemberAt>,
    symbols: &'s [Symbol<'a>],
) -> Result<(Vec<MemberAt>, &'s [Symbol<'a>]), ReadFault>
    ensures { Gives (λ x. (x.0.items, x.1.now)) result (enum_behind front.items room symbols.now) }
{
    if is_next(symbols, SEMICOLON) {
        let (_, rest) = one(symbols, SEMICOLON)?;
        let (all, rest) = more_members_of(alloc, room, TypeKind::Enum, front, rest)?;
        return Ok((all, rest));
    }
    Ok((front, symbols))
}
