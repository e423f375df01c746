// Readers of members that are no types, and what is counted of them (JLS 8.1.7, 8.9.2, 9.1.5, 9.6.1).
ghost use Rattle.std.specs.Prelude.{◌≡◌, ◌+◌, false, nat_lt};
ghost use Rattle.apt_base.specs.Limits.{max_children};
ghost use Rattle.decl_grammar.specs.Reading.{Gives, starts};
ghost use Rattle.decl_grammar.specs.Form.{first_of, nested_type};
ghost use Rattle.decl_grammar.specs.Form.{turn};
ghost use Rattle.decl_grammar.specs.Types.{sign, silently};
ghost use Rattle.decl_grammar.specs.Grammar.{unmodified_of, annotation_unmodified};
ghost use Rattle.decl_grammar.specs.Rule.{reads};
ghost use Rattle.decl_grammar.specs.TokenNames as token;
ghost use Rattle.decl_children.specs.TypeWalks.{unmodified_form, initialiser_block, nothing_form};
ghost use Rattle.decl_children.specs.Unmodifieds.{count_of, constructs_one, own_of, field_front};

use apt_base::MAX_CHILDREN;
use decl_grammar::sorts::{OPEN_BRACE, SEMICOLON, STATIC, VOID};
use decl_grammar::{MemberRest, ReadFault, Symbol, Unmodified};
use decl_members::{generic_member_of, named_member_of, primitive_member_of, void_method_of};
use decl_tree::TypeKind;
use decl_values::{
    base_type_of, dims_of, is_next, one, read_name, read_over, starts_name, starts_primitive,
};
use std::alloc::Global;

// A member of a class, with constructors, or of an interface, behind its modifiers, where no type stands.
#[tactic(auto, using(decl_types::proofs::MemberFirsts::nested_member_first, decl_types::proofs::MemberFirsts::void_method_first, decl_types::proofs::MemberFirsts::primitive_any_first, decl_types::proofs::MemberFirsts::named_member_first), unfolding(decl_grammar::specs::Grammar::unmodified_of))]
fn bare_of<'a, 's>(
    alloc: Global,
    room: usize,
    constructors: bool,
    symbols: &'s [Symbol<'a>],
) -> Result<(Unmodified, &'s [Symbol<'a>]), ReadFault>
    requires { starts (first_of nested_type) symbols.now ≡ false }
    ensures { Gives (λ x. (x.0, x.1.now)) result (reads room (unmodified_of constructors) symbols.now) }
{
    if is_next(symbols, VOID) {
        return void_method_of(alloc, room, symbols);
    }
    if starts_primitive(symbols) {
        return primitive_member_of(alloc, room, MemberRest::Any, symbols);
    }
    if starts_name(symbols) {
        return named_member_of(alloc, room, constructors, MemberRest::Any, symbols);
    }
    generic_member_of(alloc, room, constructors, symbols)
}

// The same of an annotation interface.
#[tactic(auto, using(decl_types::proofs::MemberFirsts::nested_member_first, decl_types::proofs::MemberFirsts::primitive_element_first), unfolding(decl_grammar::specs::Grammar::annotation_unmodified))]
fn element_of<'a, 's>(
    alloc: Global,
    room: usize,
    symbols: &'s [Symbol<'a>],
) -> Result<(Unmodified, &'s [Symbol<'a>]), ReadFault>
    requires { starts (first_of nested_type) symbols.now ≡ false }
    ensures { Gives (λ x. (x.0, x.1.now)) result (reads room annotation_unmodified symbols.now) }
{
    if starts_primitive(symbols) {
        return primitive_member_of(alloc, room, MemberRest::Element, symbols);
    }
    named_member_of(alloc, room, false, MemberRest::Element, symbols)
}

/// A member of a type of this kind behind its modifiers, where no type stands.
pub fn unnested_of<'a, 's>(
    alloc: Global,
    room: usize,
    kind: TypeKind,
    symbols: &'s [Symbol<'a>],
) -> Result<(Unmodified, &'s [Symbol<'a>]), ReadFault>
    requires { starts (first_of nested_type) symbols.now ≡ false }
    ensures { Gives (λ x. (x.0, x.1.now)) result (reads room (unmodified_form kind) symbols.now) }
{
    match kind {
        TypeKind::Enum => bare_of(alloc, room, true, symbols),
        TypeKind::Class => bare_of(alloc, room, true, symbols),
        TypeKind::AnnotationType => element_of(alloc, room, symbols),
        TypeKind::Interface => bare_of(alloc, room, false, symbols),
    }
}

// A block, with a `static` before it or without.
fn initialiser_block_of<'a, 's>(
    alloc: Global,
    room: usize,
    symbols: &'s [Symbol<'a>],
) -> Result<&'s [Symbol<'a>], ReadFault>
    ensures { Gives (λ x. (tt, x.now)) result (reads room initialiser_block symbols.now) }
{
    if is_next(symbols, OPEN_BRACE) {
        return read_over(alloc, OPEN_BRACE, symbols);
    }
    let (_, rest) = one(symbols, STATIC)?;
    let rest = read_over(alloc, OPEN_BRACE, rest)?;
    Ok(rest)
}

// A `;`.
fn semicolon_of<'a, 's>(symbols: &'s [Symbol<'a>]) -> Result<&'s [Symbol<'a>], ReadFault>
    ensures { Gives (λ x. (tt, x.now)) result (reads 0 (turn silently (sign token.semicolon)) symbols.now) }
{
    let (_, rest) = one(symbols, SEMICOLON)?;
    Ok(rest)
}

/// What gives no member of a type of this kind: a `;`, or an initialiser.
pub fn nothing_of<'a, 's>(
    alloc: Global,
    room: usize,
    kind: TypeKind,
    symbols: &'s [Symbol<'a>],
) -> Result<&'s [Symbol<'a>], ReadFault>
    ensures { Gives (λ x. (tt, x.now)) result (reads room (nothing_form kind) symbols.now) }
{
    if is_next(symbols, SEMICOLON) {
        return semicolon_of(symbols);
    }
    match kind {
        TypeKind::Enum => initialiser_block_of(alloc, room, symbols),
        TypeKind::Class => initialiser_block_of(alloc, room, symbols),
        TypeKind::AnnotationType => semicolon_of(symbols),
        TypeKind::Interface => semicolon_of(symbols),
    }
}

/// A field up to the brackets behind its name.
#[tactic(auto, unfolding(decl_grammar::specs::Types::type_form))]
pub fn field_front_of<'a, 's>(
    alloc: Global,
    room: usize,
    symbols: &'s [Symbol<'a>],
) -> Result<&'s [Symbol<'a>], ReadFault>
    ensures { Gives (λ x. (tt, x.now)) result (reads room field_front symbols.now) }
{
    let (_, rest) = base_type_of(alloc, room, symbols)?;
    let (_, rest) = dims_of(alloc, room, rest)?;
    let (_, rest) = read_name(room, rest)?;
    let (_, rest) = dims_of(alloc, room, rest)?;
    Ok(rest)
}

// Whether two lists together are too long.
fn is_long(first: usize, second: usize) -> bool
    ensures { result ≡ nat_lt max_children (first + second) }
{
    if first > MAX_CHILDREN {
        return true;
    }
    second > MAX_CHILDREN - first
}

/// How many members it gives.
pub fn count_in(unmodified: &Unmodified) -> usize
    ensures { result ≡ count_of unmodified.now }
{
    match unmodified {
        Unmodified::Nothing => 0,
        Unmodified::Fields(_, declarators) => declarators.as_slice().len(),
        Unmodified::Method(_, _, _, _) => 1,
        Unmodified::Constructor(_, _, _) => 1,
        Unmodified::Nested(_) => 1,
    }
}

/// Whether it is a constructor.
pub fn is_constructor(unmodified: &Unmodified) -> bool
    ensures { result ≡ constructs_one unmodified.now }
{
    match unmodified {
        Unmodified::Nothing => false,
        Unmodified::Fields(_, _) => false,
        Unmodified::Method(_, _, _, _) => false,
        Unmodified::Constructor(_, _, _) => true,
        Unmodified::Nested(_) => false,
    }
}

/// Whether it is a method or a constructor with too many children.
pub fn has_many(unmodified: &Unmodified) -> bool
    ensures { result ≡ nat_lt max_children (own_of unmodified.now) }
{
    match unmodified {
        Unmodified::Nothing => false,
        Unmodified::Fields(_, _) => false,
        Unmodified::Method(parameters, _, _, signature) => is_long(
            parameters.as_slice().len(),
            signature.params.params.as_slice().len(),
        ),
        Unmodified::Constructor(_, parameters, signature) => is_long(
            parameters.as_slice().len(),
            signature.params.params.as_slice().len(),
        ),
        Unmodified::Nested(_) => false,
    }
}
