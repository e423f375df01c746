// Reads types behind their modifiers (JLS 8.1, 8.9, 9.1, 9.6).
ghost use Rattle.std.specs.Prelude.{◌≡◌, List, Ok, None};
ghost use Rattle.decl_grammar.specs.Reading.{Gives};
ghost use Rattle.decl_grammar.specs.Form.{nested_type};
ghost use Rattle.decl_grammar.specs.Grammar.{superclass, rest_of, class_form, interface_form, annotation_form, enum_form, type_rest};
ghost use Rattle.decl_grammar.specs.Rule.{reads, read_nest};

use crate::bodies::{members_of, more_enum_members_of};
use apt_base::List;
use decl_grammar::sorts::{AT_INTERFACE, CLASS, CLOSE_BRACE, ENUM, INTERFACE, OPEN_BRACE};
use decl_grammar::{MemberAt, NameAt, ReadFault, Symbol, TypeParamAt, TypeRest};
use decl_members::{constants_of, extended_of, implemented_of, superclass_of};
use decl_tree::{TypeKind, TypeText};
use decl_types::{optional_params_of, starts_type_word};
use decl_values::{is_next, one, read_name_at, shut};
use std::alloc::Global;

/// A member type behind its modifiers, where so much may be open in it.
#[cycle(declarations)]
pub fn nested_type_of<'a, 's>(
    alloc: Global,
    room: usize,
    symbols: &'s [Symbol<'a>],
) -> Result<(TypeRest, &'s [Symbol<'a>]), ReadFault>
    ensures { Gives (λ x. (x.0, x.1.now)) result (read_nest room nested_type symbols.now) }
{
    if room > 0 {
        return type_rest_of(alloc, room - 1, symbols);
    }
    Err(shut(starts_type_word(symbols), symbols))
}

// A type of this kind with these parts.
fn rest_of_kind(
    kind: TypeKind,
    name: NameAt,
    parameters: Vec<TypeParamAt>,
    superclass: Option<TypeText>,
    interfaces: Vec<TypeText>,
    members: Vec<MemberAt>,
) -> TypeRest
    ensures { result ≡ rest_of kind name parameters.items superclass interfaces.items members.items }
{
    TypeRest {
        kind,
        name,
        parameters: List::from_vec(parameters),
        superclass,
        interfaces: List::from_vec(interfaces),
        members: List::from_vec(members),
    }
}

// A class.
#[cycle(declarations)]
#[tactic(auto, unfolding(decl_grammar::specs::Grammar::class_form))]
fn class_of<'a, 's>(
    alloc: Global,
    room: usize,
    symbols: &'s [Symbol<'a>],
) -> Result<(TypeRest, &'s [Symbol<'a>]), ReadFault>
    ensures { Gives (λ x. (x.0, x.1.now)) result (reads room class_form symbols.now) }
{
    let (_, rest) = one(symbols, CLASS)?;
    let (name, rest) = read_name_at(alloc, room, rest)?;
    let (parameters, rest) = optional_params_of(alloc, room, rest)?;
    let (superclass, rest) = superclass_of(alloc, room, rest)?;
    let (interfaces, rest) = implemented_of(alloc, room, rest)?;
    let (members, rest) = members_of(alloc, room, TypeKind::Class, rest)?;
    let found = rest_of_kind(
        TypeKind::Class,
        name,
        parameters,
        superclass,
        interfaces,
        members,
    );
    Ok((found, rest))
}

// An interface.
#[cycle(declarations)]
#[tactic(auto, unfolding(decl_grammar::specs::Grammar::interface_form))]
fn interface_of<'a, 's>(
    alloc: Global,
    room: usize,
    symbols: &'s [Symbol<'a>],
) -> Result<(TypeRest, &'s [Symbol<'a>]), ReadFault>
    ensures { Gives (λ x. (x.0, x.1.now)) result (reads room interface_form symbols.now) }
{
    let (_, rest) = one(symbols, INTERFACE)?;
    let (name, rest) = read_name_at(alloc, room, rest)?;
    let (parameters, rest) = optional_params_of(alloc, room, rest)?;
    let (interfaces, rest) = extended_of(alloc, room, rest)?;
    let (members, rest) = members_of(alloc, room, TypeKind::Interface, rest)?;
    let found = rest_of_kind(
        TypeKind::Interface,
        name,
        parameters,
        None,
        interfaces,
        members,
    );
    Ok((found, rest))
}

// An annotation interface.
#[cycle(declarations)]
#[tactic(auto, unfolding(decl_grammar::specs::Grammar::annotation_form))]
fn annotation_interface_of<'a, 's>(
    alloc: Global,
    room: usize,
    symbols: &'s [Symbol<'a>],
) -> Result<(TypeRest, &'s [Symbol<'a>]), ReadFault>
    ensures { Gives (λ x. (x.0, x.1.now)) result (reads room annotation_form symbols.now) }
{
    let (_, rest) = one(symbols, AT_INTERFACE)?;
    let (_, rest) = one(rest, INTERFACE)?;
    let (name, rest) = read_name_at(alloc, room, rest)?;
    let parameters = Vec::new(alloc);
    let interfaces = Vec::new(alloc);
    let (members, rest) = members_of(alloc, room, TypeKind::AnnotationType, rest)?;
    let found = rest_of_kind(
        TypeKind::AnnotationType,
        name,
        parameters,
        None,
        interfaces,
        members,
    );
    Ok((found, rest))
}

// An enum.
#[cycle(declarations)]
#[tactic(auto, unfolding(decl_grammar::specs::Grammar::enum_form))]
fn enum_of<'a, 's>(
    alloc: Global,
    room: usize,
    symbols: &'s [Symbol<'a>],
) -> Result<(TypeRest, &'s [Symbol<'a>]), ReadFault>
    ensures { Gives (λ x. (x.0, x.1.now)) result (reads room enum_form symbols.now) }
{
    let (_, rest) = one(symbols, ENUM)?;
    let (name, rest) = read_name_at(alloc, room, rest)?;
    let parameters = Vec::new(alloc);
    let (interfaces, rest) = implemented_of(alloc, room, rest)?;
    let (_, rest) = one(rest, OPEN_BRACE)?;
    let (front, rest) = constants_of(alloc, room, rest)?;
    let (members, rest) = more_enum_members_of(alloc, room, front, rest)?;
    let (_, rest) = one(rest, CLOSE_BRACE)?;
    let found = rest_of_kind(TypeKind::Enum, name, parameters, None, interfaces, members);
    Ok((found, rest))
}

/// A type behind its modifiers.
#[cycle(declarations)]
#[tactic(auto, using(decl_grammar::proofs::Firsts::class_form_first, decl_grammar::proofs::Firsts::interface_form_first, decl_grammar::proofs::Firsts::annotation_form_first), unfolding(decl_grammar::specs::Grammar::type_rest))]
pub fn type_rest_of<'a, 's>(
    alloc: Global,
    room: usize,
    symbols: &'s [Symbol<'a>],
) -> Result<(TypeRest, &'s [Symbol<'a>]), ReadFault>
    ensures { Gives (λ x. (x.0, x.1.now)) result (reads room type_rest symbols.now) }
{
    if is_next(symbols, CLASS) {
        return class_of(alloc, room, symbols);
    }
    if is_next(symbols, INTERFACE) {
        return interface_of(alloc, room, symbols);
    }
    if is_next(symbols, AT_INTERFACE) {
        return annotation_interface_of(alloc, room, symbols);
    }
    enum_of(alloc, room, symbols)
}
