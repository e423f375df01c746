// Reads members behind their modifiers (JLS 8.1.7, 9.1.5, 9.6.1), but nested types.
ghost use Rattle.std.specs.Prelude.{◌≡◌, ◌++◌, [], ◌∷◌, ℕ, Bool, List, length, IfOk, Ok, Some, None};
ghost use Rattle.decl_grammar.specs.Reading.{Gives, has, starts};
ghost use Rattle.decl_grammar.specs.Form.{ats, names, many, turned, primitive_sorts};
ghost use Rattle.decl_grammar.specs.Grammar.{typed_member, constructed_or, typed_form, void_method, primitive_member, named_member, generic_method, annotated_method, generic_rest, generic, with_type_params};
ghost use Rattle.decl_grammar.specs.Rule.{reads};
ghost use Rattle.decl_members.specs.NamedMembers.{typed_at, constructed_at};

use apt_base::List;
use decl_grammar::sorts::{OPEN_PARENTHESIS, VOID};
use decl_grammar::{MemberRest, NameAt, ReadFault, Symbol, TypeParamAt, Unmodified};
use decl_tree::{BaseType, NamedPart, PrimitiveKind, TypeText};
use decl_types::{constructor_signature_of, member_rest_of, method_signature_of, type_params_of};
use decl_values::{
    annotation_of, annotations_of, dims_of, is_next, more_parts_of, one, optional_arguments_of,
    primitive_type_of, read_name_at, starts_annotation, starts_name, starts_primitive,
};
use std::alloc::Global;

// A member of a class type behind the first name of the type.
#[tactic(auto, unfolding(decl_grammar::specs::Grammar::typed_member))]
fn typed_member_of<'a, 's>(
    alloc: Global,
    room: usize,
    kind: MemberRest,
    first: NameAt,
    symbols: &'s [Symbol<'a>],
) -> Result<(Unmodified, &'s [Symbol<'a>]), ReadFault>
    ensures { Gives (λ x. (x.0, x.1.now)) result (typed_at first room kind symbols.now) }
{
    let (arguments, rest) = optional_arguments_of(alloc, room, symbols)?;
    let NameAt { name, .. } = first;
    let mut front = Vec::new(alloc);
    front.push(NamedPart { name, arguments })?;
    let (parts, rest) = more_parts_of(alloc, room, front, rest)?;
    let base = BaseType::Named(List::from_vec(parts));
    let (dims, rest) = dims_of(alloc, room, rest)?;
    let around = List::from_vec(dims);
    let (name, rest) = read_name_at(alloc, room, rest)?;
    member_rest_of(alloc, room, kind, TypeText { around, base }, name, rest)
}

// A constructor, or a member of a class type, behind its first name.
#[tactic(auto, using(decl_types::proofs::MemberFirsts::constructor_signature_first), unfolding(decl_grammar::specs::Grammar::constructed_or))]
fn constructed_or_of<'a, 's>(
    alloc: Global,
    room: usize,
    kind: MemberRest,
    first: NameAt,
    symbols: &'s [Symbol<'a>],
) -> Result<(Unmodified, &'s [Symbol<'a>]), ReadFault>
    ensures { Gives (λ x. (x.0, x.1.now)) result (constructed_at first room kind symbols.now) }
{
    if is_next(symbols, OPEN_PARENTHESIS) {
        let (signature, rest) = constructor_signature_of(alloc, room, symbols)?;
        let parameters = List::new(alloc);
        return Ok((
            Unmodified::Constructor(first.line, parameters, signature),
            rest,
        ));
    }
    typed_member_of(alloc, room, kind, first, symbols)
}

/// A member that begins with a name.
#[tactic(auto, unfolding(decl_grammar::specs::Grammar::named_member))]
pub fn named_member_of<'a, 's>(
    alloc: Global,
    room: usize,
    constructors: bool,
    kind: MemberRest,
    symbols: &'s [Symbol<'a>],
) -> Result<(Unmodified, &'s [Symbol<'a>]), ReadFault>
    ensures { Gives (λ x. (x.0, x.1.now)) result (reads room (named_member constructors kind) symbols.now) }
{
    let (first, rest) = read_name_at(alloc, room, symbols)?;
    if constructors {
        return constructed_or_of(alloc, room, kind, first, rest);
    }
    typed_member_of(alloc, room, kind, first, rest)
}

/// A method without a result.
#[tactic(auto, unfolding(decl_grammar::specs::Grammar::void_method))]
pub fn void_method_of<'a, 's>(
    alloc: Global,
    room: usize,
    symbols: &'s [Symbol<'a>],
) -> Result<(Unmodified, &'s [Symbol<'a>]), ReadFault>
    ensures { Gives (λ x. (x.0, x.1.now)) result (reads room void_method symbols.now) }
{
    let (_, rest) = one(symbols, VOID)?;
    let (name, rest) = read_name_at(alloc, room, rest)?;
    let (signature, rest) = method_signature_of(alloc, room, rest)?;
    let base = BaseType::Primitive(PrimitiveKind::Void);
    let around = List::new(alloc);
    let parameters = List::new(alloc);
    Ok((
        Unmodified::Method(parameters, TypeText { around, base }, name, signature),
        rest,
    ))
}

/// A member of a primitive type, or of an array of one.
#[tactic(auto, unfolding(decl_grammar::specs::Grammar::primitive_member))]
pub fn primitive_member_of<'a, 's>(
    alloc: Global,
    room: usize,
    kind: MemberRest,
    symbols: &'s [Symbol<'a>],
) -> Result<(Unmodified, &'s [Symbol<'a>]), ReadFault>
    ensures { Gives (λ x. (x.0, x.1.now)) result (reads room (primitive_member kind) symbols.now) }
{
    let (primitive, rest) = primitive_type_of(room, symbols)?;
    let base = BaseType::Primitive(primitive);
    let (dims, rest) = dims_of(alloc, room, rest)?;
    let around = List::from_vec(dims);
    let (name, rest) = read_name_at(alloc, room, rest)?;
    member_rest_of(alloc, room, kind, TypeText { around, base }, name, rest)
}

// A method behind type parameters and annotations.
#[tactic(auto, using(decl_types::proofs::MemberFirsts::void_method_first, decl_types::proofs::MemberFirsts::primitive_method_first), unfolding(decl_grammar::specs::Grammar::generic_method))]
fn generic_method_of<'a, 's>(
    alloc: Global,
    room: usize,
    symbols: &'s [Symbol<'a>],
) -> Result<(Unmodified, &'s [Symbol<'a>]), ReadFault>
    ensures { Gives (λ x. (x.0, x.1.now)) result (reads room generic_method symbols.now) }
{
    if is_next(symbols, VOID) {
        return void_method_of(alloc, room, symbols);
    }
    if starts_primitive(symbols) {
        return primitive_member_of(alloc, room, MemberRest::Method, symbols);
    }
    named_member_of(alloc, room, false, MemberRest::Method, symbols)
}

// A method behind type parameters, with annotations, of which there is one.
#[tactic(auto, unfolding(decl_grammar::specs::Grammar::annotated_method))]
fn annotated_method_of<'a, 's>(
    alloc: Global,
    room: usize,
    symbols: &'s [Symbol<'a>],
) -> Result<(Unmodified, &'s [Symbol<'a>]), ReadFault>
    ensures { Gives (λ x. (x.0, x.1.now)) result (reads room annotated_method symbols.now) }
{
    let (_, rest) = annotation_of(alloc, room, symbols)?;
    let (_, rest) = annotations_of(alloc, room, rest)?;
    generic_method_of(alloc, room, rest)
}

// A method or a constructor behind type parameters.
#[tactic(auto, using(decl_types::proofs::MemberFirsts::annotated_method_first, decl_types::proofs::MemberFirsts::void_method_first, decl_types::proofs::MemberFirsts::primitive_method_first), unfolding(decl_grammar::specs::Grammar::generic_rest))]
fn generic_rest_of<'a, 's>(
    alloc: Global,
    room: usize,
    constructors: bool,
    symbols: &'s [Symbol<'a>],
) -> Result<(Unmodified, &'s [Symbol<'a>]), ReadFault>
    ensures { Gives (λ x. (x.0, x.1.now)) result (reads room (generic_rest constructors) symbols.now) }
{
    if starts_annotation(symbols) {
        return annotated_method_of(alloc, room, symbols);
    }
    if is_next(symbols, VOID) {
        return void_method_of(alloc, room, symbols);
    }
    if starts_primitive(symbols) {
        return primitive_member_of(alloc, room, MemberRest::Method, symbols);
    }
    named_member_of(alloc, room, constructors, MemberRest::Method, symbols)
}

// The same member with other type parameters.
fn with_params(parameters: List<TypeParamAt>, unmodified: Unmodified) -> Unmodified
    ensures { result ≡ with_type_params parameters unmodified }
{
    match unmodified {
        Unmodified::Nothing => Unmodified::Nothing,
        Unmodified::Fields(of, declarators) => Unmodified::Fields(of, declarators),
        Unmodified::Method(_, of, name, signature) => {
            Unmodified::Method(parameters, of, name, signature)
        }
        Unmodified::Constructor(line, _, signature) => {
            Unmodified::Constructor(line, parameters, signature)
        }
        Unmodified::Nested(rest) => Unmodified::Nested(rest),
    }
}

/// A method or a constructor with type parameters (JLS 8.4.4, 8.8.4).
#[tactic(auto, unfolding(decl_grammar::specs::Grammar::generic))]
pub fn generic_member_of<'a, 's>(
    alloc: Global,
    room: usize,
    constructors: bool,
    symbols: &'s [Symbol<'a>],
) -> Result<(Unmodified, &'s [Symbol<'a>]), ReadFault>
    ensures { Gives (λ x. (x.0, x.1.now)) result (reads room (generic constructors) symbols.now) }
{
    let (parameters, rest) = type_params_of(alloc, room, symbols)?;
    let parameters = List::from_vec(parameters);
    let (unmodified, rest) = generic_rest_of(alloc, room, constructors, rest)?;
    Ok((with_params(parameters, unmodified), rest))
}
