// Reads types (JLS 4, 8.1.2, 8.3, 10.2).
ghost use Rattle.std.specs.Prelude.{◌≡◌, ◌++◌, [], ◌∷◌, List};
ghost use Rattle.decl_grammar.specs.Reading.{Gives, starts};
ghost use Rattle.decl_grammar.specs.Form.{ats, many, type_arguments, turned};
ghost use Rattle.decl_grammar.specs.Rows.{read_as, row_behind};
ghost use Rattle.decl_grammar.specs.Types.{modifier_annotation, named_part, next_part, class_type, dim, base_type, reference, annotated_class, annotated_reference, class_array, primitive_array, type_in};
ghost use Rattle.decl_grammar.specs.Rule.{reads};

use crate::annotations::{annotation_body_of, annotations_of};
use crate::around::one_item;
use crate::type_arguments::optional_arguments_of;
use apt_base::{List, Name};
use decl_constants::primitive_type_of;
use decl_grammar::sorts::{AT, CLOSE_BRACKET, DOT, OPEN_BRACKET};
use decl_grammar::{ReadFault, Symbol};
use decl_names::{
    begin, is_next, one, read_name, starts_annotation, starts_name, starts_primitive,
};
use decl_tree::{AnnotationText, Around, BaseType, NamedPart, TypeText};
use std::alloc::Global;

/// An annotation where the `@` of an annotation interface begins none.
#[tactic(auto, unfolding(decl_grammar::specs::Types::modifier_annotation))]
pub fn modifier_annotation_of<'a, 's>(
    alloc: Global,
    room: usize,
    symbols: &'s [Symbol<'a>],
) -> Result<(AnnotationText, &'s [Symbol<'a>]), ReadFault>
    ensures { Gives (λ x. (x.0, x.1.now)) result (reads room modifier_annotation symbols.now) }
{
    let (_, rest) = one(symbols, AT)?;
    annotation_body_of(alloc, room, rest)
}

// A name of a class type, and its type arguments.
#[cycle(values)]
#[tactic(auto, unfolding(decl_grammar::specs::Types::named_part))]
fn named_part_of<'a, 's>(
    alloc: Global,
    room: usize,
    symbols: &'s [Symbol<'a>],
) -> Result<(NamedPart, &'s [Symbol<'a>]), ReadFault>
    ensures { Gives (λ x. (x.0, x.1.now)) result (reads room named_part symbols.now) }
{
    let (text, rest) = read_name(room, symbols)?;
    let name = Name::new(alloc, text)?;
    let (arguments, rest) = optional_arguments_of(alloc, room, rest)?;
    Ok((NamedPart { name, arguments }, rest))
}

// A dot, annotations, and a name with its type arguments.
#[cycle(values)]
#[tactic(auto, unfolding(decl_grammar::specs::Types::next_part))]
fn next_part_of<'a, 's>(
    alloc: Global,
    room: usize,
    symbols: &'s [Symbol<'a>],
) -> Result<(NamedPart, &'s [Symbol<'a>]), ReadFault>
    ensures { Gives (λ x. (x.0, x.1.now)) result (reads room next_part symbols.now) }
{
    let (_, rest) = one(symbols, DOT)?;
    let (_, rest) = annotations_of(alloc, room, rest)?;
    named_part_of(alloc, room, rest)
}

/// The names behind dots, put behind others.
#[cycle(values)]
pub fn more_parts_of<'a, 's>(
    alloc: Global,
    room: usize,
    front: Vec<NamedPart>,
    symbols: &'s [Symbol<'a>],
) -> Result<(Vec<NamedPart>, &'s [Symbol<'a>]), ReadFault>
    ensures { Gives (λ x. (x.0.items, x.1.now)) result (row_behind front.items room next_part symbols.now) }
{
    let mut all = front;
    let mut rest = begin(symbols)?;
    'row: while is_next(rest, DOT) {
        let (next, after) = next_part_of(alloc, room, rest)?;
        all.push(next)?;
        rest = after;
    }
    Ok((all, rest))
}

/// The names behind dots that stand here.
#[cycle(values)]
#[tactic(auto, using(decl_grammar::proofs::Loop::starts_with))]
pub fn parts_of<'a, 's>(
    alloc: Global,
    room: usize,
    symbols: &'s [Symbol<'a>],
) -> Result<(Vec<NamedPart>, &'s [Symbol<'a>]), ReadFault>
    ensures { Gives (λ x. (x.0.items, x.1.now)) result (reads room (many next_part) symbols.now) }
{
    let front = Vec::new(alloc);
    more_parts_of(alloc, room, front, symbols)
}

/// A class type (JLS 4.3): its names, which dots join.
#[cycle(values)]
#[tactic(auto, unfolding(decl_grammar::specs::Types::class_type))]
pub fn class_type_of<'a, 's>(
    alloc: Global,
    room: usize,
    symbols: &'s [Symbol<'a>],
) -> Result<(Vec<NamedPart>, &'s [Symbol<'a>]), ReadFault>
    ensures { Gives (λ x. (x.0.items, x.1.now)) result (reads room class_type symbols.now) }
{
    let (first, rest) = named_part_of(alloc, room, symbols)?;
    let all = one_item(alloc, first)?;
    more_parts_of(alloc, room, all, rest)
}

/// A pair of brackets, and annotations before it.
#[cycle(values)]
#[tactic(auto, unfolding(decl_grammar::specs::Types::dim))]
pub fn dim_of<'a, 's>(
    alloc: Global,
    room: usize,
    symbols: &'s [Symbol<'a>],
) -> Result<(Around, &'s [Symbol<'a>]), ReadFault>
    ensures { Gives (λ x. (x.0, x.1.now)) result (reads room dim symbols.now) }
{
    let (_, rest) = annotations_of(alloc, room, symbols)?;
    let (_, rest) = one(rest, OPEN_BRACKET)?;
    let (_, rest) = one(rest, CLOSE_BRACKET)?;
    Ok((Around::Array, rest))
}

/// Whether a pair of brackets begins here, or an annotation before one.
pub fn starts_dim(symbols: &[Symbol<'_>]) -> bool
    ensures { result ≡ starts (ats ++ (OPEN_BRACKET ∷ [])) symbols.now }
{
    starts_annotation(symbols) || is_next(symbols, OPEN_BRACKET)
}

/// The pairs of brackets that stand here, put behind others.
#[cycle(values)]
pub fn more_dims_of<'a, 's>(
    alloc: Global,
    room: usize,
    front: Vec<Around>,
    symbols: &'s [Symbol<'a>],
) -> Result<(Vec<Around>, &'s [Symbol<'a>]), ReadFault>
    ensures { Gives (λ x. (x.0.items, x.1.now)) result (row_behind front.items room dim symbols.now) }
{
    let mut all = front;
    let mut rest = begin(symbols)?;
    'row: while starts_dim(rest) {
        let (next, after) = dim_of(alloc, room, rest)?;
        all.push(next)?;
        rest = after;
    }
    Ok((all, rest))
}

/// The pairs of brackets that stand here.
#[cycle(values)]
#[tactic(auto, using(decl_grammar::proofs::Loop::starts_with))]
pub fn dims_of<'a, 's>(
    alloc: Global,
    room: usize,
    symbols: &'s [Symbol<'a>],
) -> Result<(Vec<Around>, &'s [Symbol<'a>]), ReadFault>
    ensures { Gives (λ x. (x.0.items, x.1.now)) result (reads room (many dim) symbols.now) }
{
    let front = Vec::new(alloc);
    more_dims_of(alloc, room, front, symbols)
}

/// A type without what stands around it.
#[tactic(auto, using(decl_grammar::proofs::Firsts::primitive_type_first), unfolding(decl_grammar::specs::Types::base_type))]
pub fn base_type_of<'a, 's>(
    alloc: Global,
    room: usize,
    symbols: &'s [Symbol<'a>],
) -> Result<(BaseType, &'s [Symbol<'a>]), ReadFault>
    ensures { Gives (λ x. (x.0, x.1.now)) result (reads room base_type symbols.now) }
{
    if starts_primitive(symbols) {
        let (kind, rest) = primitive_type_of(room, symbols)?;
        return Ok((BaseType::Primitive(kind), rest));
    }
    let (parts, rest) = class_type_of(alloc, room, symbols)?;
    Ok((BaseType::Named(List::from_vec(parts)), rest))
}

// An array of a primitive type.
#[cycle(values)]
#[tactic(auto, unfolding(decl_grammar::specs::Types::primitive_array))]
fn primitive_array_of<'a, 's>(
    alloc: Global,
    room: usize,
    symbols: &'s [Symbol<'a>],
) -> Result<(TypeText, &'s [Symbol<'a>]), ReadFault>
    ensures { Gives (λ x. (x.0, x.1.now)) result (turned type_in (reads room primitive_array symbols.now)) }
{
    let (kind, rest) = primitive_type_of(room, symbols)?;
    let (first, rest) = dim_of(alloc, room, rest)?;
    let front = one_item(alloc, first)?;
    let (dims, rest) = more_dims_of(alloc, room, front, rest)?;
    let around = List::from_vec(dims);
    let base = BaseType::Primitive(kind);
    Ok((TypeText { around, base }, rest))
}

// A class type, or an array of one.
#[cycle(values)]
#[tactic(auto, unfolding(decl_grammar::specs::Types::class_array))]
fn class_array_of<'a, 's>(
    alloc: Global,
    room: usize,
    symbols: &'s [Symbol<'a>],
) -> Result<(TypeText, &'s [Symbol<'a>]), ReadFault>
    ensures { Gives (λ x. (x.0, x.1.now)) result (turned type_in (reads room class_array symbols.now)) }
{
    let (parts, rest) = class_type_of(alloc, room, symbols)?;
    let (dims, rest) = dims_of(alloc, room, rest)?;
    let around = List::from_vec(dims);
    let base = BaseType::Named(List::from_vec(parts));
    Ok((TypeText { around, base }, rest))
}

/// A class type or an array, as its base and what stands around it.
#[cycle(values)]
#[tactic(auto, using(decl_grammar::proofs::Firsts::class_array_first), unfolding(decl_grammar::specs::Types::reference))]
pub fn reference_of<'a, 's>(
    alloc: Global,
    room: usize,
    symbols: &'s [Symbol<'a>],
) -> Result<(TypeText, &'s [Symbol<'a>]), ReadFault>
    ensures { Gives (λ x. (x.0, x.1.now)) result (turned type_in (reads room reference symbols.now)) }
{
    if starts_name(symbols) {
        return class_array_of(alloc, room, symbols);
    }
    primitive_array_of(alloc, room, symbols)
}

/// Annotations, and a class type or an array.
#[cycle(values)]
#[tactic(auto, unfolding(decl_grammar::specs::Types::annotated_reference))]
pub fn annotated_reference_of<'a, 's>(
    alloc: Global,
    room: usize,
    symbols: &'s [Symbol<'a>],
) -> Result<(TypeText, &'s [Symbol<'a>]), ReadFault>
    ensures { Gives (λ x. (x.0, x.1.now)) result (read_as type_in room annotated_reference symbols.now) }
{
    let (_, rest) = annotations_of(alloc, room, symbols)?;
    reference_of(alloc, room, rest)
}

/// Annotations, which are passed over, and a class type.
#[tactic(auto, unfolding(decl_grammar::specs::Types::annotated_class))]
pub fn annotated_class_of<'a, 's>(
    alloc: Global,
    room: usize,
    symbols: &'s [Symbol<'a>],
) -> Result<(TypeText, &'s [Symbol<'a>]), ReadFault>
    ensures { Gives (λ x. (x.0, x.1.now)) result (reads room annotated_class symbols.now) }
{
    let (_, rest) = annotations_of(alloc, room, symbols)?;
    let (parts, rest) = class_type_of(alloc, room, rest)?;
    let base = BaseType::Named(List::from_vec(parts));
    let around = List::new(alloc);
    Ok((TypeText { around, base }, rest))
}
