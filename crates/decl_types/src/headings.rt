// Reads type parameters, lists of class types, imports and package declarations (JLS 7.4, 7.5, 8.1.2, 8.1.4 to 8.1.5).
ghost use Rattle.std.specs.Prelude.{◌≡◌, ◌++◌, [], ◌∷◌, ℕ, List, length, IfOk, Ok, Some, None, string_bytes, option_map};
ghost use Rattle.decl_grammar.specs.Reading.{Gives, has, starts, one_at};
ghost use Rattle.decl_grammar.specs.Form.{ats, many, maybe, nest, import_rest, turned, with_front};
ghost use Rattle.decl_types.specs.Members.{type_params_behind};
ghost use Rattle.decl_grammar.specs.Rows.{row_behind, list_at};
ghost use Rattle.decl_grammar.specs.Types.{list_or_none, annotated_class, next_bound, bounds, type_param, next_type_param, type_params, optional_params, next_class, classes};
ghost use Rattle.decl_grammar.specs.Grammar.{single_or, import_step, import_named, import_static, import_form, package_form, with_dot};
ghost use Rattle.decl_grammar.specs.Rule.{reads, read_nest};

use apt_base::List;
use decl_grammar::sorts::{AMPERSAND, COMMA, EXTENDS, GREATER_THAN, LESS_THAN, PACKAGE, SEMICOLON};
use decl_grammar::{NameAt, ReadFault, Symbol, TypeParamAt};
use decl_tree::{Import, ImportKind, TypeParam, TypeText};
use decl_values::{
    annotated_class_of, annotations_of, begin, is_next, one, read_chain, read_name_at,
};
use std::alloc::Global;

// A `&` and a further bound.
#[tactic(auto, unfolding(decl_grammar::specs::Types::next_bound))]
fn next_bound_of<'a, 's>(
    alloc: Global,
    room: usize,
    symbols: &'s [Symbol<'a>],
) -> Result<(TypeText, &'s [Symbol<'a>]), ReadFault>
    ensures { Gives (λ x. (x.0, x.1.now)) result (reads room next_bound symbols.now) }
{
    let (_, rest) = one(symbols, AMPERSAND)?;
    annotated_class_of(alloc, room, rest)
}

// The further bounds, put behind others.
fn more_bounds_of<'a, 's>(
    alloc: Global,
    room: usize,
    front: Vec<TypeText>,
    symbols: &'s [Symbol<'a>],
) -> Result<(Vec<TypeText>, &'s [Symbol<'a>]), ReadFault>
    ensures { Gives (λ x. (x.0.items, x.1.now)) result (row_behind front.items room next_bound symbols.now) }
{
    let mut all = front;
    let mut rest = begin(symbols)?;
    'row: while is_next(rest, AMPERSAND) {
        let (next, after) = next_bound_of(alloc, room, rest)?;
        all.push(next)?;
        rest = after;
    }
    Ok((all, rest))
}

// The bounds of a type parameter.
#[tactic(auto, unfolding(decl_grammar::specs::Types::bounds))]
fn bounds_of<'a, 's>(
    alloc: Global,
    room: usize,
    symbols: &'s [Symbol<'a>],
) -> Result<(Vec<TypeText>, &'s [Symbol<'a>]), ReadFault>
    ensures { Gives (λ x. (x.0.items, x.1.now)) result (reads room bounds symbols.now) }
{
    let (_, rest) = one(symbols, EXTENDS)?;
    let (first, rest) = annotated_class_of(alloc, room, rest)?;
    let mut front = Vec::new(alloc);
    front.push(first)?;
    more_bounds_of(alloc, room, front, rest)
}

// The bounds of a type parameter, where there are any.
#[tactic(auto, using(decl_grammar::proofs::Firsts::bounds_first))]
fn optional_bounds_of<'a, 's>(
    alloc: Global,
    room: usize,
    symbols: &'s [Symbol<'a>],
) -> Result<(Vec<TypeText>, &'s [Symbol<'a>]), ReadFault>
    ensures { Gives (λ x. (x.0.items, x.1.now)) result (list_at room bounds symbols.now) }
{
    if is_next(symbols, EXTENDS) {
        return bounds_of(alloc, room, symbols);
    }
    Ok((Vec::new(alloc), symbols))
}

/// A type parameter.
#[tactic(auto, unfolding(decl_grammar::specs::Types::type_param))]
pub fn type_param_of<'a, 's>(
    alloc: Global,
    room: usize,
    symbols: &'s [Symbol<'a>],
) -> Result<(TypeParamAt, &'s [Symbol<'a>]), ReadFault>
    ensures { Gives (λ x. (x.0, x.1.now)) result (reads room type_param symbols.now) }
{
    let (annotations, rest) = annotations_of(alloc, room, symbols)?;
    let annotations = List::from_vec(annotations);
    let (name, rest) = read_name_at(alloc, room, rest)?;
    let (bounds, rest) = optional_bounds_of(alloc, room, rest)?;
    let bounds = List::from_vec(bounds);
    let NameAt { name, line } = name;
    let param = TypeParam {
        name,
        annotations,
        bounds,
    };
    Ok((TypeParamAt { param, line }, rest))
}

// A comma and a type parameter.
#[tactic(auto, unfolding(decl_grammar::specs::Types::next_type_param))]
fn next_type_param_of<'a, 's>(
    alloc: Global,
    room: usize,
    symbols: &'s [Symbol<'a>],
) -> Result<(TypeParamAt, &'s [Symbol<'a>]), ReadFault>
    ensures { Gives (λ x. (x.0, x.1.now)) result (reads room next_type_param symbols.now) }
{
    let (_, rest) = one(symbols, COMMA)?;
    type_param_of(alloc, room, rest)
}

// The type parameters behind commas, put behind others.
fn more_type_params_of<'a, 's>(
    alloc: Global,
    room: usize,
    front: Vec<TypeParamAt>,
    symbols: &'s [Symbol<'a>],
) -> Result<(Vec<TypeParamAt>, &'s [Symbol<'a>]), ReadFault>
    ensures { Gives (λ x. (x.0.items, x.1.now)) result (type_params_behind front.items room symbols.now) }
{
    let mut all = front;
    let mut rest = begin(symbols)?;
    'row: while is_next(rest, COMMA) {
        let (next, after) = next_type_param_of(alloc, room, rest)?;
        all.push(next)?;
        rest = after;
    }
    Ok((all, rest))
}

/// Type parameters (JLS 8.1.2).
#[tactic(auto, unfolding(decl_grammar::specs::Types::type_params))]
pub fn type_params_of<'a, 's>(
    alloc: Global,
    room: usize,
    symbols: &'s [Symbol<'a>],
) -> Result<(Vec<TypeParamAt>, &'s [Symbol<'a>]), ReadFault>
    ensures { Gives (λ x. (x.0.items, x.1.now)) result (reads room type_params symbols.now) }
{
    let (_, rest) = one(symbols, LESS_THAN)?;
    let (first, rest) = type_param_of(alloc, room, rest)?;
    let mut front = Vec::new(alloc);
    front.push(first)?;
    let (all, rest) = more_type_params_of(alloc, room, front, rest)?;
    let (_, rest) = one(rest, GREATER_THAN)?;
    Ok((all, rest))
}

/// Type parameters, where there are any.
#[tactic(auto, using(decl_grammar::proofs::Firsts::type_params_first), unfolding(decl_grammar::specs::Types::optional_params))]
pub fn optional_params_of<'a, 's>(
    alloc: Global,
    room: usize,
    symbols: &'s [Symbol<'a>],
) -> Result<(Vec<TypeParamAt>, &'s [Symbol<'a>]), ReadFault>
    ensures { Gives (λ x. (x.0.items, x.1.now)) result (reads room optional_params symbols.now) }
{
    if is_next(symbols, LESS_THAN) {
        return type_params_of(alloc, room, symbols);
    }
    Ok((Vec::new(alloc), symbols))
}

// A comma and a class type.
#[tactic(auto, unfolding(decl_grammar::specs::Types::next_class))]
fn next_class_of<'a, 's>(
    alloc: Global,
    room: usize,
    symbols: &'s [Symbol<'a>],
) -> Result<(TypeText, &'s [Symbol<'a>]), ReadFault>
    ensures { Gives (λ x. (x.0, x.1.now)) result (reads room next_class symbols.now) }
{
    let (_, rest) = one(symbols, COMMA)?;
    annotated_class_of(alloc, room, rest)
}

// The class types behind commas, put behind others.
fn more_classes_of<'a, 's>(
    alloc: Global,
    room: usize,
    front: Vec<TypeText>,
    symbols: &'s [Symbol<'a>],
) -> Result<(Vec<TypeText>, &'s [Symbol<'a>]), ReadFault>
    ensures { Gives (λ x. (x.0.items, x.1.now)) result (row_behind front.items room next_class symbols.now) }
{
    let mut all = front;
    let mut rest = begin(symbols)?;
    'row: while is_next(rest, COMMA) {
        let (next, after) = next_class_of(alloc, room, rest)?;
        all.push(next)?;
        rest = after;
    }
    Ok((all, rest))
}

/// Class types with commas between them.
#[tactic(auto, unfolding(decl_grammar::specs::Types::classes))]
pub fn classes_of<'a, 's>(
    alloc: Global,
    room: usize,
    symbols: &'s [Symbol<'a>],
) -> Result<(Vec<TypeText>, &'s [Symbol<'a>]), ReadFault>
    ensures { Gives (λ x. (x.0.items, x.1.now)) result (reads room classes symbols.now) }
{
    let (first, rest) = annotated_class_of(alloc, room, symbols)?;
    let mut front = Vec::new(alloc);
    front.push(first)?;
    more_classes_of(alloc, room, front, rest)
}

/// A package declaration (JLS 7.4): its name, with the line of the `package`.
#[tactic(auto, unfolding(decl_grammar::specs::Grammar::package_form))]
pub fn package_of<'a, 's>(
    alloc: Global,
    room: usize,
    symbols: &'s [Symbol<'a>],
) -> Result<(NameAt, &'s [Symbol<'a>]), ReadFault>
    ensures { Gives (λ x. (x.0, x.1.now)) result (reads room package_form symbols.now) }
{
    let (word, rest) = one(symbols, PACKAGE)?;
    let (name, rest) = read_chain(alloc, room, rest)?;
    let (_, rest) = one(rest, SEMICOLON)?;
    let line = word.line;
    Ok((NameAt { name, line }, rest))
}
