// Reads parameters (JLS 8.4.1) and the receiver (JLS 8.4).
ghost use Rattle.std.specs.Prelude.{◌≡◌, ◌++◌, [], ◌∷◌, ℕ, List, length, IfOk, Ok, Some, None, MatchResult};
ghost use Rattle.decl_grammar.specs.declared.fault.ReadFault.TheVariants as faults;
ghost use Rattle.decl_grammar.specs.Reading.{Gives, UnlessMemory, has, starts};
ghost use Rattle.decl_grammar.specs.Form.{ats, names, many, maybe, nest, either, turn, param_rest, first_rest, turned, primitive_sorts};
ghost use Rattle.decl_grammar.specs.Grammar.{param_of, named_end, receiver, dot_this, with_dims, some_dims, end_named, varargs, based, params_from, next_params, behind_annotations, first_params, params};
ghost use Rattle.decl_grammar.specs.Rule.{reads, read_nest};
ghost use Rattle.decl_types.specs.Params.{some_end, one_or_none, bracket_step, varargs_step, annotated_step, param_step, first_end, first_step, finished, params_behind, more_params, this_or_name, ReadsEndOf, ReadsParam, ReadsBased, ReadsFound};

use crate::modifiers::{more_param_modifiers_of, param_modifiers_of};
use crate::starting::is_primitive_or_name;
use apt_base::List;
use decl_grammar::sorts::{
    CLOSE_BRACKET, CLOSE_PARENTHESIS, COMMA, DOT, ELLIPSIS, FINAL, OPEN_BRACKET, OPEN_PARENTHESIS,
    THIS,
};
use decl_grammar::{Modifiers, NameAt, ParamAt, ParamEnd, Params, ReadFault, Symbol};
use decl_tree::{AnnotationText, Around, BaseType, Param, TypeText};
use decl_values::{
    annotation_of, annotations_of, base_type_of, begin, dim_of, dims_of, is_at, is_next,
    more_dims_of, one, read_name_at, starts_annotation, starts_dim,
};
use std::alloc::Global;

// A pair of brackets.
#[tactic(auto, unfolding(crate::specs::Params::bracket_step))]
fn bracket_step_of<'a, 's>(
    room: usize,
    symbols: &'s [Symbol<'a>],
) -> Result<(Option<ParamEnd>, &'s [Symbol<'a>]), ReadFault>
    ensures { Gives (λ x. (x.0, x.1.now)) result (reads room bracket_step symbols.now) }
{
    let (_, rest) = one(symbols, OPEN_BRACKET)?;
    let (_, rest) = one(rest, CLOSE_BRACKET)?;
    Ok((None, rest))
}

// `...` and the name of a parameter.
#[tactic(auto, unfolding(crate::specs::Params::varargs_step, decl_grammar::specs::Grammar::varargs))]
fn varargs_step_of<'a, 's>(
    alloc: Global,
    room: usize,
    symbols: &'s [Symbol<'a>],
) -> Result<(Option<ParamEnd>, &'s [Symbol<'a>]), ReadFault>
    ensures { Gives (λ x. (x.0, x.1.now)) result (reads room varargs_step symbols.now) }
{
    let (_, rest) = one(symbols, ELLIPSIS)?;
    let (name, rest) = read_name_at(alloc, room, rest)?;
    Ok((Some(ParamEnd::AnyNumber(name)), rest))
}

// A pair of brackets, or `...` and a name.
#[tactic(auto, using(crate::proofs::ParamFirsts::bracket_step_first))]
fn behind_annotations_step_of<'a, 's>(
    alloc: Global,
    room: usize,
    symbols: &'s [Symbol<'a>],
) -> Result<(Option<ParamEnd>, &'s [Symbol<'a>]), ReadFault>
    ensures { Gives (λ x. (x.0, x.1.now)) result (reads room (either bracket_step varargs_step) symbols.now) }
{
    if is_next(symbols, OPEN_BRACKET) {
        return bracket_step_of(room, symbols);
    }
    varargs_step_of(alloc, room, symbols)
}

// The same behind annotations, of which there is one.
#[tactic(auto, unfolding(crate::specs::Params::annotated_step))]
fn annotated_step_of<'a, 's>(
    alloc: Global,
    room: usize,
    symbols: &'s [Symbol<'a>],
) -> Result<(Option<ParamEnd>, &'s [Symbol<'a>]), ReadFault>
    ensures { Gives (λ x. (x.0, x.1.now)) result (reads room annotated_step symbols.now) }
{
    let (_, rest) = annotation_of(alloc, room, symbols)?;
    let (_, rest) = annotations_of(alloc, room, rest)?;
    behind_annotations_step_of(alloc, room, rest)
}

// A name and the brackets behind it.
#[tactic(auto, unfolding(decl_grammar::specs::Grammar::named_end))]
fn named_end_of<'a, 's>(
    alloc: Global,
    room: usize,
    symbols: &'s [Symbol<'a>],
) -> Result<(ParamEnd, &'s [Symbol<'a>]), ReadFault>
    ensures { Gives (λ x. (x.0, x.1.now)) result (reads room named_end symbols.now) }
{
    let (name, rest) = read_name_at(alloc, room, symbols)?;
    let (dims, rest) = dims_of(alloc, room, rest)?;
    Ok((ParamEnd::Named(name, List::from_vec(dims)), rest))
}

/// A step behind the base of the type of a parameter.
#[tactic(auto, using(crate::proofs::ParamFirsts::bracket_step_first, crate::proofs::ParamFirsts::annotated_step_first, crate::proofs::ParamFirsts::varargs_step_first), unfolding(crate::specs::Params::param_step))]
pub fn param_step_of<'a, 's>(
    alloc: Global,
    room: usize,
    symbols: &'s [Symbol<'a>],
) -> Result<(Option<ParamEnd>, &'s [Symbol<'a>]), ReadFault>
    ensures { Gives (λ x. (x.0, x.1.now)) result (reads room param_step symbols.now) }
{
    if is_next(symbols, OPEN_BRACKET) {
        return bracket_step_of(room, symbols);
    }
    if starts_annotation(symbols) {
        return annotated_step_of(alloc, room, symbols);
    }
    if is_next(symbols, ELLIPSIS) {
        return varargs_step_of(alloc, room, symbols);
    }
    let (end, rest) = named_end_of(alloc, room, symbols)?;
    Ok((Some(end), rest))
}

// `.` and `this`.
#[tactic(auto, unfolding(decl_grammar::specs::Grammar::dot_this))]
fn dot_this_of<'a, 's>(
    room: usize,
    symbols: &'s [Symbol<'a>],
) -> Result<&'s [Symbol<'a>], ReadFault>
    ensures { Gives (λ x. (None, x.now)) result (reads room dot_this symbols.now) }
{
    let (_, rest) = one(symbols, DOT)?;
    let (_, rest) = one(rest, THIS)?;
    Ok(rest)
}

// Pairs of brackets, of which there is one.
#[tactic(auto, unfolding(decl_grammar::specs::Grammar::with_dims, decl_grammar::specs::Grammar::some_dims))]
fn some_dims_of<'a, 's>(
    alloc: Global,
    room: usize,
    symbols: &'s [Symbol<'a>],
) -> Result<(Vec<Around>, &'s [Symbol<'a>]), ReadFault>
    ensures { Gives (λ x. (Some x.0.items, x.1.now)) result (reads room with_dims symbols.now) }
{
    let (first, rest) = dim_of(alloc, room, symbols)?;
    let mut front = Vec::new(alloc);
    front.push(first)?;
    more_dims_of(alloc, room, front, rest)
}

// A name, and the brackets or the `this` behind it.
#[tactic(auto, using(crate::proofs::ParamFirsts::dot_this_first, crate::proofs::ParamFirsts::with_dims_first), unfolding(crate::specs::Params::first_end))]
fn first_end_of<'a, 's>(
    alloc: Global,
    room: usize,
    symbols: &'s [Symbol<'a>],
) -> Result<(ParamEnd, &'s [Symbol<'a>]), ReadFault>
    ensures { Gives (λ x. (x.0, x.1.now)) result (reads room first_end symbols.now) }
{
    let (name, rest) = read_name_at(alloc, room, symbols)?;
    if is_next(rest, DOT) {
        let rest = dot_this_of(room, rest)?;
        return Ok((ParamEnd::Receiver, rest));
    }
    if starts_dim(rest) {
        let (dims, rest) = some_dims_of(alloc, room, rest)?;
        return Ok((ParamEnd::Named(name, List::from_vec(dims)), rest));
    }
    Ok((ParamEnd::Named(name, List::new(alloc)), rest))
}

// `this`.
#[tactic(auto, unfolding(decl_grammar::specs::Grammar::receiver))]
fn receiver_of<'a, 's>(
    room: usize,
    symbols: &'s [Symbol<'a>],
) -> Result<(ParamEnd, &'s [Symbol<'a>]), ReadFault>
    ensures { Gives (λ x. (x.0, x.1.now)) result (reads room receiver symbols.now) }
{
    let (_, rest) = one(symbols, THIS)?;
    Ok((ParamEnd::Receiver, rest))
}

// `this`, or a name and what stands behind it.
#[tactic(auto, using(crate::proofs::ParamFirsts::receiver_first))]
fn this_or_name_of<'a, 's>(
    alloc: Global,
    room: usize,
    symbols: &'s [Symbol<'a>],
) -> Result<(Option<ParamEnd>, &'s [Symbol<'a>]), ReadFault>
    ensures { Gives (λ x. (x.0, x.1.now)) result (reads room this_or_name symbols.now) }
{
    if is_next(symbols, THIS) {
        let (end, rest) = receiver_of(room, symbols)?;
        return Ok((Some(end), rest));
    }
    let (end, rest) = first_end_of(alloc, room, symbols)?;
    Ok((Some(end), rest))
}

/// A step behind the base of the type of a first parameter.
#[tactic(auto, using(crate::proofs::ParamFirsts::bracket_step_first, crate::proofs::ParamFirsts::annotated_step_first, crate::proofs::ParamFirsts::varargs_step_first), unfolding(crate::specs::Params::first_step))]
pub fn first_step_of<'a, 's>(
    alloc: Global,
    room: usize,
    symbols: &'s [Symbol<'a>],
) -> Result<(Option<ParamEnd>, &'s [Symbol<'a>]), ReadFault>
    ensures { Gives (λ x. (x.0, x.1.now)) result (reads room first_step symbols.now) }
{
    if is_next(symbols, OPEN_BRACKET) {
        return bracket_step_of(room, symbols);
    }
    if starts_annotation(symbols) {
        return annotated_step_of(alloc, room, symbols);
    }
    if is_next(symbols, ELLIPSIS) {
        return varargs_step_of(alloc, room, symbols);
    }
    this_or_name_of(alloc, room, symbols)
}

// The brackets behind the type of a parameter, and its end.
fn param_end_of<'a, 's>(
    alloc: Global,
    room: usize,
    symbols: &'s [Symbol<'a>],
) -> Result<((Vec<Around>, ParamEnd), &'s [Symbol<'a>]), ReadFault>
    ensures { ReadsEndOf (λ x. (x.0.0.items, (x.0.1, x.1.now))) result room (nest param_rest) symbols.now }
{
    let mut all = Vec::new(alloc);
    let mut rest = begin(symbols)?;
    'row: loop {
        let (next, after) = param_step_of(alloc, room, rest)?;
        match next {
            Some(end) => return Ok(((all, end), after)),
            None => all.push(Around::Array)?,
        }
        rest = after;
    }
}

// The same of a first parameter.
fn first_param_end_of<'a, 's>(
    alloc: Global,
    room: usize,
    symbols: &'s [Symbol<'a>],
) -> Result<((Vec<Around>, ParamEnd), &'s [Symbol<'a>]), ReadFault>
    ensures { ReadsEndOf (λ x. (x.0.0.items, (x.0.1, x.1.now))) result room (nest first_rest) symbols.now }
{
    let mut all = Vec::new(alloc);
    let mut rest = begin(symbols)?;
    'row: loop {
        let (next, after) = first_step_of(alloc, room, rest)?;
        match next {
            Some(end) => return Ok(((all, end), after)),
            None => all.push(Around::Array)?,
        }
        rest = after;
    }
}

// A parameter from its parts.
fn param_from_parts(
    name: NameAt,
    dims: Vec<Around>,
    modifiers: Modifiers,
    base: BaseType,
    around: Vec<Around>,
) -> Result<ParamAt, ReadFault>
    ensures { UnlessMemory result (λ p. p ≡ param_of name dims.items modifiers base around.items) }
{
    let Modifiers { bits, annotations } = modifiers;
    let mut items = dims;
    items.extend_from_slice(around.as_slice())?;
    let around = List::from_vec(items);
    let of = TypeText { around, base };
    let modifiers = bits;
    let NameAt { name, line } = name;
    let param = Param {
        name,
        modifiers,
        annotations,
        of,
    };
    Ok(ParamAt { param, line })
}

// A parameter from its parts, where it is no receiver, and whether it takes any number of arguments.
fn finish_param(
    alloc: Global,
    modifiers: Modifiers,
    base: BaseType,
    around: Vec<Around>,
    end: ParamEnd,
) -> Result<(Option<ParamAt>, bool), ReadFault>
    ensures { UnlessMemory result (λ x. x ≡ finished modifiers base around.items end) }
{
    match end {
        ParamEnd::Named(name, dims) => {
            let param = param_from_parts(name, dims.into_vec(), modifiers, base, around)?;
            Ok((Some(param), false))
        }
        ParamEnd::AnyNumber(name) => {
            let mut dims = Vec::new(alloc);
            dims.push(Around::Array)?;
            let param = param_from_parts(name, dims, modifiers, base, around)?;
            Ok((Some(param), true))
        }
        ParamEnd::Receiver => Ok((None, false)),
    }
}

// A parameter behind its modifiers.
fn based_param_of<'a, 's>(
    alloc: Global,
    room: usize,
    modifiers: Modifiers,
    symbols: &'s [Symbol<'a>],
) -> Result<((Option<ParamAt>, bool), &'s [Symbol<'a>]), ReadFault>
    ensures { ReadsBased (λ x. (x.0, x.1.now)) result room modifiers (nest param_rest) symbols.now }
{
    let (base, rest) = base_type_of(alloc, room, symbols)?;
    let ((around, end), rest) = param_end_of(alloc, room, rest)?;
    let param = finish_param(alloc, modifiers, base, around, end)?;
    Ok((param, rest))
}

// A first parameter behind its annotations, or the receiver.
fn based_first_of<'a, 's>(
    alloc: Global,
    room: usize,
    modifiers: Modifiers,
    symbols: &'s [Symbol<'a>],
) -> Result<((Option<ParamAt>, bool), &'s [Symbol<'a>]), ReadFault>
    ensures { ReadsBased (λ x. (x.0, x.1.now)) result room modifiers (nest first_rest) symbols.now }
{
    let (base, rest) = base_type_of(alloc, room, symbols)?;
    let ((around, end), rest) = first_param_end_of(alloc, room, rest)?;
    let param = finish_param(alloc, modifiers, base, around, end)?;
    Ok((param, rest))
}

/// A comma and a parameter, and whether that takes any number of arguments.
pub fn next_param_of<'a, 's>(
    alloc: Global,
    room: usize,
    symbols: &'s [Symbol<'a>],
) -> Result<((Option<ParamAt>, bool), &'s [Symbol<'a>]), ReadFault>
    ensures { ReadsParam (λ x. (x.0, x.1.now)) result room symbols.now (reads room next_params symbols.now) }
{
    let (_, rest) = one(symbols, COMMA)?;
    let (modifiers, rest) = param_modifiers_of(alloc, room, rest)?;
    based_param_of(alloc, room, modifiers, rest)
}

// The parameters behind commas, put behind others, and whether the last one takes any number of arguments.
fn more_params_of<'a, 's>(
    alloc: Global,
    room: usize,
    front: Vec<ParamAt>,
    symbols: &'s [Symbol<'a>],
) -> Result<((Vec<ParamAt>, bool), &'s [Symbol<'a>]), ReadFault>
    ensures { Gives (λ x. ((x.0.0.items, x.0.1), x.1.now)) result (more_params front.items room symbols.now) }
{
    let mut all = front;
    let mut rest = begin(symbols)?;
    'row: while is_next(rest, COMMA) {
        let ((next, last), after) = next_param_of(alloc, room, rest)?;
        add_param(&mut all, next)?;
        if last {
            return Ok(((all, true), after));
        }
        rest = after;
    }
    Ok(((all, false), rest))
}

// Puts a parameter behind others, where there is one.
fn add_param(all: &mut Vec<ParamAt>, param: Option<ParamAt>) -> Result<(), ReadFault>
    ensures { UnlessMemory result (λ u. all.new.items ≡ all.old.items ++ one_or_none param) }
{
    match param {
        Some(param) => {
            all.push(param)?;
            Ok(())
        }
        None => Ok(()),
    }
}

// A first parameter behind annotations, or the receiver.
fn first_behind_of<'a, 's>(
    alloc: Global,
    room: usize,
    annotations: List<AnnotationText>,
    symbols: &'s [Symbol<'a>],
) -> Result<((Option<ParamAt>, bool), &'s [Symbol<'a>]), ReadFault>
    ensures { ReadsFound (λ x. (x.0, x.1.now)) result room annotations symbols.now }
{
    if is_next(symbols, FINAL) {
        let (_, rest) = one(symbols, FINAL)?;
        let front = Modifiers {
            bits: 64,
            annotations,
        };
        let (modifiers, rest) = more_param_modifiers_of(alloc, room, front, rest)?;
        return based_param_of(alloc, room, modifiers, rest);
    }
    let modifiers = Modifiers {
        bits: 0,
        annotations,
    };
    based_first_of(alloc, room, modifiers, symbols)
}

/// A first parameter, or none where it is the receiver, and whether it takes any number of arguments.
pub fn first_param_of<'a, 's>(
    alloc: Global,
    room: usize,
    symbols: &'s [Symbol<'a>],
) -> Result<((Option<ParamAt>, bool), &'s [Symbol<'a>]), ReadFault>
    ensures { ReadsParam (λ x. (x.0, x.1.now)) result room symbols.now (reads room first_params symbols.now) }
{
    let (annotations, rest) = annotations_of(alloc, room, symbols)?;
    let annotations = List::from_vec(annotations);
    first_behind_of(alloc, room, annotations, rest)
}

// Parameters, of which there is one, or the receiver.
fn some_params_of<'a, 's>(
    alloc: Global,
    room: usize,
    symbols: &'s [Symbol<'a>],
) -> Result<((Vec<ParamAt>, bool), &'s [Symbol<'a>]), ReadFault>
    ensures { Gives (λ x. ((x.0.0.items, x.0.1), x.1.now)) result (reads room first_params symbols.now) }
{
    let ((first, last), rest) = first_param_of(alloc, room, symbols)?;
    let mut all = Vec::new(alloc);
    add_param(&mut all, first)?;
    if last {
        return Ok(((all, true), rest));
    }
    more_params_of(alloc, room, all, rest)
}

// Whether `final` or the first symbol of a type has this sort.
#[tactic(auto, using(decl_grammar::proofs::Ranges::has_then, decl_grammar::proofs::Ranges::has_else))]
fn is_final_or_type(sort: u8) -> bool
    ensures { result ≡ has ((FINAL ∷ []) ++ (primitive_sorts ++ names)) sort }
{
    sort == FINAL || is_primitive_or_name(sort)
}

// Whether a first parameter may begin with this sort.
#[tactic(auto, using(decl_grammar::proofs::Ranges::has_then, decl_grammar::proofs::Ranges::has_else))]
fn begins_params(sort: u8) -> bool
    ensures { result ≡ has (ats ++ ((FINAL ∷ []) ++ (primitive_sorts ++ names))) sort }
{
    is_at(sort) || is_final_or_type(sort)
}

/// Whether a parameter, the first one or a further one, may begin here.
pub fn starts_params(symbols: &[Symbol<'_>]) -> bool
    ensures { result ≡ starts (ats ++ ((FINAL ∷ []) ++ (primitive_sorts ++ names))) symbols.now }
{
    match symbols {
        [] => false,
        [symbol, ..] => begins_params(symbol.sort),
    }
}

/// Parameters in their brackets.
#[tactic(auto, using(crate::proofs::ParamFirsts::first_params_first), unfolding(decl_grammar::specs::Grammar::params))]
pub fn params_of<'a, 's>(
    alloc: Global,
    room: usize,
    symbols: &'s [Symbol<'a>],
) -> Result<(Params, &'s [Symbol<'a>]), ReadFault>
    ensures { Gives (λ x. (x.0, x.1.now)) result (reads room params symbols.now) }
{
    let (_, rest) = one(symbols, OPEN_PARENTHESIS)?;
    if starts_params(rest) {
        let ((all, varargs), rest) = some_params_of(alloc, room, rest)?;
        let (_, rest) = one(rest, CLOSE_PARENTHESIS)?;
        let params = List::from_vec(all);
        return Ok((Params { params, varargs }, rest));
    }
    let (_, rest) = one(rest, CLOSE_PARENTHESIS)?;
    let params = List::new(alloc);
    let varargs = false;
    Ok((Params { params, varargs }, rest))
}
