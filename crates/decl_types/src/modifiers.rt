// Reads modifiers (JLS 8.1.1, 8.3.1, 8.4.1, 8.4.3).
ghost use Rattle.std.specs.Prelude.{◌≡◌, ◌++◌, [], ◌∷◌, ℕ, List, length, IfOk, Ok, Some, None, MatchResult};
ghost use Rattle.decl_grammar.specs.declared.fault.ReadFault.TheVariants as faults;
ghost use Rattle.decl_grammar.specs.Reading.{Gives, has, starts, one_at};
ghost use Rattle.decl_grammar.specs.Form.{ats, plain_words, modifier_words, many, maybe, nest, modifiers, plain_modifiers, static_word, turned};
ghost use Rattle.decl_grammar.specs.Rows.{read_as, marks_behind};
ghost use Rattle.decl_grammar.specs.Types.{keyword, bit_of, with_annotation, with_mark, with_marks, no_modifiers, modifier, plain_modifier, modifiers_form, modifiers_or_none, optional_modifiers, type_modifiers};
ghost use Rattle.decl_grammar.specs.Grammar.{param_modifier, param_modifiers};
ghost use Rattle.decl_grammar.specs.Rule.{reads, read_nest};
ghost use Rattle.decl_grammar.specs.TokenNames as token;

use apt_base::List;
use decl_grammar::sorts::{
    ABSTRACT, AT, DEFAULT, FINAL, NATIVE, PRIVATE, PROTECTED, PUBLIC, STATIC, STRICTFP,
    SYNCHRONIZED, TRANSIENT, VOLATILE,
};
use decl_grammar::{Modifiers, ReadFault, Symbol};
use decl_tree::AnnotationText;
use decl_values::{
    annotation_of, begin, is_next, modifier_annotation_of, one, shut, starts_annotation,
};
use std::alloc::Global;

// The bit of a modifier.
fn bit_of_sort(sort: u8) -> u16
    ensures { result ≡ bit_of sort }
{
    if sort == PUBLIC {
        return 1;
    }
    if sort == PROTECTED {
        return 2;
    }
    if sort == PRIVATE {
        return 4;
    }
    if sort == ABSTRACT {
        return 8;
    }
    if sort == DEFAULT {
        return 16;
    }
    if sort == STATIC {
        return 32;
    }
    if sort == FINAL {
        return 64;
    }
    if sort == TRANSIENT {
        return 128;
    }
    if sort == VOLATILE {
        return 256;
    }
    if sort == SYNCHRONIZED {
        return 512;
    }
    if sort == NATIVE {
        return 1024;
    }
    2048
}

/// Whether a modifier but `static` has this sort.
pub fn is_plain_word(sort: u8) -> bool
    ensures { result ≡ has plain_words sort }
{
    sort == PUBLIC
        || sort == PROTECTED
        || sort == PRIVATE
        || sort == ABSTRACT
        || sort == DEFAULT
        || sort == FINAL
        || sort == TRANSIENT
        || sort == VOLATILE
        || sort == SYNCHRONIZED
        || sort == NATIVE
        || sort == STRICTFP
}

/// Whether a modifier has this sort.
pub fn is_modifier_word(sort: u8) -> bool
    ensures { result ≡ has modifier_words sort }
{
    sort == STATIC || is_plain_word(sort)
}

// Whether a keyword of a modifier stands here, but `static`.
fn starts_plain_word(symbols: &[Symbol<'_>]) -> bool
    ensures { result ≡ starts plain_words symbols.now }
{
    match symbols {
        [] => false,
        [symbol, ..] => is_plain_word(symbol.sort),
    }
}

// Whether a keyword of a modifier stands here.
fn starts_modifier_word(symbols: &[Symbol<'_>]) -> bool
    ensures { result ≡ starts modifier_words symbols.now }
{
    match symbols {
        [] => false,
        [symbol, ..] => is_modifier_word(symbol.sort),
    }
}

/// Whether a modifier begins here, but `static`.
pub fn starts_plain_modifier(symbols: &[Symbol<'_>]) -> bool
    ensures { result ≡ starts (plain_words ++ (AT ∷ [])) symbols.now }
{
    starts_plain_word(symbols) || is_next(symbols, AT)
}

/// Whether a modifier begins here.
pub fn starts_modifier(symbols: &[Symbol<'_>]) -> bool
    ensures { result ≡ starts (modifier_words ++ (AT ∷ [])) symbols.now }
{
    starts_modifier_word(symbols) || is_next(symbols, AT)
}

// Modifiers with one more annotation.
fn marked(front: Modifiers, annotation: AnnotationText) -> Result<Modifiers, ReadFault>
    ensures { MatchResult result (λ m. m ≡ with_annotation annotation front) (λ e. e ≡ faults.Memory) }
{
    let Modifiers { bits, annotations } = front;
    let mut annotations = annotations;
    annotations.push(annotation)?;
    Ok(Modifiers { bits, annotations })
}

// One modifier, put behind others.
#[tactic(auto, using(decl_grammar::proofs::Firsts::modifier_annotation_first), unfolding(decl_grammar::specs::Types::modifier, decl_grammar::specs::Reading::one_at))]
fn modifier_of<'a, 's>(
    alloc: Global,
    room: usize,
    front: Modifiers,
    symbols: &'s [Symbol<'a>],
) -> Result<(Modifiers, &'s [Symbol<'a>]), ReadFault>
    ensures { Gives (λ x. (x.0, x.1.now)) result (read_as (with_mark front) room modifier symbols.now) }
{
    if let [symbol, rest @ ..] = symbols {
        if is_modifier_word(symbol.sort) {
            let Modifiers { bits, annotations } = front;
            let bits = bits | bit_of_sort(symbol.sort);
            return Ok((Modifiers { bits, annotations }, rest));
        }
    }
    let (annotation, rest) = modifier_annotation_of(alloc, room, symbols)?;
    Ok((marked(front, annotation)?, rest))
}

// One modifier that is not `static`, put behind others.
#[tactic(auto, using(decl_grammar::proofs::Firsts::modifier_annotation_first), unfolding(decl_grammar::specs::Types::plain_modifier, decl_grammar::specs::Reading::one_at))]
fn plain_modifier_of<'a, 's>(
    alloc: Global,
    room: usize,
    front: Modifiers,
    symbols: &'s [Symbol<'a>],
) -> Result<(Modifiers, &'s [Symbol<'a>]), ReadFault>
    ensures { Gives (λ x. (x.0, x.1.now)) result (read_as (with_mark front) room plain_modifier symbols.now) }
{
    if let [symbol, rest @ ..] = symbols {
        if is_plain_word(symbol.sort) {
            let Modifiers { bits, annotations } = front;
            let bits = bits | bit_of_sort(symbol.sort);
            return Ok((Modifiers { bits, annotations }, rest));
        }
    }
    let (annotation, rest) = modifier_annotation_of(alloc, room, symbols)?;
    Ok((marked(front, annotation)?, rest))
}

// One modifier of a parameter, put behind others.
#[tactic(auto, unfolding(decl_grammar::specs::Grammar::param_modifier, decl_grammar::specs::Reading::one_at))]
fn param_modifier_of<'a, 's>(
    alloc: Global,
    room: usize,
    front: Modifiers,
    symbols: &'s [Symbol<'a>],
) -> Result<(Modifiers, &'s [Symbol<'a>]), ReadFault>
    ensures { Gives (λ x. (x.0, x.1.now)) result (read_as (with_mark front) room param_modifier symbols.now) }
{
    if let [symbol, rest @ ..] = symbols {
        if symbol.sort == FINAL {
            let Modifiers { bits, annotations } = front;
            let bits = bits | bit_of_sort(symbol.sort);
            return Ok((Modifiers { bits, annotations }, rest));
        }
    }
    let (annotation, rest) = annotation_of(alloc, room, symbols)?;
    Ok((marked(front, annotation)?, rest))
}

/// The modifiers that stand here, put behind others.
pub fn more_modifiers_of<'a, 's>(
    alloc: Global,
    room: usize,
    front: Modifiers,
    symbols: &'s [Symbol<'a>],
) -> Result<(Modifiers, &'s [Symbol<'a>]), ReadFault>
    ensures { Gives (λ x. (x.0, x.1.now)) result (marks_behind front room modifier symbols.now) }
{
    let mut all = front;
    let mut rest = begin(symbols)?;
    'row: while starts_modifier(rest) {
        let (next, after) = modifier_of(alloc, room, all, rest)?;
        all = next;
        rest = after;
    }
    Ok((all, rest))
}

// Whether a modifier of a parameter begins here.
fn starts_param_modifier(symbols: &[Symbol<'_>]) -> bool
    ensures { result ≡ starts (FINAL ∷ ats) symbols.now }
{
    is_next(symbols, FINAL) || starts_annotation(symbols)
}

/// The modifiers of a parameter that stand here, put behind others.
pub fn more_param_modifiers_of<'a, 's>(
    alloc: Global,
    room: usize,
    front: Modifiers,
    symbols: &'s [Symbol<'a>],
) -> Result<(Modifiers, &'s [Symbol<'a>]), ReadFault>
    ensures { Gives (λ x. (x.0, x.1.now)) result (marks_behind front room param_modifier symbols.now) }
{
    let mut all = front;
    let mut rest = begin(symbols)?;
    'row: while starts_param_modifier(rest) {
        let (next, after) = param_modifier_of(alloc, room, all, rest)?;
        all = next;
        rest = after;
    }
    Ok((all, rest))
}

/// No modifiers.
pub fn none(alloc: Global) -> Modifiers
    ensures { result ≡ no_modifiers }
{
    let annotations = List::new(alloc);
    Modifiers {
        bits: 0,
        annotations,
    }
}

/// The modifiers of a type that is not nested.
#[tactic(auto, unfolding(decl_grammar::specs::Types::type_modifiers))]
pub fn type_modifiers_of<'a, 's>(
    alloc: Global,
    room: usize,
    symbols: &'s [Symbol<'a>],
) -> Result<(Modifiers, &'s [Symbol<'a>]), ReadFault>
    ensures { Gives (λ x. (x.0, x.1.now)) result (reads room type_modifiers symbols.now) }
{
    more_modifiers_of(alloc, room, none(alloc), symbols)
}

/// The modifiers of a parameter.
#[tactic(auto, unfolding(decl_grammar::specs::Grammar::param_modifiers))]
pub fn param_modifiers_of<'a, 's>(
    alloc: Global,
    room: usize,
    symbols: &'s [Symbol<'a>],
) -> Result<(Modifiers, &'s [Symbol<'a>]), ReadFault>
    ensures { Gives (λ x. (x.0, x.1.now)) result (reads room param_modifiers symbols.now) }
{
    more_param_modifiers_of(alloc, room, none(alloc), symbols)
}

// Modifiers, of which there is one, where so much may be open in them.
fn modifiers_in<'a, 's>(
    alloc: Global,
    room: usize,
    symbols: &'s [Symbol<'a>],
) -> Result<(Modifiers, &'s [Symbol<'a>]), ReadFault>
    ensures { Gives (λ x. (x.0, x.1.now)) result (reads room (modifiers_form modifier) symbols.now) }
{
    let (first, rest) = modifier_of(alloc, room, none(alloc), symbols)?;
    more_modifiers_of(alloc, room, first, rest)
}

// The same where the first one is not `static`.
fn plain_modifiers_in<'a, 's>(
    alloc: Global,
    room: usize,
    symbols: &'s [Symbol<'a>],
) -> Result<(Modifiers, &'s [Symbol<'a>]), ReadFault>
    ensures { Gives (λ x. (x.0, x.1.now)) result (reads room (modifiers_form plain_modifier) symbols.now) }
{
    let (first, rest) = plain_modifier_of(alloc, room, none(alloc), symbols)?;
    more_modifiers_of(alloc, room, first, rest)
}

/// The modifiers of a member, which might still be those of a nested type.
pub fn modifiers_of<'a, 's>(
    alloc: Global,
    room: usize,
    symbols: &'s [Symbol<'a>],
) -> Result<(Modifiers, &'s [Symbol<'a>]), ReadFault>
    ensures { Gives (λ x. (x.0, x.1.now)) result (read_nest room modifiers symbols.now) }
{
    if room > 0 {
        return modifiers_in(alloc, room - 1, symbols);
    }
    Err(shut(starts_modifier(symbols), symbols))
}

/// The same where the first one is not `static`.
pub fn plain_modifiers_of<'a, 's>(
    alloc: Global,
    room: usize,
    symbols: &'s [Symbol<'a>],
) -> Result<(Modifiers, &'s [Symbol<'a>]), ReadFault>
    ensures { Gives (λ x. (x.0, x.1.now)) result (read_nest room plain_modifiers symbols.now) }
{
    if room > 0 {
        return plain_modifiers_in(alloc, room - 1, symbols);
    }
    Err(shut(starts_plain_modifier(symbols), symbols))
}

// `static`, where so much may be open in it.
fn word_in<'a, 's>(
    room: usize,
    symbols: &'s [Symbol<'a>],
) -> Result<(&'s Symbol<'a>, &'s [Symbol<'a>]), ReadFault>
    ensures { Gives (λ x. (x.0.now, x.1.now)) result (reads room (keyword token.static) symbols.now) }
{
    one(symbols, STATIC)
}

/// A first `static`.
pub fn static_word_of<'a, 's>(
    room: usize,
    symbols: &'s [Symbol<'a>],
) -> Result<(&'s Symbol<'a>, &'s [Symbol<'a>]), ReadFault>
    ensures { Gives (λ x. (x.0.now, x.1.now)) result (read_nest room static_word symbols.now) }
{
    if room > 0 {
        return word_in(room - 1, symbols);
    }
    Err(shut(is_next(symbols, STATIC), symbols))
}

/// The modifiers of a member, where there are any.
#[tactic(auto, unfolding(decl_grammar::specs::Types::optional_modifiers))]
pub fn optional_modifiers_of<'a, 's>(
    alloc: Global,
    room: usize,
    symbols: &'s [Symbol<'a>],
) -> Result<(Modifiers, &'s [Symbol<'a>]), ReadFault>
    ensures { Gives (λ x. (x.0, x.1.now)) result (reads room optional_modifiers symbols.now) }
{
    if starts_modifier(symbols) {
        return modifiers_of(alloc, room, symbols);
    }
    Ok((none(alloc), symbols))
}
