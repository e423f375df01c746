// What expressions mean in annotations and initialisers (JLS 9.7.1, 15.28).
ghost use Rattle.std.specs.Prelude.{◌≡◌, ◌<◌, ◌≤◌, [], List, length, if◌then◌else◌, ◌+◌, IfOk, MatchResult, Some, None, string_bytes, drop};
ghost use Rattle.std.specs.List.{position_or_len};
ghost use Rattle.decl_grammar.specs.Reading.{UnlessMemory};
ghost use Rattle.decl_grammar.specs.Constants.{is_name, is_literal, is_numeral, is_plus, symbol_seen, TwoRead, DottedRead, text_alone, dim_here, class_here, type_of, chain_from, chain_of, class_end, class_named, class_primitive, class_void, class_of, literal_of, negated_of, plain_of, parts_of, two_or_more, joined_of, constant_of, expression_of, name_part};
ghost use Rattle.decl_tree.specs.declared.annotation.ValueText.TheVariants as value;
ghost use Rattle.decl_grammar.specs.declared.fault.ReadFault.TheVariants as faults;

use crate::primitives::primitive_of_sort;
use crate::token_texts::joined_text;
use apt_base::{List, Name, NoMemory};
use decl_grammar::sorts::{
    CLASS, CLOSE_BRACKET, DOT, FLOATING, INTEGER, MINUS, NAMED, NULL, OPEN_BRACKET, PLUS, VOID,
};
use decl_grammar::{ReadFault, Symbol};
use decl_names::begin;
use decl_tree::{Around, BaseType, NamedPart, PrimitiveKind, TypeText, ValueText};
use std::alloc::Global;

// Whether a symbol is a name.
fn is_name_symbol(symbol: &Symbol<'_>) -> bool
    ensures { result ≡ is_name symbol.now }
{
    symbol.sort <= NAMED
}

// Whether a symbol is a literal (JLS 3.10).
fn is_literal_symbol(symbol: &Symbol<'_>) -> bool
    ensures { result ≡ is_literal symbol.now }
{
    INTEGER <= symbol.sort && symbol.sort <= NULL
}

// Whether a symbol is a literal of a number.
fn is_numeral_symbol(symbol: &Symbol<'_>) -> bool
    ensures { result ≡ is_numeral symbol.now }
{
    symbol.sort == INTEGER || symbol.sort == FLOATING
}

// The name behind the dot that stands first, where there are such, and what is behind the first two symbols. It gives no fault.
fn dotted_step<'a, 's>(
    symbols: &'s [Symbol<'a>],
) -> Result<(Option<&'s Symbol<'a>>, &'s [Symbol<'a>]), ReadFault>
    ensures { MatchResult result (λ x. DottedRead (symbol_seen x.0) x.1.now symbols.now) (λ e. ⊥) }
{
    match symbols {
        [] => Ok((None, symbols)),
        [dot, behind @ ..] => match behind {
            [] => Ok((None, behind)),
            [name, after @ ..] => {
                if dot.sort == DOT && is_name_symbol(name) {
                    return Ok((Some(name), after));
                }
                Ok((None, after))
            }
        },
    }
}

// A text, where nothing is behind it.
fn text_alone_of(alloc: Global, text: String, symbols: &[Symbol<'_>]) -> Option<Name>
    ensures { result ≡ text_alone (string_bytes text) symbols.now }
{
    match symbols {
        [] => Some(Name::from_string(alloc, text)),
        [_, ..] => None,
    }
}

// Names behind a text, each with a dot before it, as one text.
fn chain_behind<'a, 's>(
    alloc: Global,
    front: String,
    symbols: &'s [Symbol<'a>],
) -> Result<Option<Name>, ReadFault>
    ensures { UnlessMemory result (λ n. n ≡ chain_from (string_bytes front) symbols.now) }
{
    let mut text = front;
    let mut rest = begin(symbols)?;
    'row: loop {
        let (next, after) = dotted_step(rest)?;
        match next {
            Some(name) => {
                text.push_str(".")?;
                text.push_str(name.text.as_str())?;
            }
            None => return Ok(text_alone_of(alloc, text, rest)),
        }
        rest = after;
    }
}

// Names, with a dot between any two, as one text.
fn chain_in(alloc: Global, symbols: &[Symbol<'_>]) -> Result<Option<Name>, ReadFault>
    ensures { MatchResult result (λ n. n ≡ chain_of symbols.now) (λ e. e ≡ faults.Memory) }
{
    match symbols {
        [] => Ok(None),
        [first, rest @ ..] => {
            if !is_name_symbol(first) {
                return Ok(None);
            }
            let front = String::from_str(alloc, first.text.as_str())?;
            chain_behind(alloc, front, rest)
        }
    }
}

// Whether `[` and `]` stand first, and what is behind the first two symbols. It gives no fault.
fn dim_step<'a, 's>(symbols: &'s [Symbol<'a>]) -> Result<(bool, &'s [Symbol<'a>]), ReadFault>
    ensures { MatchResult result (λ x. TwoRead x.0 (dim_here symbols.now) x.1.now symbols.now) (λ e. ⊥) }
{
    match symbols {
        [] => Ok((false, symbols)),
        [first, behind @ ..] => match behind {
            [] => Ok((false, behind)),
            [second, after @ ..] => Ok((
                first.sort == OPEN_BRACKET && second.sort == CLOSE_BRACKET,
                after,
            )),
        },
    }
}

// Whether these are `.` and `class`.
fn is_class_here(symbols: &[Symbol<'_>]) -> bool
    ensures { result ≡ class_here symbols.now }
{
    match symbols {
        [dot, word] => dot.sort == DOT && word.sort == CLASS,
        _ => false,
    }
}

// The type of a class literal, of which `.` and `class` are left.
fn literal_type(base: BaseType, around: Vec<Around>, symbols: &[Symbol<'_>]) -> Option<TypeText>
    ensures { result ≡ (if class_here symbols.now then Some (type_of base around.items) else None) }
{
    if is_class_here(symbols) {
        let around = List::from_vec(around);
        return Some(TypeText { around, base });
    }
    None
}

// The rest of a class literal behind its base.
fn class_end_of<'a, 's>(
    alloc: Global,
    base: BaseType,
    symbols: &'s [Symbol<'a>],
) -> Result<Option<TypeText>, ReadFault>
    ensures { MatchResult result (λ t. t ≡ class_end base [] symbols.now) (λ e. e ≡ faults.Memory) }
{
    let mut around = Vec::new(alloc);
    let mut rest = begin(symbols)?;
    'row: loop {
        let (more, after) = dim_step(rest)?;
        if !more {
            return Ok(literal_type(base, around, rest));
        }
        around.push(Around::Array)?;
        rest = after;
    }
}

// A name as a part of a type.
fn part_of(alloc: Global, text: &str) -> Result<NamedPart, NoMemory>
    ensures { IfOk result (λ p. p ≡ name_part text.now) }
{
    let name = Name::new(alloc, text)?;
    let arguments = None;
    Ok(NamedPart { name, arguments })
}

// The rest of a class literal behind a name.
fn class_named_of<'a, 's>(
    alloc: Global,
    front: Vec<NamedPart>,
    symbols: &'s [Symbol<'a>],
) -> Result<Option<TypeText>, ReadFault>
    ensures { MatchResult result (λ t. t ≡ class_named front.items symbols.now) (λ e. e ≡ faults.Memory) }
{
    let mut parts = front;
    let mut rest = begin(symbols)?;
    'row: loop {
        let (next, after) = dotted_step(rest)?;
        match next {
            Some(name) => parts.push(part_of(alloc, name.text.as_str())?)?,
            None => return class_end_of(alloc, BaseType::Named(List::from_vec(parts)), rest),
        }
        rest = after;
    }
}

// The rest of a class literal behind this primitive type.
fn class_primitive_of(
    alloc: Global,
    kind: Option<PrimitiveKind>,
    symbols: &[Symbol<'_>],
) -> Result<Option<TypeText>, ReadFault>
    ensures { MatchResult result (λ t. t ≡ class_primitive kind symbols.now) (λ e. e ≡ faults.Memory) }
{
    match kind {
        None => Ok(None),
        Some(kind) => class_end_of(alloc, BaseType::Primitive(kind), symbols),
    }
}

// The rest of a class literal behind `void`.
fn class_void_of(alloc: Global, symbols: &[Symbol<'_>]) -> Option<TypeText>
    ensures { result ≡ class_void symbols.now }
{
    literal_type(
        BaseType::Primitive(PrimitiveKind::Void),
        Vec::new(alloc),
        symbols,
    )
}

// The type of a class literal (JLS 15.8.2).
fn class_in(alloc: Global, symbols: &[Symbol<'_>]) -> Result<Option<TypeText>, ReadFault>
    ensures { MatchResult result (λ t. t ≡ class_of symbols.now) (λ e. e ≡ faults.Memory) }
{
    match symbols {
        [] => Ok(None),
        [first, rest @ ..] => {
            if is_name_symbol(first) {
                let mut parts = Vec::new(alloc);
                parts.push(part_of(alloc, first.text.as_str())?)?;
                return class_named_of(alloc, parts, rest);
            }
            if first.sort == VOID {
                return Ok(class_void_of(alloc, rest));
            }
            class_primitive_of(alloc, primitive_of_sort(first.sort), rest)
        }
    }
}

// The literal that the symbols are.
fn literal_in(alloc: Global, symbols: &[Symbol<'_>]) -> Result<Option<ValueText>, NoMemory>
    ensures { IfOk result (λ v. v ≡ literal_of symbols.now) }
{
    match symbols {
        [only] => {
            if is_literal_symbol(only) {
                return Ok(Some(ValueText::Literal(Name::new(alloc, only.text.as_str())?)));
            }
            Ok(None)
        }
        _ => Ok(None),
    }
}

// The negated numeral that the symbols are.
fn negated_in(alloc: Global, symbols: &[Symbol<'_>]) -> Result<Option<ValueText>, NoMemory>
    ensures { IfOk result (λ v. v ≡ negated_of symbols.now) }
{
    match symbols {
        [sign, numeral] => {
            if sign.sort == MINUS && is_numeral_symbol(numeral) {
                return Ok(Some(ValueText::Negated(Name::new(alloc, numeral.text.as_str())?)));
            }
            Ok(None)
        }
        _ => Ok(None),
    }
}

// A literal, or names that dots join.
fn plain_in(alloc: Global, symbols: &[Symbol<'_>]) -> Result<Option<ValueText>, ReadFault>
    ensures { MatchResult result (λ v. v ≡ plain_of symbols.now) (λ e. e ≡ faults.Memory) }
{
    if let Some(value) = literal_in(alloc, symbols)? {
        return Ok(Some(value));
    }
    match chain_in(alloc, symbols)? {
        Some(name) => Ok(Some(ValueText::Chain(name))),
        None => Ok(None),
    }
}

// How many symbols stand before the first `+`.
fn plus_at(symbols: &[Symbol<'_>]) -> usize
    ensures at { result ≡ position_or_len is_plus symbols.now }
    ensures within { result ≤ length symbols.now }
{
    let mut at = 0;
    let mut rest = symbols;
    'row: while let [symbol, after @ ..] = rest {
        if symbol.sort == PLUS {
            return at;
        }
        at += 1;
        rest = after;
    }
    at
}

// The symbols behind the one with this number.
fn behind<'a, 's>(symbols: &'s [Symbol<'a>], at: usize) -> &'s [Symbol<'a>]
    requires { at < length symbols.now }
    ensures { result.now ≡ drop (at + 1) symbols.now }
{
    &symbols[at + 1..]
}

// The literals and names between which a `+` stands.
fn parts_in(alloc: Global, symbols: &[Symbol<'_>]) -> Result<Option<List<ValueText>>, ReadFault>
    ensures { MatchResult result (λ vs. vs ≡ parts_of symbols.now) (λ e. e ≡ faults.Memory) }
{
    let mut all = List::new(alloc);
    let mut rest = symbols;
    let mut at = plus_at(rest);
    'row: while at < rest.len() {
        match plain_in(alloc, &rest[..at])? {
            Some(value) => all.push(value)?,
            None => return Ok(None),
        }
        rest = behind(rest, at);
        at = plus_at(rest);
    }
    match plain_in(alloc, rest)? {
        Some(value) => {
            all.push(value)?;
            Ok(Some(all))
        }
        None => Ok(None),
    }
}

// Values that a `+` joins, where there are two or more.
fn joined_parts(values: List<ValueText>) -> Option<ValueText>
    ensures { result ≡ two_or_more values }
{
    if values.len() < 2 {
        return None;
    }
    Some(ValueText::Joined(values))
}

// Literals and names, with a `+` between any two.
fn joined_in(alloc: Global, symbols: &[Symbol<'_>]) -> Result<Option<ValueText>, ReadFault>
    ensures { MatchResult result (λ v. v ≡ joined_of symbols.now) (λ e. e ≡ faults.Memory) }
{
    match parts_in(alloc, symbols)? {
        Some(values) => Ok(joined_parts(values)),
        None => Ok(None),
    }
}

// The constant form that the symbols are.
fn constant_in(alloc: Global, symbols: &[Symbol<'_>]) -> Result<Option<ValueText>, ReadFault>
    ensures { MatchResult result (λ v. v ≡ constant_of symbols.now) (λ e. e ≡ faults.Memory) }
{
    if let Some(value) = plain_in(alloc, symbols)? {
        return Ok(Some(value));
    }
    if let Some(value) = negated_in(alloc, symbols)? {
        return Ok(Some(value));
    }
    if let Some(of) = class_in(alloc, symbols)? {
        return Ok(Some(ValueText::Class(of)));
    }
    joined_in(alloc, symbols)
}

/// The value of an expression.
#[tactic(auto, unfolding(decl_grammar::specs::Constants::expression_of))]
pub fn expression_value(alloc: Global, symbols: &[Symbol<'_>]) -> Result<ValueText, ReadFault>
    ensures { MatchResult result (λ value. value ≡ expression_of symbols.now) (λ e. e ≡ faults.Memory) }
{
    match constant_in(alloc, symbols)? {
        Some(value) => Ok(value),
        None => Ok(ValueText::Other(joined_text(alloc, symbols)?)),
    }
}
