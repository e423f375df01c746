// Reads what stands behind the name of a method, a constructor, an element or fields (JLS 8.3, 8.4, 8.8, 9.6.1).
ghost use Rattle.std.specs.Prelude.{◌≡◌, ◌++◌, [], ◌∷◌, ℕ, List, length, IfOk, Ok, Some, None};
ghost use Rattle.decl_grammar.specs.Reading.{Gives, starts};
ghost use Rattle.decl_grammar.specs.Form.{many, maybe, nest, turned, with_front};
ghost use Rattle.decl_grammar.specs.Types.{dim, name};
ghost use Rattle.decl_grammar.specs.Grammar.{thrown, body, method_signature, constructor_signature, element_end, element_signature, field_rest, fields_named, method_named, rest_form};
ghost use Rattle.decl_grammar.specs.Rule.{reads};
ghost use Rattle.decl_types.specs.Members.{declarators_at, fields_at, method_at, rest_at};

use crate::headings::classes_of;
use crate::params::params_of;
use apt_base::List;
use decl_grammar::sorts::{
    CLOSE_PARENTHESIS, DEFAULT, OPEN_BRACE, OPEN_PARENTHESIS, SEMICOLON, THROWS,
};
use decl_grammar::{
    Declarator, MemberRest, NameAt, Params, ReadFault, Signature, Symbol, Unmodified,
};
use decl_tree::{TypeText, ValueText};
use decl_values::{default_of, dims_of, fields_of, is_next, one, read_over};
use std::alloc::Global;

// The types behind `throws`.
#[tactic(auto, unfolding(decl_grammar::specs::Grammar::thrown))]
fn thrown_of<'a, 's>(
    alloc: Global,
    room: usize,
    symbols: &'s [Symbol<'a>],
) -> Result<(Vec<TypeText>, &'s [Symbol<'a>]), ReadFault>
    ensures { Gives (λ x. (x.0.items, x.1.now)) result (reads room thrown symbols.now) }
{
    if is_next(symbols, THROWS) {
        let (_, rest) = one(symbols, THROWS)?;
        return classes_of(alloc, room, rest);
    }
    Ok((Vec::new(alloc), symbols))
}

// What is behind the body of a method, or behind the `;` in place of it.
#[tactic(auto, unfolding(decl_grammar::specs::Grammar::body))]
fn body_of<'a, 's>(
    alloc: Global,
    room: usize,
    symbols: &'s [Symbol<'a>],
) -> Result<&'s [Symbol<'a>], ReadFault>
    ensures { Gives (λ x. (tt, x.now)) result (reads room body symbols.now) }
{
    if is_next(symbols, OPEN_BRACE) {
        return read_over(alloc, OPEN_BRACE, symbols);
    }
    let (_, rest) = one(symbols, SEMICOLON)?;
    Ok(rest)
}

/// What stands behind the name of a method.
#[tactic(auto, unfolding(decl_grammar::specs::Grammar::method_signature))]
pub fn method_signature_of<'a, 's>(
    alloc: Global,
    room: usize,
    symbols: &'s [Symbol<'a>],
) -> Result<(Signature, &'s [Symbol<'a>]), ReadFault>
    ensures { Gives (λ x. (x.0, x.1.now)) result (reads room method_signature symbols.now) }
{
    let (params, rest) = params_of(alloc, room, symbols)?;
    let (dims, rest) = dims_of(alloc, room, rest)?;
    let dims = List::from_vec(dims);
    let (thrown, rest) = thrown_of(alloc, room, rest)?;
    let thrown = List::from_vec(thrown);
    let rest = body_of(alloc, room, rest)?;
    let default = None;
    Ok((
        Signature {
            params,
            dims,
            thrown,
            default,
        },
        rest,
    ))
}

/// What stands behind the name of a constructor.
#[tactic(auto, unfolding(decl_grammar::specs::Grammar::constructor_signature))]
pub fn constructor_signature_of<'a, 's>(
    alloc: Global,
    room: usize,
    symbols: &'s [Symbol<'a>],
) -> Result<(Signature, &'s [Symbol<'a>]), ReadFault>
    ensures { Gives (λ x. (x.0, x.1.now)) result (reads room constructor_signature symbols.now) }
{
    let (params, rest) = params_of(alloc, room, symbols)?;
    let (thrown, rest) = thrown_of(alloc, room, rest)?;
    let thrown = List::from_vec(thrown);
    let rest = read_over(alloc, OPEN_BRACE, rest)?;
    let dims = List::new(alloc);
    let default = None;
    Ok((
        Signature {
            params,
            dims,
            thrown,
            default,
        },
        rest,
    ))
}

// What stands behind the brackets of an element: its default, where there is one, and a `;`.
#[tactic(auto, unfolding(decl_grammar::specs::Grammar::element_end))]
fn element_end_of<'a, 's>(
    alloc: Global,
    room: usize,
    symbols: &'s [Symbol<'a>],
) -> Result<(Option<ValueText>, &'s [Symbol<'a>]), ReadFault>
    ensures { Gives (λ x. (x.0, x.1.now)) result (reads room element_end symbols.now) }
{
    if is_next(symbols, SEMICOLON) {
        let (_, rest) = one(symbols, SEMICOLON)?;
        return Ok((None, rest));
    }
    let (_, rest) = one(symbols, DEFAULT)?;
    let (value, rest) = default_of(alloc, room, rest)?;
    Ok((Some(value), rest))
}

// What stands behind the name of an element of an annotation interface.
#[tactic(auto, unfolding(decl_grammar::specs::Grammar::element_signature))]
fn element_signature_of<'a, 's>(
    alloc: Global,
    room: usize,
    symbols: &'s [Symbol<'a>],
) -> Result<(Signature, &'s [Symbol<'a>]), ReadFault>
    ensures { Gives (λ x. (x.0, x.1.now)) result (reads room element_signature symbols.now) }
{
    let (_, rest) = one(symbols, OPEN_PARENTHESIS)?;
    let (_, rest) = one(rest, CLOSE_PARENTHESIS)?;
    let (dims, rest) = dims_of(alloc, room, rest)?;
    let dims = List::from_vec(dims);
    let (default, rest) = element_end_of(alloc, room, rest)?;
    let params = Params {
        params: List::new(alloc),
        varargs: false,
    };
    let thrown = List::new(alloc);
    Ok((
        Signature {
            params,
            dims,
            thrown,
            default,
        },
        rest,
    ))
}

// The fields of a declaration, of which the first name is known.
#[tactic(auto, unfolding(decl_grammar::specs::Grammar::field_rest))]
fn field_rest_of<'a, 's>(
    alloc: Global,
    room: usize,
    name: NameAt,
    symbols: &'s [Symbol<'a>],
) -> Result<(Vec<Declarator>, &'s [Symbol<'a>]), ReadFault>
    ensures { Gives (λ x. (x.0.items, x.1.now)) result (declarators_at name room symbols.now) }
{
    let (dims, rest) = dims_of(alloc, room, symbols)?;
    let dims = List::from_vec(dims);
    fields_of(alloc, room, name, dims, rest)
}

// The rest of fields.
fn fields_rest_of<'a, 's>(
    alloc: Global,
    room: usize,
    of: TypeText,
    name: NameAt,
    symbols: &'s [Symbol<'a>],
) -> Result<(Unmodified, &'s [Symbol<'a>]), ReadFault>
    ensures { Gives (λ x. (x.0, x.1.now)) result (fields_at of name room symbols.now) }
{
    let (all, rest) = field_rest_of(alloc, room, name, symbols)?;
    Ok((Unmodified::Fields(of, List::from_vec(all)), rest))
}

// The rest of a method.
fn method_of<'a, 's>(
    alloc: Global,
    room: usize,
    of: TypeText,
    name: NameAt,
    symbols: &'s [Symbol<'a>],
) -> Result<(Unmodified, &'s [Symbol<'a>]), ReadFault>
    ensures { Gives (λ x. (x.0, x.1.now)) result (method_at of name room method_signature symbols.now) }
{
    let (signature, rest) = method_signature_of(alloc, room, symbols)?;
    let parameters = List::new(alloc);
    Ok((Unmodified::Method(parameters, of, name, signature), rest))
}

// The rest of an element.
fn element_of<'a, 's>(
    alloc: Global,
    room: usize,
    of: TypeText,
    name: NameAt,
    symbols: &'s [Symbol<'a>],
) -> Result<(Unmodified, &'s [Symbol<'a>]), ReadFault>
    ensures { Gives (λ x. (x.0, x.1.now)) result (method_at of name room element_signature symbols.now) }
{
    let (signature, rest) = element_signature_of(alloc, room, symbols)?;
    let parameters = List::new(alloc);
    Ok((Unmodified::Method(parameters, of, name, signature), rest))
}

/// What stands behind the type and the name of a member.
#[tactic(auto, using(crate::proofs::MemberFirsts::method_signature_first, crate::proofs::MemberFirsts::element_signature_first, crate::proofs::MemberFolds::turned_twice))]
pub fn member_rest_of<'a, 's>(
    alloc: Global,
    room: usize,
    kind: MemberRest,
    of: TypeText,
    name: NameAt,
    symbols: &'s [Symbol<'a>],
) -> Result<(Unmodified, &'s [Symbol<'a>]), ReadFault>
    ensures { Gives (λ x. (x.0, x.1.now)) result (rest_at of name room kind symbols.now) }
{
    match kind {
        MemberRest::Any => {
            if is_next(symbols, OPEN_PARENTHESIS) {
                return method_of(alloc, room, of, name, symbols);
            }
            fields_rest_of(alloc, room, of, name, symbols)
        }
        MemberRest::Method => method_of(alloc, room, of, name, symbols),
        MemberRest::Element => {
            if is_next(symbols, OPEN_PARENTHESIS) {
                return element_of(alloc, room, of, name, symbols);
            }
            fields_rest_of(alloc, room, of, name, symbols)
        }
    }
}
