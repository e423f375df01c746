// Reads the constants of enums (JLS 8.9.1).
ghost use Rattle.std.specs.Prelude.{◌≡◌, ◌++◌, ◌<◌, [], ◌∷◌, ℕ, List, length, IfOk, Ok, Some, None};
ghost use Rattle.decl_grammar.specs.Reading.{Gives, starts};
ghost use Rattle.decl_grammar.specs.Form.{ats, names, many, maybe, nest, enum_rest, turned, with_front};
ghost use Rattle.decl_grammar.specs.Rows.{constants_behind};
ghost use Rattle.decl_grammar.specs.Types.{list_or_none, comma_item};
ghost use Rattle.decl_grammar.specs.Grammar.{optional_over, constant_part, constant, some_constants, constant_list, constants};
ghost use Rattle.decl_grammar.specs.Rule.{reads};

use apt_base::List;
use decl_grammar::sorts::{COMMA, OPEN_BRACE, OPEN_PARENTHESIS};
use decl_grammar::{Lines, MemberAt, NameAt, ReadFault, Symbol};
use decl_tree::{AnnotationText, ConstantDecl, Member};
use decl_values::{
    annotations_of, begin, doc_before, is_next, one, read_name_at, read_over, starts_annotation,
    starts_name,
};
use std::alloc::Global;

// Passes over what stands in brackets of this sort, and tells whether it stands there.
#[tactic(auto, unfolding(decl_grammar::specs::Grammar::optional_over))]
fn optional_over_of<'a, 's>(
    alloc: Global,
    room: usize,
    sort: u8,
    symbols: &'s [Symbol<'a>],
) -> Result<(bool, &'s [Symbol<'a>]), ReadFault>
    requires { sort < 255 }
    ensures { Gives (λ x. (x.0, x.1.now)) result (reads room (optional_over sort) symbols.now) }
{
    if is_next(symbols, sort) {
        let rest = read_over(alloc, sort, symbols)?;
        return Ok((true, rest));
    }
    Ok((false, symbols))
}

// The annotations and the name of an enum constant, and whether it has a body.
#[tactic(auto, unfolding(decl_grammar::specs::Grammar::constant_part))]
fn constant_part_of<'a, 's>(
    alloc: Global,
    room: usize,
    symbols: &'s [Symbol<'a>],
) -> Result<((List<AnnotationText>, (NameAt, bool)), &'s [Symbol<'a>]), ReadFault>
    ensures { Gives (λ x. (x.0, x.1.now)) result (reads room constant_part symbols.now) }
{
    let (annotations, rest) = annotations_of(alloc, room, symbols)?;
    let annotations = List::from_vec(annotations);
    let (name, rest) = read_name_at(alloc, room, rest)?;
    let (_, rest) = optional_over_of(alloc, room, OPEN_PARENTHESIS, rest)?;
    let (body, rest) = optional_over_of(alloc, room, OPEN_BRACE, rest)?;
    Ok(((annotations, (name, body)), rest))
}

/// An enum constant.
#[tactic(auto, unfolding(decl_grammar::specs::Grammar::constant))]
pub fn constant_in<'a, 's>(
    alloc: Global,
    room: usize,
    symbols: &'s [Symbol<'a>],
) -> Result<(MemberAt, &'s [Symbol<'a>]), ReadFault>
    ensures { Gives (λ x. (x.0, x.1.now)) result (reads room constant symbols.now) }
{
    let ((annotations, (name, body)), rest) = constant_part_of(alloc, room, symbols)?;
    let doc = doc_before(alloc, &symbols[..symbols.len() - rest.len()])?;
    let NameAt { name, line } = name;
    let member = Member::Constant(ConstantDecl {
        name,
        annotations,
        doc,
        body,
    });
    let children = List::new(alloc);
    let lines = Lines { line, children };
    Ok((MemberAt { member, lines }, rest))
}

/// Whether an enum constant begins here.
pub fn starts_constant(symbols: &[Symbol<'_>]) -> bool
    ensures { result ≡ starts (ats ++ names) symbols.now }
{
    starts_annotation(symbols) || starts_name(symbols)
}

// Whether an enum constant begins here, or a comma stands here.
fn starts_constants(symbols: &[Symbol<'_>]) -> bool
    ensures { result ≡ starts ((ats ++ names) ++ (COMMA ∷ [])) symbols.now }
{
    starts_constant(symbols) || is_next(symbols, COMMA)
}

// A comma, and the constant behind it, where one begins there.
#[tactic(auto, using(decl_grammar::proofs::Firsts::constant_first))]
fn comma_constant_of<'a, 's>(
    alloc: Global,
    room: usize,
    symbols: &'s [Symbol<'a>],
) -> Result<(Option<MemberAt>, &'s [Symbol<'a>]), ReadFault>
    ensures { Gives (λ x. (x.0, x.1.now)) result (reads room (comma_item constant) symbols.now) }
{
    let (_, rest) = one(symbols, COMMA)?;
    if starts_constant(rest) {
        let (constant, rest) = constant_in(alloc, room, rest)?;
        return Ok((Some(constant), rest));
    }
    Ok((None, rest))
}

// The constants behind commas, put behind others.
fn more_constants_of<'a, 's>(
    alloc: Global,
    room: usize,
    front: Vec<MemberAt>,
    symbols: &'s [Symbol<'a>],
) -> Result<(Vec<MemberAt>, &'s [Symbol<'a>]), ReadFault>
    ensures { Gives (λ x. (x.0.items, x.1.now)) result (constants_behind front.items room symbols.now) }
{
    let mut all = front;
    let mut rest = begin(symbols)?;
    'row: while is_next(rest, COMMA) {
        let (next, after) = comma_constant_of(alloc, room, rest)?;
        match next {
            Some(constant) => all.push(constant)?,
            None => return Ok((all, after)),
        }
        rest = after;
    }
    Ok((all, rest))
}

// Constants with commas between them, and maybe one behind the last.
#[tactic(auto, unfolding(decl_grammar::specs::Grammar::some_constants))]
fn some_constants_of<'a, 's>(
    alloc: Global,
    room: usize,
    symbols: &'s [Symbol<'a>],
) -> Result<(Vec<MemberAt>, &'s [Symbol<'a>]), ReadFault>
    ensures { Gives (λ x. (x.0.items, x.1.now)) result (reads room some_constants symbols.now) }
{
    let (first, rest) = constant_in(alloc, room, symbols)?;
    let mut all = Vec::new(alloc);
    all.push(first)?;
    more_constants_of(alloc, room, all, rest)
}

// Constants, of which there is one, or a comma alone.
#[tactic(auto, using(decl_grammar::proofs::Firsts::some_constants_first), unfolding(decl_grammar::specs::Grammar::constant_list))]
fn constant_list_of<'a, 's>(
    alloc: Global,
    room: usize,
    symbols: &'s [Symbol<'a>],
) -> Result<(Vec<MemberAt>, &'s [Symbol<'a>]), ReadFault>
    ensures { Gives (λ x. (x.0.items, x.1.now)) result (reads room constant_list symbols.now) }
{
    if starts_constant(symbols) {
        return some_constants_of(alloc, room, symbols);
    }
    let (_, rest) = one(symbols, COMMA)?;
    Ok((Vec::new(alloc), rest))
}

/// The constants of an enum.
#[tactic(auto, using(decl_grammar::proofs::Firsts::constant_list_first), unfolding(decl_grammar::specs::Grammar::constants))]
pub fn constants_of<'a, 's>(
    alloc: Global,
    room: usize,
    symbols: &'s [Symbol<'a>],
) -> Result<(Vec<MemberAt>, &'s [Symbol<'a>]), ReadFault>
    ensures { Gives (λ x. (x.0.items, x.1.now)) result (reads room constants symbols.now) }
{
    if starts_constants(symbols) {
        return constant_list_of(alloc, room, symbols);
    }
    Ok((Vec::new(alloc), symbols))
}
