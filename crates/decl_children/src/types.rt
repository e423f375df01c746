// A walk over types, their members and the types among these, up to where a child list is too long.
ghost use Rattle.std.specs.Prelude.{◌≡◌, ◌≤◌, ◌*◌, ◌||◌, true, false, [], ◌∷◌, length};
ghost use Rattle.apt_base.specs.Limits.{max_children};
ghost use Rattle.decl_grammar.specs.Reading.{starts, done};
ghost use Rattle.decl_grammar.specs.Form.{first_of, nested_type};
ghost use Rattle.decl_grammar.specs.Types.{type_modifiers};
ghost use Rattle.decl_grammar.specs.Rule.{reads};
ghost use Rattle.decl_grammar.specs.declared.written.Modifiers.{Modifiers};
ghost use Rattle.decl_children.specs.Members.{TypeCrowds};
ghost use Rattle.decl_children.specs.Results.{ExecutableCrowds};
ghost use Rattle.decl_children.specs.KindWords.{front_word, is_enum};
ghost use Rattle.decl_children.specs.TypeWalks.{Walks, Steps, added_to, MembersOver, MembersEnd, TypeEnds, EnumOver, EnumEnd};
ghost use Rattle.decl_children.specs.WalkSteps.{Decides, OneMore, NothingSteps, PlainSteps};

use crate::headings::{enum_front_of, heading_at};
use crate::lists::{enum_constants_full, fields_full, named_params_full};
use crate::members::{count_in, has_many, is_constructor, nothing_of, unnested_of};
use crate::results::executable_full;
use crate::steps::{all, behind, read_or_none};
use crate::walks::{Passed, Step, Walk};
use apt_base::{MAX_CHILDREN, NoMemory};
use decl_grammar::sorts::{
    AT_INTERFACE, CLASS, CLOSE_BRACE, ENUM, INTERFACE, OPEN_BRACE, SEMICOLON,
};
use decl_grammar::{ReadFault, Symbol};
use decl_tree::TypeKind;
use decl_types::{starts_member, starts_type_word, type_modifiers_of};
use decl_values::is_next;
use std::alloc::Global;

// Whether one member too many begins here.
fn begins_full(kind: TypeKind, before: usize, symbols: &[Symbol<'_>]) -> bool
    ensures { Decides (OneMore kind before symbols.now) result }
{
    if before < MAX_CHILDREN {
        return false;
    }
    if is_next(symbols, SEMICOLON) {
        return false;
    }
    if is_next(symbols, OPEN_BRACE) {
        return false;
    }
    starts_member(kind, symbols)
}

// How many children the language adds to a type of this kind, with a constructor or without.
fn added(kind: TypeKind, constructor: bool) -> usize
    ensures { result ≡ added_to kind constructor }
{
    match kind {
        TypeKind::Enum => { if constructor { 2 } else { 3 } }
        TypeKind::Class => { if constructor { 0 } else { 1 } }
        TypeKind::AnnotationType => 0,
        TypeKind::Interface => 0,
    }
}

// Whether one of the two holds.
fn either(one: bool, other: bool) -> bool
    ensures { result ≡ (one || other) }
{
    one || other
}

// A `;` or an initialiser, where no member stands.
fn nothing<'a, 's>(
    alloc: Global,
    room: usize,
    kind: TypeKind,
    symbols: &'s [Symbol<'a>],
) -> Result<Step<'a, 's>, NoMemory>
    requires room { 3 * length symbols.now ≤ room }
    ensures { NothingSteps kind symbols.now result }
{
    let Some(rest) = read_or_none(nothing_of(alloc, room, kind, symbols))? else {
        return Ok(Step::Ended);
    };
    Ok(Step::Behind(Passed {
        count: 0,
        constructor: false,
        rest,
    }))
}

// A member behind its modifiers, which is no type.
fn plain<'a, 's>(
    alloc: Global,
    room: usize,
    kind: TypeKind,
    symbols: &'s [Symbol<'a>],
) -> Result<Step<'a, 's>, NoMemory>
    requires room { 3 * length symbols.now ≤ room }
    requires plain { starts (first_of nested_type) symbols.now ≡ false }
    ensures { PlainSteps kind symbols.now result }
{
    match unnested_of(alloc, room, kind, symbols) {
        Ok(read) => {
            let (member, rest) = read;
            if has_many(&member) {
                return Ok(Step::Full);
            }
            let count = count_in(&member);
            let constructor = is_constructor(&member);
            Ok(Step::Behind(Passed {
                count,
                constructor,
                rest,
            }))
        }
        Err(ReadFault::Memory) => Err(NoMemory),
        Err(ReadFault::Bad(_)) => Ok(Step::Ended),
        Err(ReadFault::Deep(_)) => Ok(Step::Ended),
    }
}

// A member that is no type.
fn plain_member<'a, 's>(
    alloc: Global,
    room: usize,
    kind: TypeKind,
    before: usize,
    symbols: &'s [Symbol<'a>],
    rest: &'s [Symbol<'a>],
) -> Result<Step<'a, 's>, NoMemory>
    requires room { 3 * length symbols.now ≤ room }
    requires few { before ≤ max_children }
    requires one { OneMore kind before symbols.now → ⊥ }
    requires marks { (m : Modifiers) × (reads room type_modifiers symbols.now ≡ done m rest.now) }
    requires plain { starts (first_of nested_type) rest.now ≡ false }
    requires executable { ExecutableCrowds rest.now → ⊥ }
    ensures { Steps kind before symbols.now result }
{
    if fields_full(alloc, room, before, rest)? {
        return Ok(Step::Full);
    }
    match plain(alloc, room, kind, rest)? {
        Step::Full => Ok(Step::Full),
        Step::Ended => nothing(alloc, room, kind, symbols),
        Step::Behind(passed) => Ok(Step::Behind(passed)),
    }
}

// One member.
#[cycle(types)]
fn walk_member<'a, 's>(
    alloc: Global,
    room: usize,
    kind: TypeKind,
    before: usize,
    symbols: &'s [Symbol<'a>],
) -> Result<Step<'a, 's>, NoMemory>
    requires room { 3 * length symbols.now ≤ room }
    requires few { before ≤ max_children }
    ensures { Steps kind before symbols.now result }
{
    if begins_full(kind, before, symbols) {
        return Ok(Step::Full);
    }
    let Some((_, rest)) = read_or_none(type_modifiers_of(alloc, room, symbols))? else {
        return nothing(alloc, room, kind, symbols);
    };
    if executable_full(alloc, room, rest)? {
        return Ok(Step::Full);
    }
    if !starts_type_word(rest) {
        return plain_member(alloc, room, kind, before, symbols, rest);
    }
    match walk_type(alloc, room, rest)? {
        Walk::Full => Ok(Step::Full),
        Walk::Ended => nothing(alloc, room, kind, symbols),
        Walk::Behind(rest) => {
            Ok(Step::Behind(Passed {
                count: 1,
                constructor: false,
                rest,
            }))
        }
    }
}

// Members of a type with this many children before them, up to its `}`.
#[cycle(types)]
fn walk_members<'a, 's>(
    alloc: Global,
    room: usize,
    kind: TypeKind,
    before: usize,
    symbols: &'s [Symbol<'a>],
) -> Result<Walk<'a, 's>, NoMemory>
    requires room { 3 * length symbols.now ≤ room }
    requires few { before ≤ max_children }
    ensures { Walks (MembersOver kind before false symbols.now) (MembersEnd kind symbols.now) result }
{
    let mut so_far = before;
    let mut constructor = false;
    let mut rest = all(symbols);
    'row: while !is_next(rest, CLOSE_BRACE) {
        match walk_member(alloc, room, kind, so_far, rest)? {
            Step::Full => return Ok(Walk::Full),
            Step::Ended => return Ok(Walk::Ended),
            Step::Behind(passed) => {
                if passed.count > MAX_CHILDREN - so_far {
                    return Ok(Walk::Full);
                }
                so_far += passed.count;
                constructor = either(constructor, passed.constructor);
                rest = all(passed.rest);
            }
        }
    }
    if added(kind, constructor) > MAX_CHILDREN - so_far {
        return Ok(Walk::Full);
    }
    Ok(Walk::Behind(behind(rest)))
}

// A class, an interface or an annotation interface.
#[cycle(types)]
fn walk_headed<'a, 's>(
    alloc: Global,
    room: usize,
    kind: TypeKind,
    symbols: &'s [Symbol<'a>],
) -> Result<Walk<'a, 's>, NoMemory>
    requires room { 3 * length symbols.now ≤ room }
    requires kind { is_enum kind ≡ false }
    requires begins { starts (front_word kind ∷ []) symbols.now ≡ true }
    ensures { Walks (TypeCrowds symbols.now) (TypeEnds symbols.now) result }
{
    if named_params_full(alloc, room, symbols)? {
        return Ok(Walk::Full);
    }
    let Some(found) = read_or_none(heading_at(alloc, room, kind, symbols))? else {
        return Ok(Walk::Ended);
    };
    let (before, rest) = found;
    if before > MAX_CHILDREN {
        return Ok(Walk::Full);
    }
    walk_members(alloc, room, kind, before, rest)
}

// An enum behind its constants, of which there are this many.
#[cycle(types)]
fn walk_behind_constants<'a, 's>(
    alloc: Global,
    room: usize,
    before: usize,
    symbols: &'s [Symbol<'a>],
) -> Result<Walk<'a, 's>, NoMemory>
    requires room { 3 * length symbols.now ≤ room }
    ensures { Walks (EnumOver before symbols.now) (EnumEnd symbols.now) result }
{
    if is_next(symbols, SEMICOLON) {
        if before > MAX_CHILDREN {
            return Ok(Walk::Full);
        }
        return walk_members(alloc, room, TypeKind::Enum, before, behind(symbols));
    }
    if !is_next(symbols, CLOSE_BRACE) {
        return Ok(Walk::Ended);
    }
    if before > MAX_CHILDREN - 3 {
        return Ok(Walk::Full);
    }
    Ok(Walk::Behind(behind(symbols)))
}

// An enum.
#[cycle(types)]
fn walk_enum<'a, 's>(
    alloc: Global,
    room: usize,
    symbols: &'s [Symbol<'a>],
) -> Result<Walk<'a, 's>, NoMemory>
    requires room { 3 * length symbols.now ≤ room }
    requires begins { starts (ENUM ∷ []) symbols.now ≡ true }
    ensures { Walks (TypeCrowds symbols.now) (TypeEnds symbols.now) result }
{
    if enum_constants_full(alloc, room, symbols)? {
        return Ok(Walk::Full);
    }
    let Some(found) = read_or_none(enum_front_of(alloc, room, symbols))? else {
        return Ok(Walk::Ended);
    };
    let (before, rest) = found;
    walk_behind_constants(alloc, room, before, rest)
}

/// A type behind its modifiers.
#[cycle(types)]
pub fn walk_type<'a, 's>(
    alloc: Global,
    room: usize,
    symbols: &'s [Symbol<'a>],
) -> Result<Walk<'a, 's>, NoMemory>
    requires room { 3 * length symbols.now ≤ room }
    ensures { Walks (TypeCrowds symbols.now) (TypeEnds symbols.now) result }
{
    if is_next(symbols, ENUM) {
        return walk_enum(alloc, room, symbols);
    }
    if is_next(symbols, CLASS) {
        return walk_headed(alloc, room, TypeKind::Class, symbols);
    }
    if is_next(symbols, INTERFACE) {
        return walk_headed(alloc, room, TypeKind::Interface, symbols);
    }
    if is_next(symbols, AT_INTERFACE) {
        return walk_headed(alloc, room, TypeKind::AnnotationType, symbols);
    }
    Ok(Walk::Ended)
}
