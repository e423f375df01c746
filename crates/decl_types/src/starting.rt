// Which symbols begin members.
ghost use Rattle.std.specs.Prelude.{◌≡◌, ◌++◌, [], ◌∷◌, List};
ghost use Rattle.decl_grammar.specs.Reading.{has, starts};
ghost use Rattle.decl_grammar.specs.Form.{names, plain_words, modifier_words, first_of, nested_type, primitive_sorts};
ghost use Rattle.decl_types.specs.Members.{unmodified_firsts, element_firsts, modifier_firsts, plain_firsts, modified_firsts, block_or, member_firsts};

use crate::modifiers::{is_modifier_word, is_plain_word};
use decl_grammar::Symbol;
use decl_grammar::sorts::{
    AT, AT_INTERFACE, CLASS, ENUM, INTERFACE, LESS_THAN, OPEN_BRACE, SEMICOLON, STATIC, VOID,
};
use decl_tree::TypeKind;
use decl_values::{is_name_sort, is_primitive};

// Whether a type may begin with this sort, its modifiers aside.
fn is_type_word(sort: u8) -> bool
    ensures { result ≡ has (first_of nested_type) sort }
{
    sort == CLASS || sort == INTERFACE || sort == AT_INTERFACE || sort == ENUM
}

/// Whether a type begins here, its modifiers aside.
pub fn starts_type_word(symbols: &[Symbol<'_>]) -> bool
    ensures { result ≡ starts (first_of nested_type) symbols.now }
{
    match symbols {
        [] => false,
        [symbol, ..] => is_type_word(symbol.sort),
    }
}

// Whether a name or a `<` has this sort.
#[tactic(auto, using(decl_grammar::proofs::Ranges::has_then, decl_grammar::proofs::Ranges::has_else))]
fn is_name_or_less(sort: u8) -> bool
    ensures { result ≡ has (names ++ (LESS_THAN ∷ [])) sort }
{
    is_name_sort(sort) || sort == LESS_THAN
}

// The same, or a primitive type.
#[tactic(auto, using(decl_grammar::proofs::Ranges::has_then, decl_grammar::proofs::Ranges::has_else))]
fn is_primitive_or_more(sort: u8) -> bool
    ensures { result ≡ has (primitive_sorts ++ (names ++ (LESS_THAN ∷ []))) sort }
{
    is_primitive(sort) || is_name_or_less(sort)
}

// The same, or `void`.
#[tactic(auto, using(decl_grammar::proofs::Ranges::has_then, decl_grammar::proofs::Ranges::has_else))]
fn is_void_or_more(sort: u8) -> bool
    ensures { result ≡ has ((VOID ∷ []) ++ (primitive_sorts ++ (names ++ (LESS_THAN ∷ [])))) sort }
{
    sort == VOID || is_primitive_or_more(sort)
}

// Whether a member of a class or of an interface may begin with this sort, its modifiers aside.
#[tactic(auto, using(decl_grammar::proofs::Ranges::has_then, decl_grammar::proofs::Ranges::has_else))]
fn begins_unmodified(sort: u8) -> bool
    ensures { result ≡ has unmodified_firsts sort }
{
    is_type_word(sort) || is_void_or_more(sort)
}

/// Whether a member of a class or of an interface begins here, its modifiers aside.
pub fn starts_unmodified(symbols: &[Symbol<'_>]) -> bool
    ensures { result ≡ starts unmodified_firsts symbols.now }
{
    match symbols {
        [] => false,
        [symbol, ..] => begins_unmodified(symbol.sort),
    }
}

/// Whether a primitive type or a name has this sort.
#[tactic(auto, using(decl_grammar::proofs::Ranges::has_then, decl_grammar::proofs::Ranges::has_else))]
pub fn is_primitive_or_name(sort: u8) -> bool
    ensures { result ≡ has (primitive_sorts ++ names) sort }
{
    is_primitive(sort) || is_name_sort(sort)
}

// Whether a member of an annotation interface may begin with this sort, its modifiers aside.
#[tactic(auto, using(decl_grammar::proofs::Ranges::has_then, decl_grammar::proofs::Ranges::has_else))]
fn begins_element(sort: u8) -> bool
    ensures { result ≡ has element_firsts sort }
{
    is_type_word(sort) || is_primitive_or_name(sort)
}

// Whether a modifier may begin with this sort, but `static`.
#[tactic(auto, using(decl_grammar::proofs::Ranges::has_then, decl_grammar::proofs::Ranges::has_else))]
fn is_plain(sort: u8) -> bool
    ensures { result ≡ has plain_firsts sort }
{
    is_plain_word(sort) || sort == AT
}

// The same, or `static`.
#[tactic(auto, using(decl_grammar::proofs::Ranges::has_then, decl_grammar::proofs::Ranges::has_else))]
fn is_plain_or_static(sort: u8) -> bool
    ensures { result ≡ has (plain_firsts ++ (STATIC ∷ [])) sort }
{
    is_plain(sort) || sort == STATIC
}

// Whether a member of a class may begin with this sort.
#[tactic(auto, using(decl_grammar::proofs::Ranges::has_then, decl_grammar::proofs::Ranges::has_else))]
fn begins_of_class(sort: u8) -> bool
    ensures { result ≡ has (unmodified_firsts ++ (plain_firsts ++ (STATIC ∷ []))) sort }
{
    begins_unmodified(sort) || is_plain_or_static(sort)
}

// The same, or an initialiser.
#[tactic(auto, using(decl_grammar::proofs::Ranges::has_then, decl_grammar::proofs::Ranges::has_else))]
fn begins_block_or_more(sort: u8) -> bool
    ensures { result ≡ has ((OPEN_BRACE ∷ []) ++ (unmodified_firsts ++ (plain_firsts ++ (STATIC ∷ [])))) sort }
{
    sort == OPEN_BRACE || begins_of_class(sort)
}

// Whether a modifier may begin with this sort.
#[tactic(auto, using(decl_grammar::proofs::Ranges::has_then, decl_grammar::proofs::Ranges::has_else))]
fn is_modifier(sort: u8) -> bool
    ensures { result ≡ has modifier_firsts sort }
{
    is_modifier_word(sort) || sort == AT
}

// Whether a member of an interface may begin with this sort.
#[tactic(auto, using(decl_grammar::proofs::Ranges::has_then, decl_grammar::proofs::Ranges::has_else))]
fn begins_of_interface(sort: u8) -> bool
    ensures { result ≡ has (modifier_firsts ++ unmodified_firsts) sort }
{
    is_modifier(sort) || begins_unmodified(sort)
}

// Whether a member of an annotation interface may begin with this sort.
#[tactic(auto, using(decl_grammar::proofs::Ranges::has_then, decl_grammar::proofs::Ranges::has_else))]
fn begins_of_annotation(sort: u8) -> bool
    ensures { result ≡ has (modifier_firsts ++ element_firsts) sort }
{
    is_modifier(sort) || begins_element(sort)
}

// Whether a member of such a type may begin with this sort, but a `;`.
fn begins_more(kind: TypeKind, sort: u8) -> bool
    ensures { result ≡ has (block_or kind (modified_firsts kind)) sort }
{
    match kind {
        TypeKind::Enum => begins_block_or_more(sort),
        TypeKind::Class => begins_block_or_more(sort),
        TypeKind::AnnotationType => begins_of_annotation(sort),
        TypeKind::Interface => begins_of_interface(sort),
    }
}

// Whether a member of such a type may begin with this sort.
#[tactic(auto, using(decl_grammar::proofs::Ranges::has_then, decl_grammar::proofs::Ranges::has_else))]
fn begins_member(kind: TypeKind, sort: u8) -> bool
    ensures { result ≡ has ((SEMICOLON ∷ []) ++ block_or kind (modified_firsts kind)) sort }
{
    sort == SEMICOLON || begins_more(kind, sort)
}

/// Whether a member of such a type begins here.
pub fn starts_member(kind: TypeKind, symbols: &[Symbol<'_>]) -> bool
    ensures { result ≡ starts (member_firsts kind) symbols.now }
{
    match symbols {
        [] => false,
        [symbol, ..] => begins_member(kind, symbol.sort),
    }
}
