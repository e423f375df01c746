// What sorts of symbol stand in expressions (JLS 15).
ghost use Rattle.std.specs.Prelude.{◌≡◌, ◌++◌, [], ◌∷◌, List};
ghost use Rattle.decl_grammar.specs.Symbols.{numbers};
ghost use Rattle.decl_grammar.specs.Reading.{has, starts};
ghost use Rattle.decl_names.specs.Sorts.{plain_operators};
ghost use Rattle.decl_grammar.specs.Form.{ats, constant_sorts, names, plain_expression_words, plain_sorts, primitive_sorts};

use crate::names::is_name_sort;
use decl_grammar::Symbol;
use decl_grammar::sorts::{
    ABSTRACT, AT, AT_INTERFACE, BOOLEAN, BYTE, CHAR, DOUBLE, DOUBLE_EQUALS, ELLIPSIS, EXCLAMATION,
    FLOAT, INT, INTEGER, LONG, MINUS, OPEN_BRACE, OPEN_BRACKET, PACKAGE, SHORT, STATIC, TILDE,
    VOID,
};

// Whether a sort is one of this many from one on.
fn is_among(from: u8, count: u8, sort: u8) -> bool
    ensures { result ≡ has (numbers from count) sort }
{
    if sort < from {
        return false;
    }
    sort - from < count
}

/// Whether a literal has this sort (JLS 3.10).
pub fn is_literal_sort(sort: u8) -> bool
    ensures { result ≡ has (numbers INTEGER 7) sort }
{
    is_among(INTEGER, 7, sort)
}

// Whether a reserved word behind `instanceof` but `new` has this sort, in the order of their sorts.
#[tactic(auto, using(decl_grammar::proofs::Ranges::has_then, decl_grammar::proofs::Ranges::has_else))]
fn is_later_word(sort: u8) -> bool
    ensures { result ≡ has (numbers INT 4 ++ numbers PACKAGE 20) sort }
{
    is_among(INT, 4, sort) || is_among(PACKAGE, 20, sort)
}

// Whether a reserved word but `instanceof` and `new` has this sort.
#[tactic(auto, using(decl_grammar::proofs::Ranges::has_then, decl_grammar::proofs::Ranges::has_else))]
fn is_plain_word(sort: u8) -> bool
    ensures { result ≡ has plain_expression_words sort }
{
    is_among(ABSTRACT, 25, sort) || is_later_word(sort)
}

// Whether an ordinary operator has this sort: one that does not decide how an expression continues.
#[tactic(auto, using(decl_grammar::proofs::Ranges::has_one))]
fn is_plain_operator(sort: u8) -> bool
    ensures { result ≡ has plain_operators sort }
{
    sort == ELLIPSIS || sort == EXCLAMATION || sort == TILDE || is_among(DOUBLE_EQUALS, 30, sort)
}

// Whether an ordinary word or operator of an expression has this sort.
#[tactic(auto, using(decl_grammar::proofs::Ranges::has_then, decl_grammar::proofs::Ranges::has_else))]
fn is_plain_word_or_operator(sort: u8) -> bool
    ensures { result ≡ has (plain_expression_words ++ plain_operators) sort }
{
    is_plain_word(sort) || is_plain_operator(sort)
}

/// Whether a symbol of this sort is an ordinary one in an expression: it does not decide how the expression
/// continues.
#[tactic(auto, using(decl_grammar::proofs::Ranges::has_then, decl_grammar::proofs::Ranges::has_else))]
pub fn is_plain(sort: u8) -> bool
    ensures { result ≡ has plain_sorts sort }
{
    is_literal_sort(sort) || is_plain_word_or_operator(sort)
}

/// Whether an annotation begins with this sort.
pub fn is_at(sort: u8) -> bool
    ensures { result ≡ has ats sort }
{
    sort == AT || sort == AT_INTERFACE
}

/// Whether a pair of brackets begins with this sort, or an annotation before one.
pub fn is_square_or_at(sort: u8) -> bool
    ensures { result ≡ has (OPEN_BRACKET ∷ ats) sort }
{
    sort == OPEN_BRACKET || is_at(sort)
}

/// Whether an annotation begins here.
pub fn starts_annotation(symbols: &[Symbol<'_>]) -> bool
    ensures { result ≡ starts ats symbols.now }
{
    match symbols {
        [] => false,
        [symbol, ..] => is_at(symbol.sort),
    }
}

/// Whether a primitive type has this sort.
pub fn is_primitive(sort: u8) -> bool
    ensures { result ≡ has primitive_sorts sort }
{
    sort == BOOLEAN
        || sort == BYTE
        || sort == SHORT
        || sort == INT
        || sort == LONG
        || sort == CHAR
        || sort == FLOAT
        || sort == DOUBLE
}

/// Whether a primitive type begins here.
pub fn starts_primitive(symbols: &[Symbol<'_>]) -> bool
    ensures { result ≡ starts primitive_sorts symbols.now }
{
    match symbols {
        [] => false,
        [symbol, ..] => is_primitive(symbol.sort),
    }
}

// Whether a name or a primitive type has this sort.
#[tactic(auto, using(decl_grammar::proofs::Ranges::has_then, decl_grammar::proofs::Ranges::has_else))]
fn is_name_or_primitive(sort: u8) -> bool
    ensures { result ≡ has (names ++ primitive_sorts) sort }
{
    is_name_sort(sort) || is_primitive(sort)
}

/// Whether a type begins here, its annotations aside.
pub fn starts_type(symbols: &[Symbol<'_>]) -> bool
    ensures { result ≡ starts (names ++ primitive_sorts) symbols.now }
{
    match symbols {
        [] => false,
        [symbol, ..] => is_name_or_primitive(symbol.sort),
    }
}

// Whether `-`, `void` or a primitive type has this sort.
fn is_minus_or_class(sort: u8) -> bool
    ensures { result ≡ has (MINUS ∷ VOID ∷ primitive_sorts) sort }
{
    sort == MINUS || sort == VOID || is_primitive(sort)
}

// Whether a literal has this sort, or one of those.
#[tactic(auto, using(decl_grammar::proofs::Ranges::has_then, decl_grammar::proofs::Ranges::has_else))]
fn is_literal_or_more(sort: u8) -> bool
    ensures { result ≡ has (numbers INTEGER 7 ++ MINUS ∷ VOID ∷ primitive_sorts) sort }
{
    is_literal_sort(sort) || is_minus_or_class(sort)
}

// Whether a name has this sort, or one of those.
#[tactic(auto, using(decl_grammar::proofs::Ranges::has_then, decl_grammar::proofs::Ranges::has_else))]
fn is_plain_constant(sort: u8) -> bool
    ensures { result ≡ has (names ++ (numbers INTEGER 7 ++ MINUS ∷ VOID ∷ primitive_sorts)) sort }
{
    is_name_sort(sort) || is_literal_or_more(sort)
}

// Whether an annotation begins with this sort, or it is one of those.
#[tactic(auto, using(decl_grammar::proofs::Ranges::has_then, decl_grammar::proofs::Ranges::has_else))]
fn is_unbraced_constant(sort: u8) -> bool
    ensures { result ≡ has (ats ++ (names ++ (numbers INTEGER 7 ++ MINUS ∷ VOID ∷ primitive_sorts))) sort }
{
    is_at(sort) || is_plain_constant(sort)
}

// Whether a constant form begins with this sort.
fn is_constant(sort: u8) -> bool
    ensures { result ≡ has constant_sorts sort }
{
    sort == OPEN_BRACE || is_unbraced_constant(sort)
}

/// Whether a constant form begins here.
pub fn starts_constant(symbols: &[Symbol<'_>]) -> bool
    ensures { result ≡ starts constant_sorts symbols.now }
{
    match symbols {
        [] => false,
        [symbol, ..] => is_constant(symbol.sort),
    }
}
