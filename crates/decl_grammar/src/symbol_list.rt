// The symbols of a token of a file.
ghost use Rattle.std.specs.Prelude.{◌≡◌, ◌++◌, IfOk, IfErr};
ghost use Rattle.java_tokens.specs.declared.fault.TextFault.TheVariants.{Memory};
ghost use Rattle.java_tokens.specs.TokensShown.{shown_doc, shown_token};
ghost use Rattle.decl_grammar.specs.SymbolList.{word_sort, operator_sort, sort_of, is_before, sort_before, symbol_of, shown_next, shown_before};

use crate::sorts::{
    ABSTRACT, AT, AT_INTERFACE, CHARACTER, EQUALS, FLOATING, GREATER_THAN, IDENTIFIER, INTEGER,
    INTERFACE, NAMED, NULL, OPEN_PARENTHESIS, SHIFT_RIGHT, TEXT, TEXT_BLOCK, TRUTH, UNDERSCORE,
    UNSIGNED_SHIFT_RIGHT, UNSIGNED_SHIFT_RIGHT_EQUALS,
};
use crate::symbol::{Symbol, TokenText};
use java_tokens::{TextFault, Token, TokenKind};

// A sort of which no form has a symbol.
const NO_SORT: u8 = 255;

// The sort of a keyword with this number.
fn word_sort_of(number: u8) -> u8
    ensures { result ≡ word_sort number }
{
    if number <= UNDERSCORE - ABSTRACT {
        ABSTRACT + number
    } else {
        NO_SORT
    }
}

// The sort of an operator with this number.
fn operator_sort_of(number: u8) -> u8
    ensures { result ≡ operator_sort number }
{
    if number <= UNSIGNED_SHIFT_RIGHT_EQUALS - OPEN_PARENTHESIS {
        OPEN_PARENTHESIS + number
    } else {
        NO_SORT
    }
}

// The sort of a token by itself.
fn kind_sort(kind: TokenKind) -> u8
    ensures { result ≡ sort_of kind }
{
    match kind {
        TokenKind::Identifier => IDENTIFIER,
        TokenKind::Reserved(number) => word_sort_of(number),
        TokenKind::Integer => INTEGER,
        TokenKind::Floating => FLOATING,
        TokenKind::Character => CHARACTER,
        TokenKind::Text => TEXT,
        TokenKind::TextBlock => TEXT_BLOCK,
        TokenKind::Operator(number) => operator_sort_of(number),
        TokenKind::Truth => TRUTH,
        TokenKind::Null => NULL,
    }
}

// Whether the next token is of this sort.
fn is_before_sort(sort: u8, next: &Option<Token<'_>>) -> bool
    ensures { result ≡ is_before sort (shown_next next.now) }
{
    match next {
        None => false,
        Some(token) => kind_sort(token.kind) == sort,
    }
}

// The sort of a token before the next one.
fn sort_at(sort: u8, next: &Option<Token<'_>>) -> u8
    ensures { result ≡ sort_before sort (shown_next next.now) }
{
    if sort == IDENTIFIER {
        return if is_before_sort(EQUALS, next) {
            NAMED
        } else {
            IDENTIFIER
        };
    }
    if sort == AT {
        return if is_before_sort(INTERFACE, next) {
            AT_INTERFACE
        } else {
            AT
        };
    }
    sort
}

// The doc comment before a token, where there is one.
fn comment_before<'a>(token: &Token<'a>) -> Option<TokenText<'a>>
    ensures { result ≡ shown_doc token.now.doc }
{
    match token.doc {
        None => None,
        Some(doc) => Some(TokenText::new(doc)),
    }
}

// A symbol of a token.
fn symbol_at<'a>(sort: u8, further: bool, token: &Token<'a>) -> Symbol<'a>
    ensures { result ≡ symbol_of sort further (shown_token token.now) }
{
    Symbol {
        sort,
        further,
        start: token.start,
        line: token.line,
        text: TokenText::new(token.text),
        doc: comment_before(token),
    }
}

/// Appends the symbols of a token, which depend on the token after it, `next`. The only error is `Memory`.
pub(crate) fn add_symbols<'a>(
    all: &mut Vec<Symbol<'a>>,
    token: &Token<'a>,
    next: &Option<Token<'a>>,
) -> Result<(), TextFault>
    ensures put { IfOk result (λ u. all.new.items ≡ all.old.items ++ shown_before token.now next.now) }
    ensures memory { IfErr result (λ e. e ≡ Memory) }
{
    let sort = kind_sort(token.kind);
    if sort == SHIFT_RIGHT {
        all.push(symbol_at(GREATER_THAN, false, token))?;
        all.push(symbol_at(GREATER_THAN, true, token))?;
        return Ok(());
    }
    if sort == UNSIGNED_SHIFT_RIGHT {
        all.push(symbol_at(GREATER_THAN, false, token))?;
        all.push(symbol_at(GREATER_THAN, true, token))?;
        all.push(symbol_at(GREATER_THAN, true, token))?;
        return Ok(());
    }
    all.push(symbol_at(sort_at(sort, next), false, token))?;
    Ok(())
}
