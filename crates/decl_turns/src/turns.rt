// How an expression goes on, by where it stands, by what stands before the next symbol, and by its sort (JLS 15).
ghost use Rattle.std.specs.Prelude.{◌≡◌, ◌==◌, Option};
ghost use Rattle.decl_grammar.specs.Reading.{UnlessMemory, has};
ghost use Rattle.decl_grammar.specs.Form.{equals, first_names, names};
ghost use Rattle.decl_turns.specs.States.{stands_of, freedom_of, leave_after};
ghost use Rattle.decl_turns.specs.Turns.{one_then, then_part, new_next, sign_next, word_next, told_next, less_there, only_if, plain_dots_next, tested_dots_next, dots_next, plain_squares_next, tested_squares_next, annotated_next, squares_next, signs_next, braces_next, test_next, plain_next, later_next, none_left, valued_at, equals_at, next_at};
ghost use Rattle.decl_turns.specs.declared.states.Before.TheVariants as earlier;

use crate::states::{Before, Leave, Next, Piece, Place, Turn};
use decl_grammar::sorts::{
    ARROW, COLON, DOT, DOUBLE_COLON, EQUALS, GREATER_THAN, IDENTIFIER, INSTANCEOF, LESS_THAN, NEW,
    OPEN_BRACE, OPEN_BRACKET, OPEN_PARENTHESIS, QUESTION,
};
use decl_grammar::{ReadFault, Symbol};
use decl_names::{is_at, is_name_sort, is_plain, is_primitive, is_square_or_at};

/// One symbol, behind which this stands.
pub fn symbol_then(before: Before) -> Next
    ensures { result ≡ one_then before }
{
    Next::Part(Piece::One, Turn::Same, before)
}

/// A part that changes nothing of where a `=` may stand.
pub fn part_then(piece: Piece, before: Before) -> Next
    ensures { result ≡ then_part piece before }
{
    Next::Part(piece, Turn::Same, before)
}

// `new`.
fn new_then(before: Before) -> Next
    ensures { result ≡ new_next before }
{
    match before {
        Before::Colons => symbol_then(Before::Between),
        Before::ColonArguments => symbol_then(Before::Between),
        Before::Between => part_then(Piece::Created, Before::Creation),
        Before::Name => part_then(Piece::Created, Before::Creation),
        Before::Greater => part_then(Piece::Created, Before::Creation),
        Before::Dot => part_then(Piece::Created, Before::Creation),
        Before::Creation => part_then(Piece::Created, Before::Creation),
        Before::Test => part_then(Piece::Created, Before::Creation),
        Before::TestName => part_then(Piece::Created, Before::Creation),
        Before::TestArguments => part_then(Piece::Created, Before::Creation),
        Before::TestEnd => part_then(Piece::Created, Before::Creation),
    }
}

// `>`, `?`, `:` and `->`.
fn sign_then(sort: u8) -> Option<Next>
    ensures { result ≡ sign_next sort }
{
    if sort == GREATER_THAN {
        return Some(symbol_then(Before::Greater));
    }
    if sort == QUESTION {
        return Some(Next::Part(Piece::One, Turn::Condition, Before::Between));
    }
    if sort == COLON {
        return Some(Next::Part(Piece::One, Turn::Colon, Before::Between));
    }
    if sort == ARROW {
        return Some(Next::Part(Piece::One, Turn::Lambda, Before::Between));
    }
    None
}

// `(`, `new` and `instanceof`, and those signs.
fn word_then(before: Before, sort: u8) -> Option<Next>
    ensures { result ≡ word_next before sort }
{
    if sort == OPEN_PARENTHESIS {
        return Some(part_then(Piece::Round, Before::Between));
    }
    if sort == NEW {
        return Some(new_then(before));
    }
    if sort == INSTANCEOF {
        return Some(part_then(Piece::Tested, Before::Test));
    }
    sign_then(sort)
}

/// What may stand anywhere.
pub fn told_then(before: Before, sort: u8) -> Option<Next>
    ensures { result ≡ told_next names before sort }
{
    if is_name_sort(sort) {
        return Some(symbol_then(Before::Name));
    }
    if is_plain(sort) {
        return Some(symbol_then(Before::Between));
    }
    word_then(before, sort)
}

// Whether a name that begins an expression has this sort.
fn is_first_name(place: Place, sort: u8) -> bool
    ensures { result ≡ has (first_names (stands_of place)) sort }
{
    match place {
        Place::Alone => sort == IDENTIFIER,
        Place::Paired => is_name_sort(sort),
        Place::Listed => is_name_sort(sort),
        Place::Defaulted => is_name_sort(sort),
        Place::Assigned => is_name_sort(sort),
    }
}

/// What may stand anywhere, as the first part.
pub fn told_first(place: Place, sort: u8) -> Option<Next>
    ensures { result ≡ told_next (first_names (stands_of place)) earlier.Between sort }
{
    if is_first_name(place, sort) {
        return Some(symbol_then(Before::Name));
    }
    if is_plain(sort) {
        return Some(symbol_then(Before::Between));
    }
    word_then(Before::Between, sort)
}

// `<` by what stands before it.
fn less_then(before: Before) -> Option<Next>
    ensures { result ≡ less_there before }
{
    match before {
        Before::Name => Some(Next::Two),
        Before::Dot => Some(part_then(Piece::Arguments, Before::Between)),
        Before::Colons => Some(part_then(Piece::Arguments, Before::ColonArguments)),
        Before::TestName => Some(part_then(Piece::Arguments, Before::TestArguments)),
        Before::ColonArguments => None,
        Before::Creation => None,
        Before::Between => Some(symbol_then(Before::Between)),
        Before::Greater => Some(symbol_then(Before::Between)),
        Before::Test => Some(symbol_then(Before::Between)),
        Before::TestArguments => Some(symbol_then(Before::Between)),
        Before::TestEnd => Some(symbol_then(Before::Between)),
    }
}

/// `.` and `::`.
pub fn plain_dots_then(sort: u8) -> Option<Next>
    ensures { result ≡ plain_dots_next sort }
{
    if sort == DOT {
        return Some(symbol_then(Before::Dot));
    }
    if sort == DOUBLE_COLON {
        return Some(symbol_then(Before::Colons));
    }
    None
}

// The same in a type that is tested.
fn tested_dots_then(sort: u8) -> Option<Next>
    ensures { result ≡ tested_dots_next sort }
{
    if sort == DOT {
        return Some(part_then(Piece::TestedName, Before::TestName));
    }
    if sort == DOUBLE_COLON {
        return Some(symbol_then(Before::Colons));
    }
    None
}

// `.` and `::` by what stands before them.
fn dots_then(valued: bool, before: Before, sort: u8) -> Option<Next>
    ensures { result ≡ dots_next valued before sort }
{
    match before {
        Before::TestName => tested_dots_then(sort),
        Before::TestArguments => tested_dots_then(sort),
        Before::Creation => None,
        Before::Greater => {
            if valued {
                return None;
            }
            plain_dots_then(sort)
        }
        Before::Between => plain_dots_then(sort),
        Before::Name => plain_dots_then(sort),
        Before::Dot => plain_dots_then(sort),
        Before::Colons => plain_dots_then(sort),
        Before::ColonArguments => plain_dots_then(sort),
        Before::Test => plain_dots_then(sort),
        Before::TestEnd => plain_dots_then(sort),
    }
}

// `[` and `@`.
fn plain_squares_then(sort: u8) -> Option<Next>
    ensures { result ≡ plain_squares_next sort }
{
    if sort == OPEN_BRACKET {
        return Some(part_then(Piece::Square, Before::Between));
    }
    if is_at(sort) {
        return Some(symbol_then(Before::Between));
    }
    None
}

// `[` and `@` in a type that is tested.
fn tested_squares_then(sort: u8) -> Option<Next>
    ensures { result ≡ tested_squares_next sort }
{
    if is_square_or_at(sort) {
        return Some(part_then(Piece::TestedDim, Before::TestEnd));
    }
    None
}

// `@` behind a `>` in a value.
fn annotated_then(sort: u8) -> Option<Next>
    ensures { result ≡ annotated_next sort }
{
    if is_at(sort) {
        return Some(part_then(Piece::Annotated, Before::Name));
    }
    None
}

// `[` and `@` by what stands before them.
fn squares_then(valued: bool, before: Before, sort: u8) -> Option<Next>
    ensures { result ≡ squares_next valued before sort }
{
    match before {
        Before::TestName => tested_squares_then(sort),
        Before::TestArguments => tested_squares_then(sort),
        Before::TestEnd => tested_squares_then(sort),
        Before::Greater => {
            if valued {
                return annotated_then(sort);
            }
            plain_squares_then(sort)
        }
        Before::Between => plain_squares_then(sort),
        Before::Name => plain_squares_then(sort),
        Before::Dot => plain_squares_then(sort),
        Before::Colons => plain_squares_then(sort),
        Before::ColonArguments => plain_squares_then(sort),
        Before::Creation => plain_squares_then(sort),
        Before::Test => plain_squares_then(sort),
    }
}

// `<`, where it stands here.
fn less_if(before: Before, sort: u8) -> Option<Next>
    ensures { result ≡ only_if (sort == LESS_THAN) (less_there before) }
{
    if sort == LESS_THAN {
        return less_then(before);
    }
    None
}

/// `<`, `.`, `::`, `[` and `@` by what stands before them.
pub fn signs_then(valued: bool, before: Before, sort: u8) -> Option<Next>
    ensures { result ≡ signs_next valued before sort }
{
    if let Some(next) = less_if(before, sort) {
        return Some(next);
    }
    if let Some(next) = dots_then(valued, before, sort) {
        return Some(next);
    }
    squares_then(valued, before, sort)
}

// Whether a `=` has this sort and may stand here in a value.
fn is_free_equals(leave: Leave, sort: u8) -> bool
    ensures { result ≡ has (equals (freedom_of leave)) sort }
{
    match leave {
        Leave::Within(count) => count > 0 && sort == EQUALS,
        Leave::Anywhere => sort == EQUALS,
    }
}

// Whether a `=` has this sort and may stand here.
fn is_equals(place: Place, leave: Leave, sort: u8) -> bool
    ensures { result ≡ has (equals_at place leave) sort }
{
    match place {
        Place::Alone => is_free_equals(leave, sort),
        Place::Paired => is_free_equals(leave, sort),
        Place::Listed => is_free_equals(leave, sort),
        Place::Defaulted => is_free_equals(leave, sort),
        Place::Assigned => sort == EQUALS,
    }
}

/// `{`, and `=` where it may stand.
pub fn braces_then(place: Place, leave: Leave, sort: u8) -> Option<Next>
    ensures { result ≡ braces_next (equals_at place leave) sort }
{
    if sort == OPEN_BRACE {
        return Some(part_then(Piece::Brace, Before::Between));
    }
    if is_equals(place, leave, sort) {
        return Some(symbol_then(Before::Between));
    }
    None
}

// What comes behind `instanceof`.
fn test_then(sort: u8) -> Next
    ensures { result ≡ test_next sort }
{
    if is_name_sort(sort) {
        return symbol_then(Before::TestName);
    }
    if is_primitive(sort) {
        return symbol_then(Before::TestEnd);
    }
    Next::Nothing
}

/// Whether an expression that stands here is a value.
pub fn is_valued(place: Place) -> bool
    ensures { result ≡ valued_at place }
{
    match place {
        Place::Assigned => false,
        Place::Alone => true,
        Place::Paired => true,
        Place::Listed => true,
        Place::Defaulted => true,
    }
}

// What goes on with an expression, or that it ends.
fn plain_then(place: Place, leave: Leave, before: Before, sort: u8) -> Next
    ensures { result ≡ plain_next (valued_at place) (equals_at place leave) before sort }
{
    if let Some(next) = told_then(before, sort) {
        return next;
    }
    if let Some(next) = signs_then(is_valued(place), before, sort) {
        return next;
    }
    if let Some(next) = braces_then(place, leave, sort) {
        return next;
    }
    Next::End
}

// The same also behind `instanceof`.
fn later_then(place: Place, leave: Leave, before: Before, sort: u8) -> Next
    ensures { result ≡ later_next (valued_at place) (equals_at place leave) before sort }
{
    match before {
        Before::Test => test_then(sort),
        Before::Between => plain_then(place, leave, before, sort),
        Before::Name => plain_then(place, leave, before, sort),
        Before::Greater => plain_then(place, leave, before, sort),
        Before::Dot => plain_then(place, leave, before, sort),
        Before::Colons => plain_then(place, leave, before, sort),
        Before::ColonArguments => plain_then(place, leave, before, sort),
        Before::Creation => plain_then(place, leave, before, sort),
        Before::TestName => plain_then(place, leave, before, sort),
        Before::TestArguments => plain_then(place, leave, before, sort),
        Before::TestEnd => plain_then(place, leave, before, sort),
    }
}

// How an expression goes on where no symbol is left.
fn end_of(before: Before) -> Next
    ensures { result ≡ none_left before }
{
    match before {
        Before::Test => Next::Nothing,
        Before::Between => Next::End,
        Before::Name => Next::End,
        Before::Greater => Next::End,
        Before::Dot => Next::End,
        Before::Colons => Next::End,
        Before::ColonArguments => Next::End,
        Before::Creation => Next::End,
        Before::TestName => Next::End,
        Before::TestArguments => Next::End,
        Before::TestEnd => Next::End,
    }
}

/// How an expression goes on here.
pub fn next_of(place: Place, leave: Leave, before: Before, symbols: &[Symbol<'_>]) -> Next
    ensures { result ≡ next_at place leave before symbols.now }
{
    match symbols {
        [] => end_of(before),
        [symbol, ..] => later_then(place, leave, before, symbol.sort),
    }
}

/// Where a `=` is allowed after a part. The number of open conditions could only overflow with more symbols than fit
/// into memory, so an overflow is answered as out of memory.
pub fn leave_behind(turn: Turn, leave: Leave) -> Result<Leave, ReadFault>
    ensures { UnlessMemory result (λ after. after ≡ leave_after turn leave) }
{
    match leave {
        Leave::Anywhere => Ok(Leave::Anywhere),
        Leave::Within(count) => match turn {
            Turn::Same => Ok(leave),
            Turn::Condition => match count.checked_add(1) {
                Some(more) => Ok(Leave::Within(more)),
                None => Err(ReadFault::Memory),
            },
            Turn::Colon => Ok(Leave::Within(count.saturating_sub(1))),
            Turn::Lambda => {
                if count == 0 {
                    return Ok(Leave::Anywhere);
                }
                Ok(leave)
            }
        },
    }
}
