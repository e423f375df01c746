// The characters of character and string literals.
ghost use Rattle.std.specs.Prelude.{◌≡◌, ◌++◌, ◌<◌, chars, OnOk, IfOk, IfSome, option_map};
ghost use Rattle.std.specs.Option.{option_to_list};
ghost use Rattle.literal_values.specs.declared.quoted.Reading.TheVariants as reading;
ghost use Rattle.literal_values.specs.Numerals.{digit_in};
ghost use Rattle.literal_values.specs.Quoted as quoted;
ghost use Rattle.literal_values.specs.QuotedParts.{shown, Fits};

use apt_base::{List, NoMemory};
use std::alloc::Global;

/// How far a literal is read behind its first quote.
#[derive(Clone, Copy)]
pub(crate) enum Reading {
    /// No escape is begun.
    Plain,
    /// Behind a backslash.
    Begun,
    /// In an octal escape of this value so far, which may have so many digits more.
    Octal(u8, u8),
    /// Behind the closing quote.
    Closed,
}

// What a character brings.
#[derive(Clone, Copy)]
struct Step {
    // The character of an octal escape that ends in front of it.
    ended: Option<char>,
    // The character that it is, or that it escapes.
    read: Option<char>,
    next: Reading,
}

fn octal_digit(c: char) -> Option<u8>
    ensures value { result ≡ digit_in 8 c }
    ensures bound { IfSome result (λ digit. digit < 8) }
{
    match c.to_digit(8) {
        None => None,
        Some(digit) => Some(digit as u8),
    }
}

// The character for which an escape of one letter stands (JLS 3.10.6).
#[tactic(auto, unfolding(crate::specs::Quoted::escaped))]
fn escaped(c: char) -> Option<char>
    ensures { result ≡ quoted.escaped c }
{
    match c {
        'b' => Some('\u{8}'),
        't' => Some('\t'),
        'n' => Some('\n'),
        'f' => Some('\u{c}'),
        'r' => Some('\r'),
        '"' => Some('"'),
        '\'' => Some('\''),
        '\\' => Some('\\'),
        _ => None,
    }
}

// A character where no escape is begun, behind the character of an escape that ends in front of it.
fn plain_step(quote: char, ended: Option<char>, c: char) -> Step
    ensures value { shown result ≡ quoted.plain_step quote (option_to_list ended) c }
    ensures fits { Fits result.next }
{
    if c == quote {
        return Step {
            ended,
            read: None,
            next: Reading::Closed,
        };
    }
    if c == '\\' {
        return Step {
            ended,
            read: None,
            next: Reading::Begun,
        };
    }
    Step {
        ended,
        read: Some(c),
        next: Reading::Plain,
    }
}

// A character behind a backslash.
fn escape_step(c: char) -> Option<Step>
    ensures value { option_map shown result ≡ quoted.escape_step c }
    ensures fits { IfSome result (λ step. Fits step.next) }
{
    if let Some(digit) = octal_digit(c) {
        return Some(Step {
            ended: None,
            read: None,
            next: Reading::Octal(digit, if digit < 4 { 2 } else { 1 }),
        });
    }
    let read = escaped(c)?;
    Some(Step {
        ended: None,
        read: Some(read),
        next: Reading::Plain,
    })
}

// A character in an octal escape.
fn octal_step(quote: char, code: u8, more: u8, c: char) -> Step
    requires { Fits (reading.Octal code more) }
    ensures value { shown result ≡ quoted.octal_step quote code more c }
    ensures fits { Fits result.next }
{
    if more > 0 {
        if let Some(digit) = octal_digit(c) {
            return Step {
                ended: None,
                read: None,
                next: Reading::Octal(code * 8 + digit, more - 1),
            };
        }
    }
    plain_step(quote, Some(code as char), c)
}

// What a character brings, or `None` where it may not stand.
fn read_step(quote: char, reading: Reading, c: char) -> Option<Step>
    requires { Fits reading }
    ensures value { option_map shown result ≡ quoted.read_step quote reading c }
    ensures fits { IfSome result (λ step. Fits step.next) }
{
    match reading {
        Reading::Plain => Some(plain_step(quote, None, c)),
        Reading::Begun => escape_step(c),
        Reading::Octal(code, more) => Some(octal_step(quote, code, more, c)),
        Reading::Closed => None,
    }
}

fn add(found: &mut List<char>, c: Option<char>) -> Result<(), NoMemory>
    ensures { OnOk result (found.new ≡ found.old ++ option_to_list c) }
{
    match c {
        None => Ok(()),
        Some(c) => found.push(c),
    }
}

/// The characters of a literal up to its closing quote, each for itself or by an escape; `None` where the
/// text doesn't end there.
pub(crate) fn unquoted(
    alloc: Global,
    quote: char,
    text: &str,
) -> Result<Option<List<char>>, NoMemory>
    ensures { IfOk result (λ found. found ≡ quoted.unquoted quote reading.Plain (chars text.now)) }
{
    let mut found = List::new(alloc);
    let mut reading = Reading::Plain;
    for c in text.chars() {
        let step = match read_step(quote, reading, c) {
            None => return Ok(None),
            Some(step) => step,
        };
        add(&mut found, step.ended)?;
        add(&mut found, step.read)?;
        reading = step.next;
    }
    match reading {
        Reading::Closed => Ok(Some(found)),
        _ => Ok(None),
    }
}

/// The character of a text that is one alone.
pub(crate) fn only_character(text: &[char]) -> Option<char>
    ensures { result ≡ quoted.only_character text.now }
{
    match text {
        [c] => Some(*c),
        _ => None,
    }
}
