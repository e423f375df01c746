// The lines of a text file of the configuration, and what they say.
ghost use Rattle.std.specs.Prelude.{◌≡◌, ◌==◌, [], ◌∷◌, ◌+◌, ◌<◌, ◌≤◌, ◌^◌, length, true, IfSome, IfNone, Some, None, position};
ghost use Rattle.std.specs.Option.{option_map};
ghost use Rattle.std.specs.List.{position_or_len, before_first, after_first};
ghost use Rattle.processor_claims.specs.Lines.{is_line_end, is_blank, lines, lines_after, lines_behind, trimmed_front, trimmed_end, trimmed, content, said, SaysFirst, name_in};

use apt_base::is_dotted;

/// What a line says, and where it stands.
#[derive(Clone, Copy)]
pub(crate) struct Said<'a> {
    /// The number of the line.
    pub number: u32,
    /// What stands before its comment, without the blanks around it. It is not empty.
    pub text: &'a [u8],
    /// The text behind the line.
    pub rest: &'a [u8],
}

fn is_line_end(byte: u8) -> bool
    ensures { result ≡ is_line_end byte }
{
    byte == b'\n' || byte == b'\r'
}

fn is_blank(byte: u8) -> bool
    ensures { result ≡ is_blank byte }
{
    byte == b'\t' || byte == b' '
}

fn first_line_end(text: &[u8]) -> Option<usize>
    ensures { result ≡ position is_line_end text.now }
{
    text.iter().position(|byte| is_line_end(*byte))
}

// The length of the first line.
fn line_len(text: &[u8]) -> usize
    ensures { result ≡ position_or_len is_line_end text.now }
{
    match first_line_end(text) {
        None => text.len(),
        Some(end) => end,
    }
}

// The text behind a CR, without a LF at its front.
fn behind_carriage_return(text: &[u8]) -> &[u8]
    ensures lines { lines result.now ≡ lines_behind true text.now }
    ensures no_longer { length result.now ≤ length text.now }
{
    match text.split_first() {
        None => text,
        Some((first, rest)) => { if *first == b'\n' { rest } else { text } }
    }
}

// The text behind the line end at its front.
fn behind_line_end(text: &[u8]) -> &[u8]
    ensures lines { lines result.now ≡ lines_after text.now }
    ensures no_longer { length result.now ≤ length text.now }
    ensures shorter { 0 < length text.now → length result.now < length text.now }
{
    match text.split_first() {
        None => text,
        Some((first, rest)) => {
            if *first == b'\r' {
                behind_carriage_return(rest)
            } else {
                rest
            }
        }
    }
}

// The first line and what stands behind it.
fn split_line(text: &[u8]) -> (&[u8], &[u8])
    requires { 0 < length text.now }
    ensures lines { lines text.now ≡ result.0.now ∷ lines result.1.now }
    ensures shorter { length result.1.now < length text.now }
{
    let (line, rest) = text.split_at(line_len(text));
    (line, behind_line_end(rest))
}

fn without_blanks_in_front(text: &[u8]) -> &[u8]
    ensures { result.now ≡ trimmed_front text.now }
{
    let mut rest = text;
    while let Some((first, after)) = rest.split_first() {
        if !is_blank(*first) {
            return rest;
        }
        rest = after;
    }
    rest
}

fn without_blanks_at_the_end(text: &[u8]) -> &[u8]
    ensures { result.now ≡ trimmed_end text.now }
{
    let mut rest = text;
    while let Some((last, before)) = rest.split_last() {
        if !is_blank(*last) {
            return rest;
        }
        rest = before;
    }
    rest
}

/// A text without the spaces and tabs around it.
pub(crate) fn without_blanks(text: &[u8]) -> &[u8]
    ensures { result.now ≡ trimmed text.now }
{
    without_blanks_at_the_end(without_blanks_in_front(text))
}

fn first_place(text: &[u8], byte: u8) -> Option<usize>
    ensures { result ≡ position (λ c. c == byte) text.now }
{
    text.iter().position(|each| *each == byte)
}

/// What stands before the first byte of this value, and behind it: all and nothing where there is none.
pub(crate) fn split_byte(text: &[u8], byte: u8) -> (&[u8], &[u8])
    ensures before { result.0.now ≡ before_first (λ c. c == byte) text.now }
    ensures behind { result.1.now ≡ after_first (λ c. c == byte) text.now }
{
    match first_place(text, byte) {
        None => (text, &[]),
        Some(at) => (&text[..at], &text[at + 1..]),
    }
}

#[tactic(auto, unfolding(crate::specs::Lines::content))]
fn content(line: &[u8]) -> &[u8]
    ensures { result.now ≡ content line.now }
{
    without_blanks(split_byte(line, b'#').0)
}

/// What the first line says that says something, where the first line of the text has this number.
pub(crate) fn next_said(text: &[u8], number: u32) -> Option<Said<'_>>
    requires { number + length text.now < 2 ^ 32 }
    ensures none { IfNone result (said number (lines text.now) ≡ []) }
    ensures some { IfSome result (λ it. SaysFirst number text.now it.number it.text.now it.rest.now) }
    ensures numbers { IfSome result (λ it. it.number + 1 + length it.rest.now ≤ number + length text.now) }
    ensures shorter { IfSome result (λ it. length it.rest.now < length text.now) }
{
    let mut at = number;
    let mut rest = text;
    while !rest.is_empty() {
        let (line, after) = split_line(rest);
        let said = content(line);
        if !said.is_empty() {
            return Some(Said {
                number: at,
                text: said,
                rest: after,
            });
        }
        at += 1;
        rest = after;
    }
    None
}

/// The name that a text is: identifiers joined by dots, in UTF-8.
pub(crate) fn name_in(text: &[u8]) -> Option<&str>
    ensures { option_map (λ name. name.now) result ≡ name_in text.now }
{
    match str::from_utf8(text) {
        Err(_) => None,
        Ok(name) => { if is_dotted(name) { Some(name) } else { None } }
    }
}
