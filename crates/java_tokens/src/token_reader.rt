// Reads the tokens of a file one after another.
ghost use Rattle.std.specs.Prelude.{[], ◌∷◌, ◌≡◌, take, bytes_eq, MatchBool};
ghost use Rattle.std.specs.Str.{chars as codes_of};
ghost use Rattle.java_tokens.specs.Tokens.{IsEnd};
ghost use Rattle.java_tokens.specs.Tokens as spec;
ghost use Rattle.java_tokens.specs.TokensShown.{shown_doc, later_doc};
ghost use Rattle.java_tokens.specs.TokenReading.{HasRead, HasBegun, ReadsNext};

use crate::fronts::{begins, next_front};
use crate::place::{Place, offset_at, place_after};
use crate::words::{operator_table, word_table};
use crate::{Chars, TextFault, Token};
use case_table::Cases;

/// Reads the tokens of a file one after another, so that no more than one of them is held at a time.
#[derive(Drop)]
pub struct TokenReader<'a> {
    /// The characters of the file.
    pub chars: &'a Chars,
    /// The reserved words.
    pub words: Cases<'static>,
    /// The separators and operators.
    pub operators: Cases<'static>,
    /// The characters behind the last token that was read.
    pub rest: &'a str,
    /// Where they begin.
    pub place: Place,
}

impl<'a> TokenReader<'a> {
    /// A reader before the first token of these characters. It takes no memory.
    pub fn new(chars: &'a Chars) -> TokenReader<'a>
        ensures { HasRead chars.now [] result }
    {
        TokenReader {
            chars,
            words: word_table(),
            operators: operator_table(),
            rest: chars.as_str(),
            place: Place {
                width: 0,
                line: 1,
                after_return: false,
            },
        }
    }

    /// The next token; None where there is no further one and the file ends; or `Bad` with the offset in the file of the first
    /// token or separator at which no list of tokens goes on. Behind the last two the reader stays where it is. It takes no memory.
    pub fn next(&mut self) -> Result<Option<Token<'a>>, TextFault>
        requires { HasBegun self.old }
        ensures { ReadsNext self.old self.new result }
    {
        let mut rest = self.rest;
        let mut place = self.place;
        let mut doc = None;
        'separators: while !is_end(rest) {
            if begins_with_blank(rest) {
                let (blank, after) = rest.split_at(1);
                place = place_after(place, blank);
                rest = after;
                continue;
            }
            let Some(front) = next_front(&self.words, &self.operators, rest) else {
                let start = offset_at(self.chars, place.width);
                return Err(TextFault::Bad { place: start });
            };
            let (text, after) = rest.split_at(front.width);
            if let Some(kind) = front.kind {
                let start = offset_at(self.chars, place.width);
                let line = place.line;
                self.rest = after;
                self.place = place_after(place, text);
                return Ok(Some(Token {
                    kind,
                    start,
                    line,
                    text,
                    doc,
                }));
            }
            doc = doc_after(doc, text);
            place = place_after(place, text);
            rest = after;
        }
        Ok(None)
    }
}

// Nothing is left but a SUB character.
fn is_end(rest: &str) -> bool
    ensures { MatchBool result (IsEnd (codes_of rest.now)) (¬ IsEnd (codes_of rest.now)) }
{
    rest.is_empty() || rest == "\u{1A}"
}

// A text begins with a blank, which separates by itself: no longer separator or token does.
fn begins_with_blank(text: &str) -> bool
    ensures { result ≡ bytes_eq (take 1 text.now) (32 ∷ []) }
{
    match text.as_bytes() {
        [byte, ..] => *byte == b' ',
        [] => false,
    }
}

// The last doc comment behind a separator.
fn doc_after<'a>(doc: Option<&'a str>, text: &'a str) -> Option<&'a str>
    ensures { shown_doc result ≡ later_doc text.now (shown_doc doc.entry) }
{
    if is_doc(text) { Some(text) } else { doc }
}

// A separator is a doc comment.
fn is_doc(text: &str) -> bool
    ensures { result ≡ spec.is_doc (codes_of text.now) }
{
    if text == "/**/" {
        return false;
    }
    begins(text.as_bytes(), b"/**")
}
