// The texts of doc comments.
ghost use Rattle.std.specs.Prelude.{◌≡◌, ◌++◌, [], ◌∷◌, if◌then◌else◌, false, List, IfOk, MatchResult, string_bytes};
ghost use Rattle.std.specs.Option.{option_to_list};
ghost use Rattle.std.specs.Str.{chars, encode_utf8_all as encoded};
ghost use Rattle.decl_grammar.specs.declared.line_place.LinePlace.TheVariants.{Inside};
ghost use Rattle.decl_grammar.specs.declared.fault.ReadFault.TheVariants as faults;
ghost use Rattle.decl_grammar.specs.Docs.{is_blank, line_fed, with_line_feeds as line_feeds, place_after, kept_at, kept_bytes, unmargined, unmarked, doc_text};
ghost use Rattle.decl_grammar.specs.Grammar.{doc_of, first_doc};

use apt_base::{Name, NoMemory};
use decl_grammar::{LinePlace, ReadFault, Symbol};
use std::alloc::Global;

// Whether a character is white space within a line (JLS 3.6).
fn is_blank_char(c: char) -> bool
    ensures { result ≡ is_blank c }
{
    c == ' ' || c == '\t' || c == '\x0c'
}

// The character that stands for this one where line ends are LF, if one does.
fn line_fed_char(after_return: bool, c: char) -> Option<char>
    ensures { option_to_list result ≡ line_fed after_return c }
{
    if c == '\r' {
        return Some('\n');
    }
    if after_return && c == '\n' {
        return None;
    }
    Some(c)
}

// Where the character behind this one stands in its line.
fn next_place(place: LinePlace, c: char) -> LinePlace
    ensures { result ≡ place_after place c }
{
    if c == '\n' {
        return LinePlace::Margin;
    }
    match place {
        LinePlace::Inside => LinePlace::Inside,
        LinePlace::Asterisks => {
            if c == '*' {
                return LinePlace::Asterisks;
            }
            LinePlace::Inside
        }
        LinePlace::Margin => {
            if is_blank_char(c) {
                return LinePlace::Margin;
            }
            if c == '*' {
                return LinePlace::Asterisks;
            }
            LinePlace::Inside
        }
    }
}

// Whether a character at this place is kept.
fn is_kept(place: LinePlace, c: char) -> bool
    ensures { (if result then c ∷ [] else []) ≡ kept_at place c }
{
    match place {
        LinePlace::Inside => true,
        LinePlace::Asterisks => c != '*',
        LinePlace::Margin => {
            if is_blank_char(c) {
                return false;
            }
            c != '*'
        }
    }
}

// Puts a character behind a text, where it is kept.
fn add_kept(all: &mut String, place: LinePlace, c: char) -> Result<(), NoMemory>
    ensures { IfOk result (λ u. string_bytes all.new ≡ string_bytes all.old ++ kept_bytes place c) }
{
    if is_kept(place, c) {
        all.push(c)?;
        return Ok(());
    }
    Ok(())
}

// What is kept of a text once its line ends are LF.
fn unmargined_of(alloc: Global, text: &[char]) -> Result<String, NoMemory>
    ensures { IfOk result (λ t. string_bytes t ≡ encoded (unmargined Inside (line_feeds false text.now))) }
{
    let mut all = String::with_capacity(alloc, text.len())?;
    let mut place = LinePlace::Inside;
    let mut after_return = false;
    let mut rest = text;
    'row: while let [c, after @ ..] = rest {
        if let Some(fed) = line_fed_char(after_return, *c) {
            add_kept(&mut all, place, fed)?;
            place = next_place(place, fed);
        }
        after_return = *c == '\r';
        rest = after;
    }
    Ok(all)
}

// What stands between the markers.
fn unmarked_of(text: &[char]) -> &[char]
    ensures { result.now ≡ unmarked text.now }
{
    if text.len() < 5 {
        return &[];
    }
    &text[3..text.len() - 2]
}

// The characters of a text.
fn chars_of(alloc: Global, text: &str) -> Result<Vec<char>, NoMemory>
    ensures { IfOk result (λ v. v.items ≡ chars text.now) }
{
    Ok(text.chars().collect(alloc)?)
}

// The text of a doc comment with its markers.
fn text_of(alloc: Global, comment: &str) -> Result<Name, NoMemory>
    ensures { IfOk result (λ text. text ≡ doc_text comment.now) }
{
    let all = chars_of(alloc, comment)?;
    let text = unmargined_of(alloc, unmarked_of(all.as_slice()))?;
    Ok(Name::from_string(alloc, text))
}

/// The text of the doc comment before the first of some symbols, where there is one.
pub fn doc_before<'a>(alloc: Global, symbols: &[Symbol<'a>]) -> Result<Option<Name>, ReadFault>
    ensures { MatchResult result (λ doc. doc ≡ doc_of (first_doc symbols.now)) (λ e. e ≡ faults.Memory) }
{
    match symbols {
        [] => Ok(None),
        [symbol, ..] => match &symbol.doc {
            None => Ok(None),
            Some(comment) => match text_of(alloc, comment.as_str()) {
                Ok(text) => Ok(Some(text)),
                Err(_) => Err(ReadFault::Memory),
            },
        },
    }
}
