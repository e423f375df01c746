// Places of a text, and how one is said: its line, its column, and a caret under it.
use crate::shown::{Shown, show_character, show_other_bytes};
use std::alloc::{AllocError, Global};
use std::fmt;
use std::fmt::{Display, Formatter};
use std::io::Stderr;

/// How many bytes of a line are shown before a place, and how many characters from there on.
const SIDE: usize = 80;

/// A place of a text.
#[derive(Clone, Copy)]
pub struct Position<'a> {
    /// The number of its line, from 1.
    line: usize,
    /// The line up to the place.
    before: &'a [u8],
    /// The line from the place on.
    pub behind: &'a [u8],
}

impl<'a> Position<'a> {
    /// The place of an offset; None where the text is shorter.
    pub fn at_offset(text: &'a [u8], offset: usize) -> Option<Self> {
        let (front, rest) = text.split_at_checked(offset)?;
        let mut line = 1usize;
        let mut before = front;
        for _ in 0..offset {
            let Some(after) = after_line(before) else {
                break;
            };
            before = after;
            line = line.saturating_add(1);
        }
        Some(Position {
            line,
            before,
            behind: first_line(rest),
        })
    }

    /// The place where a line begins, by its number; None where the text has no such line.
    pub fn at_line(text: &'a [u8], line: u32) -> Option<Self> {
        let mut rest = text;
        for _ in 1..line {
            rest = after_line(rest)?;
        }
        Some(Position {
            line: line as usize,
            before: b"",
            behind: first_line(rest),
        })
    }

    /// The number of its column, from 1, in characters.
    fn column(&self) -> usize {
        let mut column = 1usize;
        for byte in self.before {
            if !continues_character(*byte) {
                column = column.saturating_add(1);
            }
        }
        column
    }
}

/// The length of the first line of a text, without its end: LF, CR or CR LF.
fn line_length(text: &[u8]) -> Option<usize> {
    text.iter()
        .position(|byte| *byte == b'\n' || *byte == b'\r')
}

/// The first line of a text, without its end.
fn first_line(text: &[u8]) -> &[u8] {
    match line_length(text) {
        Some(length) => text.get(..length).unwrap_or(text),
        None => text,
    }
}

/// What stands behind the first line of a text and its end; None where no line ends.
fn after_line(text: &[u8]) -> Option<&[u8]> {
    let end = text.get(line_length(text)?..)?;
    match end.strip_prefix(b"\r\n") {
        Some(after) => Some(after),
        None => end.get(1..),
    }
}

/// Whether a byte of UTF-8 is one of a character, and not its first.
fn continues_character(byte: u8) -> bool {
    byte & 0b1100_0000 == 0b1000_0000
}

/// How many bytes in front are the rest of a character.
fn rest_of_character(bytes: &[u8]) -> usize {
    let mut count = 0usize;
    for byte in bytes {
        if !continues_character(*byte) {
            break;
        }
        count = count.saturating_add(1);
    }
    count
}

/// The end of a line, from the beginning of a character.
fn end_of(line: &[u8]) -> &[u8] {
    let start = line.len().saturating_sub(SIDE);
    let end = line.get(start..).unwrap_or(line);
    end.get(rest_of_character(end)..).unwrap_or(end)
}

/// The front of a line, up to the end of a character.
fn front_of(line: &[u8]) -> &[u8] {
    let behind = line.get(SIDE..).unwrap_or(b"");
    let length = SIDE.saturating_add(rest_of_character(behind));
    line.get(..length).unwrap_or(line)
}

fn without_tab(character: char) -> char {
    if character == '\t' { ' ' } else { character }
}

/// A part of a line as it is shown: a tab as a blank, another control character by its escape, and a byte that is no
/// UTF-8 by its number.
#[derive(Drop)]
struct Excerpt<'a>(&'a [u8]);

impl<'a> Display for Excerpt<'a> {
    fn fmt<W: fmt::Write>(&self, f: &mut Formatter<W>) -> fmt::Result {
        for chunk in self.0.utf8_chunks() {
            for character in chunk.valid().chars() {
                show_character(without_tab(character), f)?;
            }
            show_other_bytes(chunk.invalid(), f)?;
        }
        Ok(())
    }
}

/// That many blanks.
#[derive(Drop)]
struct Blanks(usize);

impl Display for Blanks {
    fn fmt<W: fmt::Write>(&self, f: &mut Formatter<W>) -> fmt::Result {
        for _ in 0..self.0 {
            f.write_char(' ')?;
        }
        Ok(())
    }
}

/// Says a place of a file and what is there, and shows the line with a caret under the place.
pub fn say_at<D: Display + Drop>(
    alloc: Global,
    messages: Stderr,
    path: &str,
    position: Position<'_>,
    text: D,
) {
    let path = Shown(path.as_bytes());
    let line = position.line;
    let column = position.column();
    let _ = eprintln!(messages; "{path}:{line}:{column}: {text}");
    if !position.before.is_empty() || !position.behind.is_empty() {
        let _ = show_line(alloc, messages, position);
    }
}

fn show_line(alloc: Global, messages: Stderr, position: Position<'_>) -> Result<(), AllocError> {
    let before = format!(in alloc; "{}", Excerpt(end_of(position.before)))?;
    let behind = Excerpt(front_of(position.behind));
    let blanks = Blanks(before.chars().count());
    let _ = eprintln!(messages; "  {before}{behind}");
    let _ = eprintln!(messages; "  {blanks}^");
    Ok(())
}
