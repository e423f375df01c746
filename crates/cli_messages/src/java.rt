// What is said of a file that is no Java file of level 11.
use crate::positions::{Position, say_at};
use crate::shown::Shown;
use std::alloc::Global;
use std::io::Stderr;

/// Says what is wrong at this offset of a file: by the line there, or by the offset alone where there is no text, or a
/// shorter one.
pub fn say_java_fault(
    alloc: Global,
    messages: Stderr,
    path: &str,
    text: Option<&[u8]>,
    offset: usize,
) {
    match place_in(text, offset) {
        Some(position) => {
            let fault = fault_of(position.behind);
            say_at(alloc, messages, path, position, fault);
        }
        None => {
            let path = Shown(path.as_bytes());
            let _ = eprintln!(messages; "apt_cli: {path}: not Java of level 11 at offset {offset}");
        }
    }
}

fn place_in(text: Option<&[u8]>, offset: usize) -> Option<Position<'_>> {
    Position::at_offset(text?, offset)
}

/// What is wrong where this is the rest of the line; only at the end of the file it is empty.
fn fault_of(rest: &[u8]) -> &'static str {
    if rest.is_empty() {
        "the file ends too early"
    } else if begins_with_word(rest, b"record") {
        "records need level 17"
    } else if is_of_sealed(rest) {
        "sealed types need level 17"
    } else {
        "not Java of level 11"
    }
}

fn is_of_sealed(rest: &[u8]) -> bool {
    begins_with_word(rest, b"sealed")
        || begins_with_word(rest, b"non-sealed")
        || begins_with_word(rest, b"permits")
}

/// Whether a text begins with this word, and behind blanks with another.
fn begins_with_word(text: &[u8], word: &[u8]) -> bool {
    let Some(behind) = text.strip_prefix(word) else {
        return false;
    };
    let next = behind.trim_ascii_start();
    next.len() < behind.len() && next.first().is_some_and(|byte| byte.is_ascii_alphabetic())
}
