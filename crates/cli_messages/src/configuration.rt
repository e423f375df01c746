// What is said of the files of the configuration.
use crate::json_keys::{Keys, offset_of_item};
use crate::positions::{Position, say_at};
use crate::shown::Shown;
use serde_json::Value;
use std::alloc::Global;
use std::io::Stderr;

/// How many of the items that no build reads are said.
const MOST_OTHERS: usize = 8;

/// Says which items of `apt.json` are none of those that a build reads, the first eight of them.
pub fn say_other_items(alloc: Global, messages: Stderr, path: &str, json: &[u8]) {
    let mut keys = Keys::new();
    let mut said = 0usize;
    for (offset, byte) in json.iter().enumerate() {
        if keys.take(offset, *byte)
            && keys.depth == 1
            && said < MOST_OTHERS
            && is_other(keys.last_text(json))
        {
            said = said.saturating_add(1);
            say_other_item(alloc, messages, path, json, &keys);
        }
    }
}

/// Whether a key of `apt.json` is none of its items. One that is written with an escape is not looked at.
fn is_other(key: &[u8]) -> bool {
    let is_read = matches!(key, b"level" | b"order" | b"options" | b"processors");
    !is_read && !key.contains(&b'\\')
}

fn say_other_item(alloc: Global, messages: Stderr, path: &str, json: &[u8], keys: &Keys) {
    let key = Shown(keys.last_text(json));
    if let Some(position) = Position::at_offset(json, keys.start) {
        say_at(
            alloc,
            messages,
            path,
            position,
            format_args!(
                "{key} is none of level, order, options and processors, and is passed over"
            ),
        );
    }
}

/// Says where `apt.json` is no JSON object.
pub fn say_no_object(alloc: Global, messages: Stderr, path: &str, json: &[u8]) {
    let (offset, text) = match Value::from_slice(alloc, json) {
        Ok(_) => (0, "not a JSON object"),
        Err(error) if error.is_memory() => return,
        Err(error) if error.is_eof() => (json.len(), "the JSON text ends too early"),
        Err(error) => (offset_of(json, error.line(), error.column()), "not JSON"),
    };
    if let Some(position) = Position::at_offset(json, offset) {
        say_at(alloc, messages, path, position, text);
    }
}

/// The offset of a column of a line, both from 1, where LF alone ends a line and a column is a byte.
fn offset_of(text: &[u8], line: usize, column: usize) -> usize {
    let mut start = 0usize;
    for each in text
        .split(|byte| *byte == b'\n')
        .take(line.saturating_sub(1))
    {
        start = start.saturating_add(each.len()).saturating_add(1);
    }
    start.saturating_add(column.saturating_sub(1))
}

/// Says what an item of `apt.json` has to be, by its place.
pub fn say_item(alloc: Global, messages: Stderr, path: &str, json: &[u8], place: &str) {
    let offset = offset_of_item(json, place).unwrap_or(0);
    let form = form_of(place);
    let shown = Shown(place.as_bytes());
    if let Some(position) = Position::at_offset(json, offset) {
        say_at(
            alloc,
            messages,
            path,
            position,
            format_args!("{shown} has to be {form}"),
        );
    }
}

/// What the item at a place has to be.
fn form_of(place: &str) -> &'static str {
    if place == "/level" {
        "11"
    } else if place == "/order" {
        "a list of class names without repeats"
    } else if place == "/options" {
        "an object of texts"
    } else if place == "/processors" {
        "an object with a row for each processor"
    } else if place.ends_with("/command") {
        "a list of one or more texts"
    } else if place.ends_with("/version") {
        "a text"
    } else {
        "an object with a command and a version"
    }
}

/// Says what a line of another file of the configuration has to be, by its number.
pub fn say_line(alloc: Global, messages: Stderr, path: &str, text: &[u8], line: u32) {
    if let Some(position) = Position::at_line(text, line) {
        say_at(alloc, messages, path, position, line_form(path));
    }
}

/// What each line of a file of the configuration has to be.
fn line_form(path: &str) -> &'static str {
    if path.ends_with("incremental.annotation.processors") {
        "not the name of a processor, a comma, and isolating, aggregating or dynamic"
    } else {
        "not the name of a processor"
    }
}
