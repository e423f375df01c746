// Names and paths as parts of a line.
use std::fmt;
use std::fmt::{Display, Formatter};

/// Bytes as a part of a line: text as it is, but for control characters and backslashes, which are escaped, as are
/// bytes that are no UTF-8 text. No bytes are shown as two quotation marks.
#[derive(Drop)]
pub struct Shown<'a>(pub &'a [u8]);

impl<'a> Display for Shown<'a> {
    fn fmt<W: fmt::Write>(&self, f: &mut Formatter<W>) -> fmt::Result {
        if self.0.is_empty() {
            return f.write_str("\"\"");
        }
        for chunk in self.0.utf8_chunks() {
            show_text(chunk.valid(), f)?;
            show_other_bytes(chunk.invalid(), f)?;
        }
        Ok(())
    }
}

fn show_text<W: fmt::Write>(text: &str, f: &mut Formatter<W>) -> fmt::Result {
    for character in text.chars() {
        if character == '\\' {
            f.write_str("\\\\")?;
        } else {
            show_character(character, f)?;
        }
    }
    Ok(())
}

/// Shows a character, a control character by its escape.
pub fn show_character<W: fmt::Write>(character: char, f: &mut Formatter<W>) -> fmt::Result {
    if character.is_control() {
        let escaped = character.escape_default();
        write!(f, "{escaped}")
    } else {
        f.write_char(character)
    }
}

/// Shows bytes that are no UTF-8 by their numbers.
pub fn show_other_bytes<W: fmt::Write>(bytes: &[u8], f: &mut Formatter<W>) -> fmt::Result {
    for byte in bytes {
        write!(f, "\\x{byte:02x}")?;
    }
    Ok(())
}
