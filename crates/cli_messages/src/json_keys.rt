// The keys in a JSON text, for the places of its items.

/// What a text of JSON is behind some of its bytes.
#[derive(Clone, Copy)]
enum Inside {
    /// Between texts.
    Nothing,
    /// Within a text.
    Text,
    /// Within a text, behind the backslash of an escape.
    Escape,
}

/// Goes through the bytes of a JSON text, and finds its keys.
#[derive(Drop)]
pub struct Keys {
    /// How many objects and arrays the bytes so far have open.
    pub depth: usize,
    /// The offset of the quotation mark in front of the last text.
    pub start: usize,
    /// The offset of the one behind it.
    end: usize,
    inside: Inside,
}

impl Keys {
    /// Before the first byte.
    pub fn new() -> Self {
        Keys {
            depth: 0,
            start: 0,
            end: 0,
            inside: Inside::Nothing,
        }
    }

    /// Takes the byte that has this offset, and gives whether it is the colon behind a key, which is the last text.
    pub fn take(&mut self, offset: usize, byte: u8) -> bool {
        match self.inside {
            Inside::Nothing => self.take_between(offset, byte),
            Inside::Text => {
                self.take_within(offset, byte);
                false
            }
            Inside::Escape => {
                self.inside = Inside::Text;
                false
            }
        }
    }

    /// What stands between the quotation marks of the last text.
    pub fn last_text<'a>(&self, json: &'a [u8]) -> &'a [u8] {
        json.get(self.start.saturating_add(1)..self.end)
            .unwrap_or(b"")
    }

    fn take_between(&mut self, offset: usize, byte: u8) -> bool {
        match byte {
            b'"' => {
                self.inside = Inside::Text;
                self.start = offset;
            }
            b'{' | b'[' => self.depth = self.depth.saturating_add(1),
            b'}' | b']' => self.depth = self.depth.saturating_sub(1),
            _ => {}
        }
        byte == b':'
    }

    fn take_within(&mut self, offset: usize, byte: u8) {
        if byte == b'\\' {
            self.inside = Inside::Escape;
        } else if byte == b'"' {
            self.inside = Inside::Nothing;
            self.end = offset;
        }
    }
}

/// The offset of the key of an item, by its place, as `/processors/NAME/command`, or else of the innermost one around
/// it that is there. A key that is written with an escape is not found.
pub fn offset_of_item(json: &[u8], place: &str) -> Option<usize> {
    let mut keys = Keys::new();
    // how many of the names of the place lead to where the bytes are
    let mut led = 0usize;
    let mut found = None;
    for (offset, byte) in json.iter().enumerate() {
        if keys.take(offset, *byte) && keys.depth <= led.saturating_add(1) {
            if is_name_at(place, keys.depth, keys.last_text(json)) {
                led = keys.depth;
                found = Some(keys.start);
            } else {
                led = keys.depth.saturating_sub(1);
            }
        }
    }
    found
}

/// Whether the name of a place at this depth is this key.
fn is_name_at(place: &str, depth: usize, key: &[u8]) -> bool {
    match place.split('/').nth(depth) {
        Some(name) => name.as_bytes() == key,
        None => false,
    }
}
