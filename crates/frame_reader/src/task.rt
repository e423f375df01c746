// What is still to come of a frame's fields: bytes that are being gathered, a list of texts, and tasks.
use crate::node::{Item, ListRule, Node};
use frame_forms::BadKind;

/// What is required of a text.
#[derive(Clone, Copy)]
pub enum TextRule {
    /// Nothing: it may be any bytes.
    Octets,
    /// It is in UTF-8.
    Plain,
    /// It is the next one of the list of texts that is being read.
    Listed,
}

/// What becomes of gathered bytes when the last one is there.
#[derive(Clone, Copy)]
pub enum Then {
    /// They are a number, and every number is allowed.
    Skip,
    /// They are the length of a text.
    Length(TextRule),
    /// They are a text.
    Text(TextRule),
    /// They are the count of a list of such things, with room for this many mirrors and values in each other.
    Count(Item, u16),
    /// They are the count of a list of texts.
    ListCount(ListRule),
}

/// Bytes that belong together, of which at least one is to come.
#[derive(Clone, Copy)]
pub struct Gather {
    /// The place of the first one.
    pub from: usize,
    /// How many bytes follow the next one.
    pub more: u32,
    /// What becomes of them.
    pub then: Then,
}

/// What is to come, from a byte on that stands alone.
#[derive(Clone, Copy)]
pub enum Task {
    /// A field, with room for this many mirrors and values in each other.
    Field(Node, u16),
    /// One thing and this many more, each with room for this many mirrors and values in each other.
    Items(Item, u16, u32),
}

/// A list of texts of which more is asked than UTF-8.
#[derive(Clone, Copy)]
pub struct TextList {
    /// What is asked.
    pub rule: ListRule,
    /// Whether the value of the last text comes before the next one.
    pub value_next: bool,
    /// How many texts follow: after the next text, or after the value of the last text.
    pub more: u32,
}

/// What follows the first byte of a node.
#[derive(Clone, Copy)]
pub struct Begun {
    /// What the byte is the first one of, and how many are to come behind the next one.
    pub gather: Option<(u32, Then)>,
    /// The fields that come next.
    pub inner: &'static [Node],
    /// Their room.
    pub room: u16,
    /// What comes behind them, with the room of the node.
    pub behind: Option<Node>,
}

/// What a byte comes to.
#[derive(Clone, Copy)]
pub enum Taken {
    /// It is one of the fields' bytes.
    On,
    /// It stands behind the last field.
    Behind,
    /// It is bad.
    Bad(BadKind),
}
