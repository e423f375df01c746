// The nodes of the grammar of frames, and which of them a byte chooses: the fields of a tag, of a mirror, of a value.

/// What may stand alone, in a list, or where there is none or one.
#[derive(Clone, Copy)]
pub enum Item {
    /// A text in UTF-8.
    Text,
    /// A number of two bytes.
    Number,
    /// An element: its unit, and the steps down to it.
    Element,
    /// A type mirror.
    Mirror,
    /// A value of an annotation.
    Value,
    /// A named value of an annotation.
    NamedValue,
    /// A text and a value, which are spelled as a named value is.
    TextAndValue,
    /// An annotation: its type, and the values by their names.
    Annotation,
}

/// What a list of texts asks of them beside UTF-8.
#[derive(Clone, Copy)]
pub enum ListRule {
    /// No text stands there twice.
    DistinctTexts,
    /// No text stands there twice, and each is a pattern.
    DistinctPatterns,
    /// Each text is greater than the one before it.
    AscendingTexts,
    /// The same, and each has a text as its value behind it.
    AscendingOptions,
}

/// A form of the grammar of frames, by what its first byte is.
#[derive(Clone, Copy)]
pub enum Node {
    /// One byte below a bound.
    Below(u8),
    /// One byte, which is this one.
    Exactly(u8),
    /// One byte, 0 or 1.
    Truth,
    /// One byte, the number of a claim.
    Claim,
    /// One byte, the number of a primitive type.
    PrimitiveKind,
    /// One byte, 3 for an int and 4 for a long.
    WholeKind,
    /// A number of four bytes.
    Four,
    /// A number of eight bytes.
    Eight,
    /// A length, and that many bytes of any kind.
    Octets,
    /// One thing.
    One(Item),
    /// 0, or 1 and one thing.
    Maybe(Item),
    /// A count, and that many things.
    Many(Item),
    /// A count, and that many texts of which more is asked.
    Texts(ListRule),
    /// How a wildcard is bounded, and its bound.
    Bound,
    /// A tag and its fields.
    Tagged,
}

/// The tags of frames that are no questions, each with its fields in order.
pub const TAGS: [(u8, &[Node]); 18] = [
    (
        1,
        &[
            Node::One(Item::Text),
            Node::One(Item::Number),
            Node::Texts(ListRule::AscendingOptions),
        ],
    ),
    (
        2,
        &[
            Node::Four,
            Node::Truth,
            Node::Truth,
            Node::Texts(ListRule::AscendingTexts),
            Node::Texts(ListRule::AscendingTexts),
        ],
    ),
    (16, &[Node::Many(Item::Element)]),
    (
        17,
        &[
            Node::Below(11),
            Node::One(Item::Number),
            Node::One(Item::Text),
            Node::One(Item::Text),
            Node::Truth,
        ],
    ),
    (18, &[Node::Many(Item::Text)]),
    (19, &[Node::Many(Item::Annotation)]),
    (20, &[Node::Many(Item::TextAndValue)]),
    (21, &[Node::Many(Item::Mirror)]),
    (22, &[Node::Truth]),
    (23, &[Node::Below(5)]),
    (24, &[]),
    (25, &[Node::Below(4)]),
    (
        64,
        &[
            Node::Texts(ListRule::DistinctPatterns),
            Node::Texts(ListRule::DistinctTexts),
            Node::Claim,
        ],
    ),
    (65, &[Node::Truth]),
    (
        66,
        &[
            Node::One(Item::Text),
            Node::Octets,
            Node::Many(Item::Element),
        ],
    ),
    (
        67,
        &[
            Node::Below(3),
            Node::One(Item::Text),
            Node::One(Item::Text),
            Node::Octets,
            Node::Many(Item::Element),
        ],
    ),
    (
        68,
        &[
            Node::One(Item::Text),
            Node::Octets,
            Node::Many(Item::Element),
        ],
    ),
    (
        69,
        &[
            Node::Below(5),
            Node::Maybe(Item::Element),
            Node::One(Item::Text),
        ],
    ),
];

/// The fields of each mirror, by its number.
pub const MIRRORS: [&[Node]; 11] = [
    &[Node::PrimitiveKind],
    &[
        Node::One(Item::Element),
        Node::Maybe(Item::Mirror),
        Node::Many(Item::Mirror),
    ],
    &[Node::One(Item::Text)],
    &[Node::One(Item::Element)],
    &[Node::One(Item::Mirror)],
    &[Node::Bound],
    &[
        Node::Many(Item::Element),
        Node::Many(Item::Mirror),
        Node::One(Item::Mirror),
        Node::Many(Item::Mirror),
    ],
    &[],
    &[],
    &[],
    &[Node::One(Item::Text)],
];

/// The fields of each value of an annotation, by its number.
pub const VALUES: [&[Node]; 10] = [
    &[Node::Truth],
    &[Node::WholeKind, Node::Eight],
    &[Node::Four],
    &[Node::One(Item::Text)],
    &[Node::One(Item::Mirror)],
    &[Node::One(Item::Element)],
    &[Node::Many(Item::Value)],
    &[Node::One(Item::Annotation)],
    &[Node::One(Item::Text)],
    &[Node::One(Item::Text)],
];

/// The fields of a wildcard behind the number of how it is bounded: 0 and nothing, or 1 and the bound.
pub const BOUNDS: [&[Node]; 3] = [
    &[Node::Exactly(0)],
    &[Node::Exactly(1), Node::One(Item::Mirror)],
    &[Node::Exactly(1), Node::One(Item::Mirror)],
];
