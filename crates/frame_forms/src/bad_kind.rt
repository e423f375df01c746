// What is wrong with the first bad byte of a frame.

/// What is wrong with the first bad byte of a frame. Where two kinds fit, the first one counts, but for a frame that ends before its fields do: there the last byte is a bad field if it is nothing else.
#[derive(Clone, Copy, Debug, PartialEq, Eq)]
pub enum BadKind {
    /// The fourth byte of a length that is not from 1 to 134,217,724.
    Length,
    /// A tag that no frame has.
    Tag,
    /// A byte that the form of its field does not have there, or the last byte of a frame that ends before its fields do.
    Field,
    /// The last byte of a supported name of Hello that is no pattern.
    Pattern,
    /// A byte of the frame behind its last field.
    Rest,
}
