// Where a character of a doc comment stands.

/// Where a character of a doc comment stands in its line.
#[derive(Clone, Copy, PartialEq, Eq)]
pub enum LinePlace {
    /// Nothing but white space is before it.
    Margin,
    /// Nothing but white space and then asterisks is before it.
    Asterisks,
    /// Behind that, or in the first line.
    Inside,
}
