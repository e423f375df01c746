// The answer to a unit that is to be entered.

/// Whether a unit may be entered into a table.
#[derive(Clone, Copy)]
pub(crate) enum Answer {
    /// It may, and the table then has this many types.
    IsNew(usize),
    /// Its name is in the table already.
    IsDuplicate,
    /// The types would be too many.
    IsTooMany,
}
