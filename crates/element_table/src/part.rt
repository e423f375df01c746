// The parts of a table.

/// The two parts of a type table.
#[derive(Clone, Copy, PartialEq, Eq)]
pub enum Part {
    /// The units of the project, initial ones and created ones.
    Source,
    /// The units of the stubs: declarations from elsewhere.
    Stub,
}
