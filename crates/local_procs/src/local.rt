// The processors by their names.

/// A processor that the program has itself.
#[derive(Clone, Copy, Debug, PartialEq, Eq)]
pub enum Local {
    /// Creates a builder for each class that asks for one; isolating.
    Builder,
    /// Checks names and documentation comments; isolating.
    Checker,
    /// Creates a class for a class, as often as it says; isolating.
    Chain,
    /// Lists the types that are registered, in one file; aggregating.
    Registry,
}
