// How far a reader of an expression has come.
use decl_grammar::Symbol;
use decl_turns::{Before, Leave};

/// A place in an expression.
#[derive(Clone, Copy)]
pub struct Row<'a, 's> {
    pub leave: Leave,
    pub before: Before,
    /// What is left of the symbols.
    pub rest: &'s [Symbol<'a>],
    /// How many symbols are left at the furthest place where a reading as a type failed.
    pub far: Option<usize>,
}

/// The end of an expression or of a value.
#[derive(Clone, Copy)]
pub struct End<'a, 's> {
    /// What is left of the symbols.
    pub rest: &'s [Symbol<'a>],
    /// How many symbols are left at the furthest place where a reading as a type failed.
    pub far: Option<usize>,
}
