// The results of walks over types and their members.
use decl_grammar::Symbol;

/// The result of a walk over a type.
#[derive(Clone, Copy)]
pub enum Walk<'a, 's> {
    /// A child list is too long.
    Full,
    /// The symbols end within the type, or are faulty there.
    Ended,
    /// These symbols stand behind it.
    Behind(&'s [Symbol<'a>]),
}

/// The members that were walked over: how many, whether a constructor is among them, and the symbols after them.
#[derive(Clone, Copy)]
pub struct Passed<'a, 's> {
    pub count: usize,
    pub constructor: bool,
    pub rest: &'s [Symbol<'a>],
}

/// The result of a walk over one member.
#[derive(Clone, Copy)]
pub enum Step<'a, 's> {
    /// A child list is too long.
    Full,
    /// The symbols end within the member, or are faulty there.
    Ended,
    /// It is this.
    Behind(Passed<'a, 's>),
}
