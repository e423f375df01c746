// The places in a walk over the fields of a declaration, and the result of one step.
ghost use Rattle.decl_crossings.specs.Moves.{Moved};

use decl_grammar::Symbol;
use decl_turns::Before;

/// Where a walk over the fields of a declaration stands.
#[derive(Clone, Copy)]
pub enum Spot {
    /// Behind the name and the brackets of a field.
    Field,
    /// In an initialiser, with this before the next part of it.
    Row(Before),
}

/// The result of one step.
#[derive(Clone, Copy)]
pub enum Step<'a, 's> {
    /// Too many fields begin.
    Full,
    /// No more fields begin.
    Over,
    /// The walk goes on with these symbols, in which this many fields may still begin.
    On(usize, Spot, &'s [Symbol<'a>]),
    /// The symbols may be a type that is followed by `::`, or a comparison: the walk continues after the type, and
    /// also inside it, where the `<` is then the operator.
    Type(&'s [Symbol<'a>], &'s [Symbol<'a>]),
}

/// The result of one step, without the symbols that are left after it.
#[derive(Clone, Copy)]
pub enum Kind {
    /// Too many fields begin.
    Full,
    /// No more fields begin.
    Over,
    /// The walk goes on, and this many fields may still begin.
    On(usize, Spot),
    /// The walk continues after a type that is followed by `::`, and also inside it.
    Type,
}

/// One step with the symbols that it leaves: those within a type, and those to go on with.
#[derive(Clone, Copy)]
pub struct Move<'a, 's> {
    pub kind: Kind,
    pub within: &'s [Symbol<'a>],
    pub rest: &'s [Symbol<'a>],
}

/// A step from these symbols on with the symbols that it leaves.
pub fn move_of<'a, 's>(step: Step<'a, 's>, symbols: &'s [Symbol<'a>]) -> Move<'a, 's>
    ensures { Moved step.entry result }
{
    match step {
        Step::Full => Move {
            kind: Kind::Full,
            within: symbols,
            rest: symbols,
        },
        Step::Over => Move {
            kind: Kind::Over,
            within: symbols,
            rest: symbols,
        },
        Step::On(left, spot, rest) => Move {
            kind: Kind::On(left, spot),
            within: symbols,
            rest,
        },
        Step::Type(within, rest) => Move {
            kind: Kind::Type,
            within,
            rest,
        },
    }
}
