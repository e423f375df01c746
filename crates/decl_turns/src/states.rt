// Where a reader of an expression stands: what tells how the expression goes on.

/// Where an expression stands: alone in the brackets of an annotation, behind the `=` of a pair there, in an array, as the
/// default of an element, or as the initialiser of a field.
#[derive(Clone, Copy, PartialEq, Eq)]
pub enum Place {
    Alone,
    Paired,
    Listed,
    Defaulted,
    Assigned,
}

/// Where a `=` is allowed: `Within(n)` has n conditions (`?` without its `:`) open, and allows it if n is not 0;
/// `Anywhere` always allows it.
#[derive(Clone, Copy, PartialEq, Eq)]
pub enum Leave {
    Within(usize),
    Anywhere,
}

/// What stands before the next part of an expression.
#[derive(Clone, Copy, PartialEq, Eq)]
pub enum Before {
    /// Nothing that decides how the expression continues.
    Between,
    /// A name.
    Name,
    /// A `>`.
    Greater,
    /// A `.`.
    Dot,
    /// A `::`.
    Colons,
    /// Type arguments behind a `::`.
    ColonArguments,
    /// A type that is created.
    Creation,
    /// `instanceof`.
    Test,
    /// A name of a type that is tested.
    TestName,
    /// The type arguments of a type that is tested.
    TestArguments,
    /// The end of a type that is tested.
    TestEnd,
}

/// A part of an expression.
#[derive(Clone, Copy, PartialEq, Eq)]
pub enum Piece {
    /// One symbol.
    One,
    /// `(` and all up to where it is closed.
    Round,
    /// `{` and all up to where it is closed.
    Brace,
    /// `[` and all up to where it is closed.
    Square,
    /// Type arguments.
    Arguments,
    /// Annotations, and the first symbol of the type behind them.
    Annotated,
    /// What is created.
    Created,
    /// The rest of a type from its arguments up to its `::`.
    Reference,
    /// `instanceof`, and annotations.
    Tested,
    /// A further name of a type that is tested.
    TestedName,
    /// A pair of brackets of a type that is tested.
    TestedDim,
}

/// What a part changes of where a `=` may stand.
#[derive(Clone, Copy, PartialEq, Eq)]
pub enum Turn {
    /// Nothing.
    Same,
    /// A condition begins.
    Condition,
    /// A condition ends.
    Colon,
    /// A lambda begins.
    Lambda,
}

/// How an expression goes on.
#[derive(Clone, Copy, PartialEq, Eq)]
pub enum Next {
    /// With this part, which changes this and is what then stands before the next part.
    Part(Piece, Turn, Before),
    /// With the rest of a type up to its `::`, or with the operator `<`.
    Two,
    /// It does not, although it is not whole.
    Nothing,
    /// It ends.
    End,
}
