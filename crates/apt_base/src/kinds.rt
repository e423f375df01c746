/// Whether a processor claims the annotations that it is offered: always, never, or as it answers each time.
#[derive(Clone, Copy, Debug, PartialEq, Eq)]
pub enum Claim {
    Always,
    Never,
    Varies,
}

/// What a processor promises of what it makes: each file comes from one element, from all that carry its annotations, as it declares at run time, or nothing was declared.
#[derive(Clone, Copy, Debug, PartialEq, Eq)]
pub enum Kind {
    Isolating,
    Aggregating,
    Dynamic,
    Undeclared,
}

/// A limit that something passed.
#[derive(Clone, Copy, Debug, PartialEq, Eq)]
pub enum What {
    /// The `.java` files of the sources, or those of the stubs, each: 20,000.
    Files,
    /// The bytes of one `.java` file: 8,388,608.
    FileBytes,
    /// The bytes of all sources: 67,108,864.
    SourceBytes,
    /// The bytes of all stubs: 16,777,216.
    StubBytes,
    /// The bytes of a file of the configuration: 1,048,576.
    ConfigBytes,
    /// The processors: 64.
    Processors,
    /// The types of a table, nested ones and `package-info` units included: 50,000.
    Types,
    /// The bytes of the canonical name of a type or a package: 1,024.
    Name,
    /// The children of one element, the implicit ones included: 65,535.
    Children,
    /// Nested types, lists of type arguments and values, counted together: 200.
    Depth,
    /// The bytes of a frame: 134,217,728.
    Frame,
    /// The bytes of a record: 1,073,741,824.
    Record,
    /// The bytes of a script: 67,108,864.
    Script,
    /// The rounds: 64.
    Rounds,
}
