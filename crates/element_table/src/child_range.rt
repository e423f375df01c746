// A range of children.
ghost use Rattle.std.specs.Prelude.{◌≡◌};
ghost use Rattle.element_table.specs.MemberTypes.{widened};

/// Some children of an element: from the one with the first number to the one with the last.
#[derive(Clone, Copy)]
pub struct ChildRange {
    /// The number of the first one.
    pub first: u16,
    /// The number of the last one, which is the first or behind it.
    pub last: u16,
}

/// The least range that has this number too.
pub(crate) fn widened(range: Option<ChildRange>, number: u16) -> ChildRange
    ensures { result ≡ widened range number }
{
    match range {
        None => ChildRange {
            first: number,
            last: number,
        },
        Some(range) => ChildRange {
            first: range.first.min(number),
            last: range.last.max(number),
        },
    }
}
