// What stands at the front of the bytes that were taken.
use frame_forms::BadKind;

/// What stands at the front of the bytes that were taken.
#[derive(Clone, Copy, Debug, PartialEq, Eq)]
pub enum Found {
    /// The beginning of a frame, with no bad byte.
    Begun,
    /// A whole frame, and no byte behind it.
    Whole,
    /// No frame.
    Bad {
        /// The place of the first bad byte, from 0 at the first byte of the length.
        place: u32,
        /// What is wrong with it.
        kind: BadKind,
    },
}

/// Out of memory in the midst of a piece.
#[derive(Clone, Copy, Debug, PartialEq, Eq)]
pub struct Interrupted {
    /// How many bytes of the piece were taken.
    pub taken: usize,
}
