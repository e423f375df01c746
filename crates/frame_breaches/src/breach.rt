// How a peer's bytes leave the protocol.
use frame_forms::BadKind;

/// How a peer's bytes leave the protocol, at the first place where they do.
#[derive(Clone, Copy, Debug, PartialEq, Eq)]
pub enum Breach {
    /// They end where a frame is wanted.
    Ended {
        /// How many bytes of the frame had come.
        got: u32,
    },
    /// A byte that no frame has where it stands.
    Bad {
        /// Its place in the frame, from 0 at the first byte of the length.
        place: u32,
        /// What is wrong with it.
        kind: BadKind,
    },
    /// A whole frame that may not come where it stands.
    Wrong {
        /// Its tag.
        tag: u8,
    },
}
