// A child with the bytes of its host since the last frame.
ghost use Rattle.std.specs.Prelude.{◌≡◌};
ghost use Rattle.frame_reader.specs.Stages.{found_in};
ghost use Rattle.frame_reader.specs.declared.found.Found.TheVariants as founds;
ghost use Rattle.local_procs.specs.Places.{stands_at};
ghost use Rattle.local_children.specs.Streams.{has_begun};

use frame_stream::Reader;
use local_procs::Child;

/// A child, and the bytes of its host since the last frame, which begin the next one.
#[derive(Drop)]
pub struct Conversation {
    /// The child.
    pub child: Child,
    /// The bytes since the last frame.
    pub reader: Reader,
    /// Whether a frame has come.
    pub begun: bool,
    ghost begins: { found_in reader ≡ founds.Begun },
    ghost counts: { begun ≡ has_begun (stands_at child) },
}
