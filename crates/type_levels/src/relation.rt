// What a search asks of the types.
ghost use Rattle.std.specs.Prelude.{IfOk};
ghost use Rattle.type_levels.specs.Numbered.{Numbered, AreKnown, AsksNext, Keeps};

use crate::question::{Next, Pair};
use apt_base::NoMemory;

/// A relation of two types, such as 'is a subtype of'. It is given by one step: a question about two types is settled, or leads to further questions. Types are named by numbers, and `T` holds the numbered types.
pub trait Relation<T> {
    /// The type of a number.
    type Type;

    ghost seen: { Self → T → Numbered Self.Type };

    /// The further questions that a question leads to. Types that they name may get numbers, also where the call ends as out of memory.
    fn next(&self, types: &mut T, pair: Pair) -> Result<Next, NoMemory>
        requires known { AreKnown (seen self.now types.old) pair }
        ensures next { IfOk result (AsksNext (seen self.now) types.old types.new pair) }
        ensures grows { Keeps (seen self.now) types.old types.new };
}
