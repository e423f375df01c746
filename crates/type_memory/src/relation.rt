// Subtypes by numbers: what a question about two types asks next, over what is remembered.
use crate::known_types::KnownTypes;
use apt_base::NoMemory;
use std::alloc::Global;
use type_levels::{Answer, Next, Pair, Relation};
use type_mirror::Mirror;
use type_subtypes::Subtypes;

/// Subtypes (JLS 4.10) over the table of types that are known, as a relation of types by their numbers.
#[derive(Drop)]
pub struct KnownSubtypes {
    /// What gives memory to the search.
    pub alloc: Global,
}

impl<'a> Relation<KnownTypes<'a>> for KnownSubtypes {
    ghost use Rattle.type_memory.specs.Known.{searched};

    type Type = Mirror;

    ghost seen = { λ relation known. searched known };

    fn next(&self, known: &mut KnownTypes<'a>, pair: Pair) -> Result<Next, NoMemory> {
        let relation = Subtypes {
            alloc: self.alloc,
            table: known.table(),
        };
        if let Some(next) = relation.decided(known.types(), pair)? {
            return Ok(next);
        }
        match known.supertypes(pair.sub)? {
            None => Ok(Next::Decided(Answer::Open)),
            Some(supertypes) => Ok(Next::Supertypes(supertypes.into_vec())),
        }
    }
}
