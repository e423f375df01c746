// Raw types that are reached, by numbers: what a question about two types asks next.
ghost use Rattle.std.specs.Prelude.{◌≡◌};
ghost use Rattle.type_subtypes.specs.Numbers.{BothKnown, is_reached, with_raw_types};

use crate::relation::is_same;
use apt_base::NoMemory;
use element_table::Table;
use std::alloc::Global;
use std::marker::Model;
use type_levels::{Answer, Next, Pair, Relation};
use type_mirror::Mirror;
use type_numbers::Types;
use type_steps::{direct_of, is_raw};

/// Raw types that are reached over one table, which contracts see.
#[derive(Drop)]
pub(crate) struct RawTypes<'a> {
    pub alloc: Global,
    pub table: &'a Table,
}

impl<'a> Model for RawTypes<'a> {
    ghost use Rattle.element_table.specs.TypeTable.{TypeTable};
    ghost use Rattle.element_table.specs.Held.{table_code};

    ghost Value = { TypeTable };

    ghost coded = { table_code };

    ghost view = { λ a. a.table.now };
}

impl<'a> RawTypes<'a> {
    // Whether the two are the same raw type.
    fn is_reached(&self, types: &Types, pair: Pair) -> bool
        requires { BothKnown types.now pair }
        ensures { result ≡ is_reached self.now types.now pair }
    {
        is_same(types, pair.sub, pair.sup) && is_raw(self.table, types, pair.sub)
    }
}

impl<'a> Relation<Types> for RawTypes<'a> {
    type Type = Mirror;

    ghost seen = { λ table types. with_raw_types table types };

    fn next(&self, types: &mut Types, pair: Pair) -> Result<Next, NoMemory> {
        if self.is_reached(types, pair) {
            return Ok(Next::Decided(Answer::Yes));
        }
        match direct_of(self.alloc, self.table, types, pair.sub)? {
            None => Ok(Next::Decided(Answer::Open)),
            Some(supertypes) => Ok(Next::Supertypes(supertypes.into_vec())),
        }
    }
}
