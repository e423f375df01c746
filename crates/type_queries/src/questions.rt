// Questions on subtypes over one table, of which what was found out is remembered.
ghost use Rattle.std.specs.Prelude.{◌≡◌, []};
ghost use Rattle.type_memory.specs.Known.{Grows, IsKnown, known_of, type_at};
ghost use Rattle.type_queries.specs.AddedTypes.{IsAdded, IsThere, contains_asked, subtype_asked};
ghost use Rattle.type_queries.specs.Questions.{are_types};
ghost use Rattle.type_queries.specs.Verdicts.{Gives};

use crate::comparing::truth;
use crate::fault::QueryFault;
use crate::kinds::is_type_at;
use crate::there::are_there;
use element_table::Table;
use std::alloc::Global;
use std::marker::Model;
use type_memory::RememberedSubtypes;
use type_mirror::Mirror;

/// Questions on subtypes and contained type arguments over one table, with what was found out for those before: the direct supertypes of types, and answers. Types are added first, and questions go by their numbers. Contracts see the table, and the types in the order of their numbers.
#[derive(Drop)]
pub struct Questions<'a> {
    subtypes: RememberedSubtypes<'a>,
}

impl<'a> Model for Questions<'a> {
    ghost use Rattle.type_memory.specs.Known.{Known, known_code};

    ghost Value = { Known };

    ghost coded = { known_code };

    ghost view = { λ a. a.subtypes };
}

impl<'a> Questions<'a> {
    /// No types yet, and nothing is remembered. It takes no memory.
    pub fn new(alloc: Global, table: &'a Table) -> Questions<'a>
        ensures { result ≡ known_of table.now [] }
    {
        Questions {
            subtypes: RememberedSubtypes::new(alloc, table),
        }
    }

    /// The number of the type, which is added with what stands in it, where they are not there. Each number that was given before still has the same type, also where this fails. `NoSuch` where the type names an element that is not there.
    pub fn add(&mut self, of: &Mirror) -> Result<usize, QueryFault>
        ensures added { IsAdded result self.old self.new of.now }
        ensures grows { Grows self.old self.new }
    {
        if !are_there(self.subtypes.table(), of) {
            return Err(QueryFault::NoSuch);
        }
        let number = self.subtypes.add(of)?;
        Ok(number)
    }

    // Whether questions may be asked of both.
    fn are_types(&self, one: usize, other: usize) -> bool
        requires one { IsKnown self.now one }
        requires other { IsKnown self.now other }
        ensures { result ≡ are_types (type_at self.now one) (type_at self.now other) }
    {
        let types = self.subtypes.types();
        is_type_at(types, one) && is_type_at(types, other)
    }

    /// Whether the type with the first number is a subtype of the one with the second number, as `is_subtype` tells without a memory: the same answer, whatever was asked before. `WrongKind` for a package and for the types of a method or a constructor, and `TooDeep` where it is open within 64 steps.
    #[tactic(auto, using(crate::proofs::AddedTypesLaws::asking))]
    pub fn is_subtype(&mut self, one: usize, other: usize) -> Result<bool, QueryFault>
        requires one { IsThere self.old one }
        requires other { IsThere self.old other }
        ensures answer { Gives result (subtype_asked self.old one other) }
        ensures grows { Grows self.old self.new }
    {
        if !self.are_types(one, other) {
            return Err(QueryFault::WrongKind);
        }
        let answer = self.subtypes.subtype(one, other)?;
        truth(answer)
    }

    /// Whether the type argument with the first number contains the one with the second number, as `contains` tells without a memory. `WrongKind` and `TooDeep` come as for `is_subtype`.
    #[tactic(auto, using(crate::proofs::AddedTypesLaws::asking))]
    pub fn contains(&mut self, one: usize, other: usize) -> Result<bool, QueryFault>
        requires one { IsThere self.old one }
        requires other { IsThere self.old other }
        ensures answer { Gives result (contains_asked self.old one other) }
        ensures grows { Grows self.old self.new }
    {
        if !self.are_types(one, other) {
            return Err(QueryFault::WrongKind);
        }
        let answer = self.subtypes.contained(one, other)?;
        truth(answer)
    }
}
