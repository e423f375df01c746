// Subtypes and contained type arguments over one table, of which what was found out is remembered.
ghost use Rattle.std.specs.Prelude.{◌≡◌, IfOk};
ghost use Rattle.apt_base.specs.Limits.{max_type_steps};
ghost use Rattle.type_subtypes.specs.Subtypes.{contained, subtype};

use apt_base::NoMemory;
use element_table::Table;
use std::alloc::Global;
use std::marker::Model;
use std::mem;
use type_levels::Answer;
use type_memory::RememberedSubtypes;
use type_mirror::Mirror;

/// How many types are remembered at most when a question is asked.
pub const MOST_TYPES: usize = 131_072;

/// Which types are below others, and which type arguments contain others, over one table. Contracts see the table
/// alone.
#[derive(Drop)]
pub(crate) struct Relations<'a> {
    alloc: Global,
    known: RememberedSubtypes<'a>,
}

impl<'a> Model for Relations<'a> {
    ghost use Rattle.element_table.specs.TypeTable.{TypeTable};
    ghost use Rattle.element_table.specs.Held.{table_code};

    ghost Value = { TypeTable };

    ghost coded = { table_code };

    ghost view = { λ a. a.known.table };
}

impl<'a> Relations<'a> {
    /// Nothing is remembered yet. It takes no memory.
    pub fn new(alloc: Global, table: &'a Table) -> Relations<'a>
        ensures { result ≡ table.now }
    {
        Relations {
            alloc,
            known: RememberedSubtypes::new(alloc, table),
        }
    }

    /// Forgets all types, and what was found out about them.
    pub fn forget(&mut self)
        ensures { self.new ≡ self.old }
    {
        let none = RememberedSubtypes::new(self.alloc, self.known.table());
        let many = mem::replace(&mut self.known, none);
        drop(many);
    }

    /// Makes room for the types of a question: where more than `MOST_TYPES` are remembered, all are forgotten.
    pub fn make_room(&mut self)
        ensures { self.new ≡ self.old }
    {
        if self.known.types().len() > MOST_TYPES {
            self.forget();
        }
    }

    /// Whether the first type is a subtype of the second one.
    #[tactic(auto, using(crate::proofs::RememberedAnswers::asking))]
    pub fn subtype(&mut self, one: &Mirror, other: &Mirror) -> Result<Answer, NoMemory>
        ensures value { IfOk result (λ r. r ≡ subtype self.old max_type_steps one.now other.now) }
        ensures kept { self.new ≡ self.old }
    {
        let one = self.known.add(one)?;
        let other = self.known.add(other)?;
        let answer = self.known.subtype(one, other)?;
        Ok(answer)
    }

    /// Whether the first type argument contains the second one.
    #[tactic(auto, using(crate::proofs::RememberedAnswers::asking))]
    pub fn contained(&mut self, one: &Mirror, other: &Mirror) -> Result<Answer, NoMemory>
        ensures value { IfOk result (λ r. r ≡ contained self.old max_type_steps one.now other.now) }
        ensures kept { self.new ≡ self.old }
    {
        let one = self.known.add(one)?;
        let other = self.known.add(other)?;
        let answer = self.known.contained(one, other)?;
        Ok(answer)
    }
}
