// The members of types that are remembered.
ghost use Rattle.std.specs.Prelude.{◌≡◌, IfOk, IfSome};
ghost use Rattle.type_listing.specs.Remembered.{AreMembers};
ghost use Rattle.type_relations.specs.Named.{header_types};

use crate::known::KnownMembers;
use apt_base::{ElementRef, List, NoMemory};
use element_table::Table;
use std::alloc::Global;
use std::collections::BTreeMap;
use std::marker::Model;
use std::mem;
use type_mirror::Mirror;
use type_numbers::element_key;
use type_relations::header_types_with;
use type_resolve::Resolver;

/// The members of types over one table, each type once, and what was looked up there. Contracts see the table.
#[derive(Drop)]
pub(crate) struct Remembered<'a> {
    alloc: Global,
    resolver: Resolver<'a>,
    known: BTreeMap<Vec<usize>, KnownMembers>,
}

impl<'a> Model for Remembered<'a> {
    ghost use Rattle.element_table.specs.TypeTable.{TypeTable};
    ghost use Rattle.element_table.specs.Held.{table_code};
    ghost use Rattle.type_listing.specs.Remembered.{AreRight};

    ghost Value = { TypeTable };

    ghost coded = { table_code };

    ghost view = { λ a. a.resolver };

    ghost invariant = { λ a. AreRight a.resolver a.known.entries };
}

impl<'a> Remembered<'a> {
    /// Nothing is remembered yet. It takes no memory.
    pub fn new(alloc: Global, table: &'a Table) -> Remembered<'a>
        ensures { result ≡ table.now }
    {
        Remembered {
            alloc,
            resolver: Resolver::new(alloc, table),
            known: BTreeMap::new(alloc),
        }
    }

    /// The table.
    pub fn table(&self) -> &'a Table
        ensures { result.now ≡ self.now }
    {
        self.resolver.table()
    }

    /// The superclass and the interfaces of a type, as `header_types` of `type_relations` gives them.
    pub fn header_types(&mut self, at: &ElementRef) -> Result<List<Mirror>, NoMemory>
        ensures value { IfOk result (λ list. list ≡ header_types self.old at.now) }
        ensures kept { self.new ≡ self.old }
    {
        header_types_with(self.alloc, &mut self.resolver, at)
    }

    /// What was looked up over the table. Nothing of it is then remembered here.
    pub fn take_resolver(&mut self) -> Resolver<'a>
        ensures resolver { result ≡ self.old }
        ensures kept { self.new ≡ self.old }
    {
        let none = Resolver::new(self.alloc, self.table());
        mem::replace(&mut self.resolver, none)
    }

    /// Remembers what was looked up over the table.
    pub fn keep_resolver(&mut self, resolver: Resolver<'a>)
        requires { resolver ≡ self.old }
        ensures { self.new ≡ self.old }
    {
        self.resolver = resolver;
    }

    /// What is remembered of a type, if anything.
    pub fn recalled(&self, at: &ElementRef) -> Result<Option<KnownMembers>, NoMemory>
        ensures { IfOk result (λ r. IfSome r (λ known. AreMembers self.now at.now known)) }
    {
        let key = element_key(self.alloc, at)?;
        match self.known.get(key.as_slice()) {
            None => Ok(None),
            Some(known) => {
                let copy = known.copy(self.alloc)?;
                Ok(Some(copy))
            }
        }
    }

    /// Remembers the members of a type.
    pub fn remember(&mut self, at: &ElementRef, known: KnownMembers) -> Result<(), NoMemory>
        requires { AreMembers self.old at.now known }
        ensures { self.new ≡ self.old }
    {
        let key = element_key(self.alloc, at)?;
        self.known.insert(key, known)?;
        Ok(())
    }
}
