// The types of one table, with the direct supertypes that are remembered.
ghost use Rattle.std.specs.Prelude.{◌≡◌, [], IfOk, IfSome};
ghost use Rattle.type_memory.specs.Known.{Grows, IsKnown, known_of};
ghost use Rattle.type_memory.specs.Remembered.{AreDirect};
ghost use Rattle.type_numbers.specs.Numbers.{Stands};

use apt_base::{List, NoMemory};
use element_table::Table;
use std::alloc::Global;
use std::collections::BTreeMap;
use std::marker::Model;
use type_mirror::Mirror;
use type_numbers::Types;
use type_resolve::Resolver;
use type_steps::direct_with;

/// The types of one table by numbers, with the direct supertypes of each that was asked for them. Contracts see the table, and the types in the order of their numbers.
#[derive(Drop)]
pub struct KnownTypes<'a> {
    alloc: Global,
    resolver: Resolver<'a>,
    types: Types,
    supertypes: BTreeMap<usize, Option<List<usize>>>,
}

impl<'a> Model for KnownTypes<'a> {
    ghost use Rattle.type_memory.specs.Known.{Known, known_code, known_of};
    ghost use Rattle.type_memory.specs.Remembered.{AreSupertypes};

    ghost Value = { Known };

    ghost coded = { known_code };

    ghost view = { λ a. known_of a.resolver a.types };

    ghost invariant = { λ a. AreSupertypes (known_of a.resolver a.types) a.supertypes };
}

fn copied(alloc: Global, numbers: &Option<List<usize>>) -> Result<Option<List<usize>>, NoMemory>
    ensures { IfOk result (λ copy. copy ≡ numbers.now) }
{
    match numbers {
        None => Ok(None),
        Some(numbers) => {
            let copy = List::from_vec(Vec::from_slice(alloc, numbers.as_slice())?);
            Ok(Some(copy))
        }
    }
}

impl<'a> KnownTypes<'a> {
    /// No types yet. It takes no memory.
    pub fn new(alloc: Global, table: &'a Table) -> KnownTypes<'a>
        ensures { result ≡ known_of table.now [] }
    {
        KnownTypes {
            alloc,
            resolver: Resolver::new(alloc, table),
            types: Types::new(alloc),
            supertypes: BTreeMap::new(alloc),
        }
    }

    /// The table.
    pub fn table(&self) -> &'a Table
        ensures { result.now ≡ self.now.table }
    {
        self.resolver.table()
    }

    /// The types by their numbers.
    pub fn types(&self) -> &Types
        ensures { result.now ≡ self.now.types }
    {
        &self.types
    }

    /// The number of the type, which is added with what stands in it, where they are not there. Each number that was given before still has the same type.
    pub fn add(&mut self, mirror: &Mirror) -> Result<usize, NoMemory>
        ensures stands { IfOk result (λ n. Stands self.new.types n mirror.now) }
        ensures grows { Grows self.old self.new }
    {
        self.types.add(mirror)
    }

    // Those that are remembered, where they were looked up before.
    fn recalled(&self, number: usize) -> Result<Option<Option<List<usize>>>, NoMemory>
        ensures { IfOk result (λ r. IfSome r (λ n. AreDirect self.now self.now number n)) }
    {
        match self.supertypes.get(&number) {
            None => Ok(None),
            Some(known) => {
                let copy = copied(self.alloc, known)?;
                Ok(Some(copy))
            }
        }
    }

    // Looks them up, and remembers them.
    fn found(&mut self, number: usize) -> Result<Option<List<usize>>, NoMemory>
        requires { IsKnown self.old number }
        ensures stands { IfOk result (λ n. AreDirect self.old self.new number n) }
        ensures grows { Grows self.old self.new }
    {
        let found = direct_with(self.alloc, &mut self.resolver, &mut self.types, number)?;
        let copy = copied(self.alloc, &found)?;
        self.supertypes.insert(number, copy)?;
        Ok(found)
    }

    /// The numbers of the direct supertypes of the type with this number (JLS 4.10.1 to 4.10.3), the superclass before the interfaces; `None` where those of a raw type have no erasure within 64 steps. They are looked up once.
    pub fn supertypes(&mut self, number: usize) -> Result<Option<List<usize>>, NoMemory>
        requires { IsKnown self.old number }
        ensures stands { IfOk result (λ n. AreDirect self.old self.new number n) }
        ensures grows { Grows self.old self.new }
    {
        match self.recalled(number)? {
            Some(known) => Ok(known),
            None => self.found(number),
        }
    }
}
