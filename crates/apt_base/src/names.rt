// A set of names.
ghost use Rattle.std.specs.Prelude.{◌≡◌, true, IfOk, IfSome, IfNone, OnOk, OnErr};
ghost use Rattle.std.specs.FinMap as fin;
ghost use Rattle.apt_base.specs.Names.{with_name, with_names, names_in};

use crate::{List, Name, NoMemory};
use std::alloc::Global;
use std::collections::BTreeSet;
use std::marker::Model;

/// A set of names, which contracts see as that of their bytes.
#[derive(Drop)]
pub struct Names {
    alloc: Global,
    held: BTreeSet<String>,
}

impl Model for Names {
    ghost use Rattle.apt_base.specs.Names.{NameSet, names_of, names_code};

    ghost Value = { NameSet };

    ghost coded = { names_code };

    ghost view = { λ a. names_of a.held };
}

impl Names {
    /// The empty set. It takes no memory.
    pub fn new(alloc: Global) -> Self
        ensures { result ≡ fin.empty }
    {
        Names {
            alloc,
            held: BTreeSet::new(alloc),
        }
    }

    /// Adds a name, or leaves the set as it was where memory is out. It takes logarithmic time.
    pub fn insert(&mut self, name: &str) -> Result<(), NoMemory>
        ensures ok { OnOk result (self.new ≡ with_name self.old name.now) }
        ensures err { OnErr result (self.new ≡ self.old) }
    {
        let name = String::from_str(self.alloc, name)?;
        self.held.insert(name)?;
        Ok(())
    }

    /// Takes a name away, if it is there. It takes logarithmic time and no memory.
    pub fn remove(&mut self, name: &str)
        ensures { self.new ≡ fin.remove self.old name.now }
    {
        self.held.remove(name);
    }

    /// Whether a name is there. It takes logarithmic time and no memory.
    pub fn contains(&self, name: &str) -> bool
        ensures { result ≡ fin.contains_key self.now name.now }
    {
        self.held.contains(name)
    }

    /// The first of the names, or `None` where there is none. It takes no memory.
    pub fn first(&self) -> Option<&str>
        ensures member { IfSome result (λ name. fin.contains_key self.now name.now ≡ true) }
        ensures none { IfNone result (self.now ≡ fin.empty) }
    {
        match self.held.first() {
            Some(name) => Some(name.as_str()),
            None => None,
        }
    }

    /// Adds each name of another set.
    pub fn insert_all(&mut self, names: &Names) -> Result<(), NoMemory>
        ensures { OnOk result (self.new ≡ with_names self.old (names_in names.now)) }
    {
        for name in &names.held {
            self.insert(name.as_str())?;
        }
        Ok(())
    }

    /// The names, ascending by their bytes.
    pub fn list(&self) -> Result<List<Name>, NoMemory>
        ensures { IfOk result (λ names. names ≡ names_in self.now) }
    {
        let mut names = List::new(self.alloc);
        for name in &self.held {
            names.push(Name::new(self.alloc, name.as_str())?)?;
        }
        Ok(names)
    }

    /// An equal set.
    pub fn copy(&self, alloc: Global) -> Result<Names, NoMemory>
        ensures { IfOk result (λ names. names ≡ self.now) }
    {
        let mut names = Names::new(alloc);
        names.insert_all(self)?;
        Ok(names)
    }
}
