// Sets of names by a name.
ghost use Rattle.std.specs.Prelude.{◌≡◌, true, IfOk, IfSome, IfNone, OnOk, OnErr};
ghost use Rattle.std.specs.Option.{option_copied};
ghost use Rattle.std.specs.FinMap as fin;
ghost use Rattle.name_index.specs.Index.{names_at, with_name_at, without_name_at};

use apt_base::{Names, NoMemory};
use std::alloc::Global;
use std::collections::BTreeMap;
use std::marker::Model;

/// A set of names for each of some names, as the types of each package. Contracts see it as a finite map to sets. Each look-up takes logarithmic time.
#[derive(Drop)]
pub struct NameIndex {
    alloc: Global,
    held: BTreeMap<String, Names>,
}

impl Model for NameIndex {
    ghost use Rattle.name_index.specs.Index.{Index, index_of, index_code};

    ghost Value = { Index };

    ghost coded = { index_code };

    ghost view = { λ a. index_of a.held };
}

impl NameIndex {
    /// The empty index. It takes no memory.
    pub fn new(alloc: Global) -> Self
        ensures { result ≡ fin.empty }
    {
        NameIndex {
            alloc,
            held: BTreeMap::new(alloc),
        }
    }

    /// The set at a name, or `None` where there never was one. It takes no memory.
    pub fn names(&self, at: &str) -> Option<&Names>
        ensures { option_copied result ≡ fin.get self.now at.now }
    {
        self.held.get(at)
    }

    /// The first of the names at a name, or `None` where there is none. It takes no memory.
    pub fn first(&self, at: &str) -> Option<&str>
        ensures member { IfSome result (λ name. fin.contains_key (names_at self.now at.now) name.now ≡ true) }
        ensures none { IfNone result (names_at self.now at.now ≡ fin.empty) }
    {
        match self.names(at) {
            Some(names) => names.first(),
            None => None,
        }
    }

    // Puts a set at a name.
    fn put(&mut self, at: &str, names: Names) -> Result<(), NoMemory>
        ensures ok { OnOk result (self.new ≡ fin.insert self.old at.now names) }
        ensures err { OnErr result (self.new ≡ self.old) }
    {
        let at = String::from_str(self.alloc, at)?;
        self.held.insert(at, names)?;
        Ok(())
    }

    // The first name at a name.
    fn begin(&mut self, at: &str, name: &str) -> Result<(), NoMemory>
        requires { names_at self.old at.now ≡ fin.empty }
        ensures ok { OnOk result (self.new ≡ with_name_at self.old at.now name.now) }
        ensures err { OnErr result (self.new ≡ self.old) }
    {
        let mut names = Names::new(self.alloc);
        names.insert(name)?;
        self.put(at, names)
    }

    /// Adds a name to the set at a name, or leaves the index as it was when memory runs out.
    pub fn add(&mut self, at: &str, name: &str) -> Result<(), NoMemory>
        ensures ok { OnOk result (self.new ≡ with_name_at self.old at.now name.now) }
        ensures err { OnErr result (self.new ≡ self.old) }
    {
        match self.held.get_mut(at) {
            Some(names) => names.insert(name),
            None => self.begin(at, name),
        }
    }

    /// Takes a name away from the set at a name, where there is one. It takes no memory.
    pub fn remove(&mut self, at: &str, name: &str)
        requires { fin.contains_key self.old at.now ≡ true }
        ensures { self.new ≡ without_name_at self.old at.now name.now }
    {
        match self.held.get_mut(at) {
            Some(names) => names.remove(name),
            None => {}
        }
    }

    /// An equal index.
    pub fn copy(&self, alloc: Global) -> Result<NameIndex, NoMemory>
        ensures { IfOk result (λ index. index ≡ self.now) }
    {
        let mut index = NameIndex::new(alloc);
        for (at, names) in &self.held {
            index.put(at.as_str(), names.copy(alloc)?)?;
        }
        Ok(index)
    }
}
