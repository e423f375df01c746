// The numbers of store files.
ghost use Rattle.std.specs.Prelude.{◌≡◌, OnOk, OnErr};
ghost use Rattle.std.specs.FinMap as fin;
ghost use Rattle.run_entries.specs.Maps.{number_at};

use apt_base::{Name, NoMemory};
use std::alloc::Global;
use std::collections::BTreeMap;
use std::marker::Model;

/// The number of the store file of each path. Contracts see it as a finite map.
#[derive(Drop)]
pub struct StoreNumbers {
    alloc: Global,
    held: BTreeMap<String, u32>,
}

impl Model for StoreNumbers {
    ghost use Rattle.run_entries.specs.Maps.{Stores, stores_of, stores_code};

    ghost Value = { Stores };

    ghost coded = { stores_code };

    ghost view = { λ a. stores_of a.held };
}

impl StoreNumbers {
    /// No numbers yet. It takes no memory.
    pub fn new(alloc: Global) -> StoreNumbers
        ensures { result ≡ fin.empty }
    {
        StoreNumbers {
            alloc,
            held: BTreeMap::new(alloc),
        }
    }

    /// Sets the number of a path, or leaves all as it was when memory runs out. It takes logarithmic time.
    pub fn set(&mut self, path: &Name, number: u32) -> Result<(), NoMemory>
        ensures ok { OnOk result (self.new ≡ fin.insert self.old path.now number) }
        ensures err { OnErr result (self.new ≡ self.old) }
    {
        let path = String::from_str(self.alloc, path.as_str())?;
        self.held.insert(path, number)?;
        Ok(())
    }

    /// The number of a path, or 0 where none was set. It takes logarithmic time and no memory.
    pub fn number(&self, path: &Name) -> u32
        ensures { result ≡ number_at self.now path.now }
    {
        match self.held.get(path.as_str()) {
            Some(number) => *number,
            None => 0,
        }
    }
}
