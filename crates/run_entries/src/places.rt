// Places of items by the origins of the items.
ghost use Rattle.std.specs.Prelude.{◌≡◌, [], OnOk, OnErr};
ghost use Rattle.std.specs.FinMap as fin;
ghost use Rattle.run_entries.specs.Maps.{places_at, with_place};

use apt_base::{List, NoMemory};
use std::alloc::Global;
use std::collections::BTreeMap;
use std::marker::Model;

/// For each of some names a list of places. Contracts see it as a finite map to lists. Each look-up takes logarithmic
/// time.
#[derive(Drop)]
pub(crate) struct Places {
    alloc: Global,
    held: BTreeMap<String, List<usize>>,
}

impl Model for Places {
    ghost use Rattle.run_entries.specs.Maps.{PlaceMap, places_of, places_code};

    ghost Value = { PlaceMap };

    ghost coded = { places_code };

    ghost view = { λ a. places_of a.held };
}

impl Places {
    /// No places. It takes no memory.
    pub fn new(alloc: Global) -> Places
        ensures { result ≡ fin.empty }
    {
        Places {
            alloc,
            held: BTreeMap::new(alloc),
        }
    }

    /// The places at a name. It takes no memory.
    pub fn at(&self, name: &str) -> &[usize]
        ensures { result.now ≡ places_at self.now name.now }
    {
        match self.held.get(name) {
            Some(places) => places.as_slice(),
            None => &[],
        }
    }

    // Puts places at a name.
    fn put(&mut self, name: &str, places: List<usize>) -> Result<(), NoMemory>
        ensures ok { OnOk result (self.new ≡ fin.insert self.old name.now places) }
        ensures err { OnErr result (self.new ≡ self.old) }
    {
        let name = String::from_str(self.alloc, name)?;
        self.held.insert(name, places)?;
        Ok(())
    }

    // The first place at a name.
    fn begin(&mut self, name: &str, place: usize) -> Result<(), NoMemory>
        requires { places_at self.old name.now ≡ [] }
        ensures ok { OnOk result (self.new ≡ with_place self.old name.now place) }
        ensures err { OnErr result (self.new ≡ self.old) }
    {
        let mut places = List::new(self.alloc);
        places.push(place)?;
        self.put(name, places)
    }

    /// Adds a place behind those at a name, or leaves all as it was when memory runs out.
    pub fn add(&mut self, name: &str, place: usize) -> Result<(), NoMemory>
        ensures ok { OnOk result (self.new ≡ with_place self.old name.now place) }
        ensures err { OnErr result (self.new ≡ self.old) }
    {
        match self.held.get_mut(name) {
            Some(places) => places.push(place),
            None => self.begin(name, place),
        }
    }
}
