// The superclasses that were looked up.
ghost use Rattle.std.specs.Prelude.{◌≡◌, [], IfOk, IfSome};
ghost use Rattle.annotation_presence.specs.Remembered.{IsSuperclass, AreSuperclasses};

use crate::meanings::add_element;
use apt_base::{ElementRef, NoMemory};
use element_table::Table;
use std::alloc::Global;
use std::collections::BTreeMap;

/// A class, and its superclass if the table has that.
#[derive(Drop)]
pub(crate) struct Superclass {
    pub of: ElementRef,
    pub superclass: Option<ElementRef>,
}

/// Such classes, each once.
#[derive(Drop)]
pub(crate) struct Superclasses {
    alloc: Global,
    list: Vec<Superclass>,
    // Where each stands in the list, by the text of its element.
    places: BTreeMap<String, usize>,
}

fn key_of(alloc: Global, of: &ElementRef) -> Result<String, NoMemory> {
    let mut key = String::new(alloc);
    add_element(alloc, &mut key, of)?;
    Ok(key)
}

impl Superclasses {
    /// Nothing was looked up yet.
    pub fn new(alloc: Global) -> Self
        ensures { result.list.items ≡ [] }
    {
        Superclasses {
            alloc,
            list: Vec::new(alloc),
            places: BTreeMap::new(alloc),
        }
    }

    /// The superclass of this class as it was found, if it was looked up.
    pub fn find(&self, _table: &Table, of: &ElementRef) -> Result<Option<&Superclass>, NoMemory>
        requires right { AreSuperclasses _table.now self.now }
        ensures of { IfOk result (λ found. IfSome found (λ s. s.now.of ≡ of.now)) }
        ensures value { IfOk result (λ found. IfSome found (λ s. IsSuperclass _table.now s.now)) }
    {
        let key = key_of(self.alloc, of)?;
        let Some(place) = self.places.get(key.as_str()) else {
            return Ok(None);
        };
        let Some(known) = self.list.as_slice().get(*place) else {
            return Ok(None);
        };
        if !known.of.is_equal(of) {
            return Ok(None);
        }
        Ok(Some(known))
    }

    /// Remembers a superclass.
    pub fn add(&mut self, _table: &Table, superclass: Superclass) -> Result<(), NoMemory>
        requires right { AreSuperclasses _table.now self.old }
        requires new { IsSuperclass _table.now superclass }
        ensures { AreSuperclasses _table.now self.new }
    {
        let key = key_of(self.alloc, &superclass.of)?;
        let place = self.list.len();
        self.list.push(superclass)?;
        self.places.insert(key, place)?;
        Ok(())
    }
}
