// What the headers of types say, as far as it was looked up.
ghost use Rattle.std.specs.Prelude.{◌≡◌, [], IfOk, IfSome};
ghost use Rattle.element_table.specs.TypeTable.{TypeTable};
ghost use Rattle.type_resolve.specs.Remembered.{IsHeader, AreHeaders};

use crate::known_texts::add_element;
use crate::pairs::{appended, both};
use apt_base::{ElementRef, List, NoMemory};
use std::alloc::Global;
use std::collections::BTreeMap;
use type_mirror::Mirror;

// How many headers are remembered at most.
const MOST_HEADERS: usize = 32_768;

/// The supertypes in the header of a type.
#[derive(Drop)]
pub(crate) struct KnownHeader {
    pub at: ElementRef,
    pub superclass: Mirror,
    pub interfaces: List<Mirror>,
}

/// Such headers, each of its type.
#[derive(Drop)]
pub(crate) struct KnownHeaders {
    alloc: Global,
    list: Vec<KnownHeader>,
    // Where each stands in the list, by its key.
    places: BTreeMap<String, usize>,
}

/// Equal types.
pub(crate) fn copied(alloc: Global, types: &[Mirror]) -> Result<List<Mirror>, NoMemory>
    ensures { IfOk result (λ copy. copy ≡ types.now) }
{
    let mut copies = List::new(alloc);
    for each in types {
        copies = appended(copies, each.copy(alloc))?;
    }
    Ok(copies)
}

// A text that no other type has.
fn key_of(alloc: Global, at: &ElementRef) -> Result<String, NoMemory> {
    let mut key = String::new(alloc);
    add_element(alloc, &mut key, at)?;
    Ok(key)
}

impl KnownHeaders {
    /// Nothing is remembered yet. It takes no memory.
    pub fn new(alloc: Global) -> Self
        ensures { result.list.items ≡ [] }
    {
        KnownHeaders {
            alloc,
            list: Vec::new(alloc),
            places: BTreeMap::new(alloc),
        }
    }

    /// What is remembered of the header of this type, if anything.
    pub fn find(&self, at: &ElementRef) -> Result<Option<&KnownHeader>, NoMemory>
        ensures at { IfOk result (λ found. IfSome found (λ known. known.now.at ≡ at.now)) }
        ensures value { IfOk result (λ found. IfSome found
            (λ known. (table : TypeTable) → AreHeaders table self.now → IsHeader table known.now)) }
    {
        let key = key_of(self.alloc, at)?;
        let Some(place) = self.places.get(key.as_str()) else {
            return Ok(None);
        };
        let Some(known) = self.list.as_slice().get(*place) else {
            return Ok(None);
        };
        if !known.at.is_equal(at) {
            return Ok(None);
        }
        Ok(Some(known))
    }

    /// Remembers one, unless as many are remembered as may be: 32,768.
    pub fn add(&mut self, known: KnownHeader) -> Result<(), NoMemory>
        ensures { (table : TypeTable) → AreHeaders table self.old → IsHeader table known
            → AreHeaders table self.new }
    {
        let place = self.list.len();
        if place >= MOST_HEADERS {
            drop(known);
            return Ok(());
        }
        let key = key_of(self.alloc, &known.at);
        let (known, key) = both(known, key)?;
        self.list.push(known)?;
        self.places.insert(key, place)?;
        Ok(())
    }
}
