// Members that are listed so far, found by their names.
ghost use Rattle.std.specs.Prelude.{◌≡◌, ◌<◌, [], length, get_or, None, IfOk, OnOk, OnErr, string_bytes};
ghost use Rattle.std.specs.BTreeMap.{get_by_text};
ghost use Rattle.type_listing.specs.Listings.{listing_of, listed_with, AreWithin, ArePlacesOf, HasPlaceMore, HaveSamePlaces};

use crate::names::key_of;
use apt_base::{ElementRef, List, NoMemory};
use element_table::Table;
use std::alloc::Global;
use std::collections::BTreeMap;
use std::marker::Model;

/// Members in their order, with the places of those of each name. Contracts see the table and the list.
#[derive(Drop)]
pub(crate) struct Listing<'a> {
    alloc: Global,
    table: &'a Table,
    list: Vec<ElementRef>,
    places: BTreeMap<String, Vec<usize>>,
}

impl<'a> Model for Listing<'a> {
    ghost use Rattle.type_listing.specs.Listings.{Listed, AreIndexed, listing_of, listed_code};

    ghost Value = { Listed };

    ghost coded = { listed_code };

    ghost view = { λ a. listing_of a.table.now a.list.items };

    ghost invariant = { λ a. AreIndexed a.table.now a.list.items a.places };
}

// The first place under a key.
fn begin_places(
    places: &mut BTreeMap<String, Vec<usize>>,
    alloc: Global,
    key: String,
    place: usize,
) -> Result<(), NoMemory>
    requires { get_by_text places.old (string_bytes key) ≡ None }
    ensures ok { OnOk result (HasPlaceMore places.old places.new (string_bytes key) place) }
    ensures err { OnErr result (HaveSamePlaces places.old places.new) }
{
    let mut first = Vec::new(alloc);
    first.push(place)?;
    places.insert(key, first)?;
    Ok(())
}

// One place more under a key.
fn add_place(
    places: &mut BTreeMap<String, Vec<usize>>,
    alloc: Global,
    key: String,
    place: usize,
) -> Result<(), NoMemory>
    ensures ok { OnOk result (HasPlaceMore places.old places.new (string_bytes key) place) }
    ensures err { OnErr result (HaveSamePlaces places.old places.new) }
{
    match places.get_mut(key.as_str()) {
        Some(found) => Ok(found.push(place)?),
        None => begin_places(places, alloc, key, place),
    }
}

impl<'a> Listing<'a> {
    /// No members. It takes no memory.
    pub fn new(alloc: Global, table: &'a Table) -> Listing<'a>
        ensures { result ≡ listing_of table.now [] }
    {
        Listing {
            alloc,
            table,
            list: Vec::new(alloc),
            places: BTreeMap::new(alloc),
        }
    }

    /// The table.
    pub fn table(&self) -> &'a Table
        ensures { result.now ≡ self.now.table }
    {
        self.table
    }

    /// Adds a member behind the others. There is room in the list before its place is noted, so that both are done or neither is.
    pub fn push(&mut self, at: ElementRef) -> Result<(), NoMemory>
        ensures ok { OnOk result (self.new ≡ listed_with self.old at) }
        ensures err { OnErr result (self.new ≡ self.old) }
    {
        let key = key_of(self.alloc, self.table, &at)?;
        self.list.reserve(1)?;
        let place = self.list.len();
        add_place(&mut self.places, self.alloc, key, place)?;
        self.list.push(at)?;
        Ok(())
    }

    /// The places of the members that have the name of this one, ascending.
    pub fn places(&self, at: &ElementRef) -> Result<&[usize], NoMemory>
        ensures within { IfOk result (λ places. AreWithin self.now places.now) }
        ensures named { IfOk result (λ places. ArePlacesOf self.now at.now places.now) }
    {
        let key = key_of(self.alloc, self.table, at)?;
        match self.places.get(key.as_str()) {
            None => Ok(&[]),
            Some(places) => Ok(places.as_slice()),
        }
    }

    /// The member at a place.
    pub fn get(&self, place: usize) -> &ElementRef
        requires { place < length self.now.list }
        ensures { result.now ≡ get_or self.now.list place result.now }
    {
        &self.list[place]
    }

    /// The members in their order. It takes no memory.
    pub fn into_list(self) -> List<ElementRef>
        ensures { result ≡ self.entry.list }
    {
        List::from_vec(self.list)
    }
}
