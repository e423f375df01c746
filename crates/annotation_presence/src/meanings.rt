// What the names of annotations were found to mean.
ghost use Rattle.std.specs.Prelude.{◌≡◌, [], is_some, IfOk, IfSome};
ghost use Rattle.name_resolve.specs.Ways.{node_at};
ghost use Rattle.name_resolve.specs.Shown.{find_of, finds_of};
ghost use Rattle.annotation_presence.specs.Remembered.{is_nothing, declares_nothing, IsScope, IsMeaning, AreMeanings};

use apt_base::{ElementRef, Name, NoMemory};
use decl_elements::place_at;
use element_table::Table;
use name_resolve::{Finds, Found, declared_parameters, declared_types, type_at};
use std::alloc::Global;
use std::collections::BTreeMap;

/// How many meanings are remembered at most.
const MOST_MEANINGS: usize = 65_536;

// ---- scopes

/// An equal find.
pub(crate) fn copied<'a>(alloc: Global, find: &Found<'a>) -> Result<Found<'a>, NoMemory>
    ensures { IfOk result (λ f. find_of f ≡ find_of find.now) }
{
    let path = Vec::from_slice(alloc, find.path.as_slice())?;
    Ok(Found {
        part: find.part,
        unit: find.unit,
        path,
    })
}

fn is_nothing(finds: &Finds<'_>) -> bool
    ensures { result ≡ is_nothing (finds_of finds.now) }
{
    match finds {
        Finds::Nothing => true,
        Finds::One(_) => false,
        Finds::Several => false,
    }
}

fn declares_nothing(alloc: Global, at: &Found<'_>, name: &str) -> Result<bool, NoMemory>
    ensures { IfOk result (λ nothing. nothing ≡ declares_nothing (find_of at.now) name.now) }
{
    if type_at(at).is_some() {
        return Ok(false);
    }
    let types = declared_types(alloc, at, name)?;
    let parameters = declared_parameters(alloc, at, name)?;
    Ok(is_nothing(&types) && is_nothing(&parameters))
}

fn is_there(at: &Found<'_>) -> bool
    ensures { result ≡ is_some (node_at at.now.unit.now at.now.path.items) }
{
    place_at(at.unit, at.path.as_slice()).is_some()
}

/// Where a look-up of a name that begins so may begin in place of an element: at the nearest one around it that
/// is a type, or declares a type parameter of the name.
#[tactic(auto, using(crate::proofs::OuterScopes::scope_itself))]
pub(crate) fn scope_of<'a>(
    alloc: Global,
    at: &Found<'a>,
    first: &str,
) -> Result<Found<'a>, NoMemory>
    ensures { IfOk result (λ scope. IsScope (find_of at.now) first.now (find_of scope)) }
{
    let mut here = copied(alloc, at)?;
    if !is_there(at) {
        return Ok(here);
    }
    loop {
        let silent = declares_nothing(alloc, &here, first)?;
        if !silent {
            return Ok(here);
        }
        match here.path.pop() {
            None => return Ok(here),
            Some(_) => {}
        }
    }
}

// ---- meanings

/// What a name means where it is written: the annotation interface, if it means one.
#[derive(Drop)]
pub(crate) struct Meaning {
    pub at: ElementRef,
    pub name: Name,
    pub annotation_type: Option<ElementRef>,
}

/// Such meanings, as they were found.
#[derive(Drop)]
pub(crate) struct Meanings {
    alloc: Global,
    list: Vec<Meaning>,
    // Where each stands in the list, by its key.
    places: BTreeMap<String, usize>,
}

/// Adds a text that no other element has.
pub(crate) fn add_element(
    alloc: Global,
    text: &mut String,
    at: &ElementRef,
) -> Result<(), NoMemory> {
    text.push_str(at.unit.as_str())?;
    for step in at.path.as_slice() {
        let number = *step;
        let written = format!(in alloc; " {number}")?;
        text.push_str(written.as_str())?;
    }
    Ok(())
}

// A text that no other name has at another element.
fn key_of(alloc: Global, at: &ElementRef, name: &Name) -> Result<String, NoMemory> {
    let mut key = String::from_str(alloc, name.as_str())?;
    key.push(' ')?;
    add_element(alloc, &mut key, at)?;
    Ok(key)
}

impl Meanings {
    /// Nothing was looked up yet.
    pub fn new(alloc: Global) -> Self
        ensures { result.list.items ≡ [] }
    {
        Meanings {
            alloc,
            list: Vec::new(alloc),
            places: BTreeMap::new(alloc),
        }
    }

    /// What the name was found to mean there, if it was looked up.
    pub fn find(
        &self,
        _table: &Table,
        at: &ElementRef,
        name: &Name,
    ) -> Result<Option<&Meaning>, NoMemory>
        requires right { AreMeanings _table.now self.now }
        ensures at { IfOk result (λ found. IfSome found (λ m. m.now.at ≡ at.now)) }
        ensures name { IfOk result (λ found. IfSome found (λ m. m.now.name ≡ name.now)) }
        ensures value { IfOk result (λ found. IfSome found (λ m. IsMeaning _table.now m.now)) }
    {
        let key = key_of(self.alloc, at, name)?;
        let Some(place) = self.places.get(key.as_str()) else {
            return Ok(None);
        };
        let Some(meaning) = self.list.as_slice().get(*place) else {
            return Ok(None);
        };
        if !meaning.at.is_equal(at) {
            return Ok(None);
        }
        if meaning.name.as_str() != name.as_str() {
            return Ok(None);
        }
        Ok(Some(meaning))
    }

    /// Remembers a meaning. Where 65,536 are remembered all these are forgotten before.
    pub fn add(&mut self, _table: &Table, meaning: Meaning) -> Result<(), NoMemory>
        requires right { AreMeanings _table.now self.old }
        requires new { IsMeaning _table.now meaning }
        ensures { AreMeanings _table.now self.new }
    {
        if self.list.len() >= MOST_MEANINGS {
            self.list.clear();
            self.places.clear();
        }
        let key = key_of(self.alloc, &meaning.at, &meaning.name)?;
        let place = self.list.len();
        self.list.push(meaning)?;
        self.places.insert(key, place)?;
        Ok(())
    }
}
