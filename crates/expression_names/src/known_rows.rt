// The fields of types by their names, as far as types were asked.
ghost use Rattle.std.specs.Prelude.{◌≡◌, true, [], IfOk, IfSome};
ghost use Rattle.element_table.specs.TypeTable.{TypeTable};
ghost use Rattle.name_resolve.specs.Placed.{IsPlaced};
ghost use Rattle.name_resolve.specs.Shown.{find_of, finds_of};
ghost use Rattle.expression_names.specs.Fields.{declared_fields};
ghost use Rattle.expression_names.specs.FieldsByName.{are_of, AreRows, AreKnown};

use crate::field_rows::FieldRows;
use apt_base::NoMemory;
use element_table::unit_name;
use name_resolve::{Finds, Found};
use std::alloc::Global;
use std::collections::{BTreeMap, BTreeSet};

/// How many names of fields are remembered at most, of all types together.
const MOST_NAMES: usize = 1_048_576;

/// The fields of types that were asked twice.
#[derive(Drop)]
pub(crate) struct KnownRows<'a> {
    alloc: Global,
    list: Vec<FieldRows<'a>>,
    // Where each type stands in the list, by its key.
    places: BTreeMap<String, usize>,
    // The keys of all types that were asked.
    asked: BTreeSet<String>,
    // How many names more may be remembered.
    room: usize,
}

// A text that no other type has.
fn key_of(alloc: Global, of: &Found<'_>) -> Result<String, NoMemory> {
    let unit = unit_name(alloc, of.unit)?;
    let mut key = String::from_str(alloc, unit.as_str())?;
    for step in of.path.as_slice() {
        let number = *step;
        let text = format!(in alloc; " {number}")?;
        key.push_str(text.as_str())?;
    }
    Ok(key)
}

impl<'a> KnownRows<'a> {
    /// No type was asked yet. It takes no memory.
    pub fn new(alloc: Global) -> Self
        ensures { result.list.items ≡ [] }
    {
        KnownRows {
            alloc,
            list: Vec::new(alloc),
            places: BTreeMap::new(alloc),
            asked: BTreeSet::new(alloc),
            room: MOST_NAMES,
        }
    }

    // What is remembered of this type, if it was asked.
    fn known(&self, of: &Found<'a>) -> Result<Option<&FieldRows<'a>>, NoMemory>
        ensures of { IfOk result (λ found. IfSome found (λ rows. are_of rows.now (find_of of.now) ≡ true)) }
        ensures value { IfOk result (λ found. IfSome found
            (λ rows. (table : TypeTable) → AreKnown table self.now → AreRows table rows.now)) }
    {
        let key = key_of(self.alloc, of)?;
        let Some(place) = self.places.get(key.as_str()) else {
            return Ok(None);
        };
        let Some(rows) = self.list.as_slice().get(*place) else {
            return Ok(None);
        };
        if !rows.are_of(of) {
            return Ok(None);
        }
        Ok(Some(rows))
    }

    /// The fields of this name that a type declares, if it was asked. It takes logarithmic time.
    pub fn find(&self, of: &Found<'a>, name: &str) -> Result<Option<Finds<'a>>, NoMemory>
        ensures { IfOk result (λ found. IfSome found (λ f. (table : TypeTable) → AreKnown table self.now
            → IsPlaced table (find_of of.now) → finds_of f ≡ declared_fields (find_of of.now) name.now)) }
    {
        match self.known(of)? {
            None => Ok(None),
            Some(rows) => {
                let finds = rows.find(self.alloc, name)?;
                Ok(Some(finds))
            }
        }
    }

    /// Whether this type was asked before; then it was.
    pub fn is_asked_again(&mut self, of: &Found<'a>) -> Result<bool, NoMemory>
        ensures { (table : TypeTable) → AreKnown table self.old → AreKnown table self.new }
    {
        let key = key_of(self.alloc, of)?;
        let is_new = self.asked.insert(key)?;
        Ok(!is_new)
    }

    // Forgets all types where there is no room for so many names more.
    fn make_room(&mut self, names: usize)
        ensures { (table : TypeTable) → AreKnown table self.old → AreKnown table self.new }
    {
        if names > self.room {
            self.list.clear();
            self.places.clear();
            self.room = MOST_NAMES;
        }
        self.room = self.room.saturating_sub(names);
    }

    fn put(&mut self, rows: FieldRows<'a>) -> Result<(), NoMemory>
        ensures { (table : TypeTable) → AreKnown table self.old → AreRows table rows.entry
            → AreKnown table self.new }
    {
        let key = key_of(self.alloc, &rows.of)?;
        let place = self.list.len();
        self.list.push(rows)?;
        self.places.insert(key, place)?;
        Ok(())
    }

    /// Remembers a type. Where 1,048,576 names would be remembered with it, all others are forgotten before.
    pub fn add(&mut self, rows: FieldRows<'a>) -> Result<(), NoMemory>
        ensures { (table : TypeTable) → AreKnown table self.old → AreRows table rows.entry
            → AreKnown table self.new }
    {
        self.make_room(rows.held.len());
        self.put(rows)
    }
}
