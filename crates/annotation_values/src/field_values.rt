// What the initialisers of fields were found to be worth.
ghost use Rattle.std.specs.Prelude.{◌≡◌, [], IsTrue, IfOk, IfSome};
ghost use Rattle.element_table.specs.TypeTable.{TypeTable};
ghost use Rattle.name_resolve.specs.Placed.{IsPlaced};
ghost use Rattle.name_resolve.specs.Shown.{find_of};
ghost use Rattle.annotation_values.specs.Remembered.{field_value, IsFieldValue, AreFieldValues};

use crate::sizes::size;
use apt_base::NoMemory;
use decl_tree::ValueText;
use element_table::unit_name;
use name_resolve::{Found, is_same};
use std::alloc::Global;
use std::collections::BTreeMap;
use type_mirror::Value;

/// How many values are remembered at most.
const MOST_FIELD_VALUES: usize = 131_072;

/// How many bytes of values are handed on to the next call at most.
const MOST_BYTES_KEPT: usize = 67_108_864;

/// A constant form, and the final field whose initialiser it is.
#[derive(Drop)]
pub(crate) struct Initialiser<'a> {
    pub at: Found<'a>,
    pub form: &'a ValueText,
}

/// What the initialiser of a final field is worth, where names in it are followed through a number of names.
#[derive(Drop)]
pub(crate) struct FieldValue<'a> {
    pub names: usize,
    pub at: Found<'a>,
    pub value: Option<Value>,
}

/// Such values, as they were found.
#[derive(Drop)]
pub(crate) struct FieldValues<'a> {
    alloc: Global,
    list: Vec<FieldValue<'a>>,
    // Where each stands in the list, by its key.
    places: BTreeMap<String, usize>,
    // What all of them take.
    bytes: usize,
}

// A text that no other field has with this number of names.
fn field_key(alloc: Global, names: usize, at: &Found<'_>) -> Result<String, NoMemory> {
    let mut key = format!(in alloc; "{names} ")?;
    let unit = unit_name(alloc, at.unit)?;
    key.push_str(unit.as_str())?;
    for step in at.path.as_slice() {
        let number = *step;
        let text = format!(in alloc; " {number}")?;
        key.push_str(text.as_str())?;
    }
    Ok(key)
}

// Whether both are the same element.
fn is_same_field(one: &Found<'_>, other: &Found<'_>) -> bool
    ensures { IsTrue result → (table : TypeTable) → IsPlaced table (find_of one.now)
        → IsPlaced table (find_of other.now) → find_of one.now ≡ find_of other.now }
{
    if one.part == other.part {
        return is_same(one, other);
    }
    false
}

// What a value takes, in bytes.
fn size_of(value: &Option<Value>) -> usize {
    match value {
        None => 0,
        Some(value) => size(value),
    }
}

impl<'a> FieldValues<'a> {
    /// Nothing was valued yet. It takes no memory.
    pub fn new(alloc: Global) -> Self
        ensures { result.list.items ≡ [] }
    {
        FieldValues {
            alloc,
            list: Vec::new(alloc),
            places: BTreeMap::new(alloc),
            bytes: 0,
        }
    }

    /// What the field was found to be worth through this many names.
    pub fn find(&self, names: usize, at: &Found<'_>) -> Result<Option<&FieldValue<'a>>, NoMemory>
        ensures { IfOk result (λ found. IfSome found (λ v. (table : TypeTable)
            → AreFieldValues table self.now → IsPlaced table (find_of at.now)
            → v.now.value ≡ field_value table names (find_of at.now))) }
    {
        let key = field_key(self.alloc, names, at)?;
        let Some(place) = self.places.get(key.as_str()) else {
            return Ok(None);
        };
        let Some(value) = self.list.as_slice().get(*place) else {
            return Ok(None);
        };
        if value.names != names {
            return Ok(None);
        }
        if !is_same_field(&value.at, at) {
            return Ok(None);
        }
        Ok(Some(value))
    }

    /// Makes room for the values of a call: where more than 65,536 are remembered, or more than 67,108,864 bytes
    /// of them, all are forgotten.
    pub fn make_room(&mut self)
        ensures { (table : TypeTable) → AreFieldValues table self.old → AreFieldValues table self.new }
    {
        if self.list.len() > MOST_FIELD_VALUES / 2 || self.bytes > MOST_BYTES_KEPT {
            self.list.clear();
            self.places.clear();
            self.bytes = 0;
        }
    }

    // Remembers a value whose key is this text.
    fn put(&mut self, key: String, value: FieldValue<'a>) -> Result<(), NoMemory>
        ensures { (table : TypeTable) → AreFieldValues table self.old → IsFieldValue table value.entry
            → AreFieldValues table self.new }
    {
        let place = self.list.len();
        self.bytes = self.bytes.saturating_add(size_of(&value.value));
        self.list.push(value)?;
        self.places.insert(key, place)?;
        Ok(())
    }

    // The key of a value, where there is room for one more.
    fn free_key(&self, value: &FieldValue<'a>) -> Result<String, NoMemory> {
        if self.list.len() >= MOST_FIELD_VALUES {
            return Err(NoMemory);
        }
        field_key(self.alloc, value.names, &value.at)
    }

    /// Remembers a value. Out of memory beyond 131,072 of them.
    pub fn add(&mut self, value: FieldValue<'a>) -> Result<(), NoMemory>
        ensures { (table : TypeTable) → AreFieldValues table self.old → IsFieldValue table value.entry
            → AreFieldValues table self.new }
    {
        match self.free_key(&value) {
            Ok(key) => self.put(key, value),
            Err(fault) => {
                drop(value);
                Err(fault)
            }
        }
    }
}
