// What texts mean in elements, as far as it was looked up.
ghost use Rattle.std.specs.Prelude.{◌≡◌, [], IfOk, IfSome};
ghost use Rattle.element_table.specs.TypeTable.{TypeTable};
ghost use Rattle.type_resolve.specs.Remembered.{IsText, AreTexts};

use crate::pairs::both;
use crate::spelling::spelled_type;
use apt_base::{ElementRef, NoMemory};
use decl_tree::TypeText;
use std::alloc::Global;
use std::collections::BTreeMap;
use type_mirror::Mirror;
use unit_equality::is_same_type;

// How many texts are remembered at most.
const MOST_TEXTS: usize = 32_768;

/// What a type means where it is written in an element.
#[derive(Drop)]
pub(crate) struct KnownText {
    pub at: ElementRef,
    pub text: TypeText,
    pub meant: Mirror,
}

/// Such texts, each in its element.
#[derive(Drop)]
pub(crate) struct KnownTexts {
    alloc: Global,
    list: Vec<KnownText>,
    // Where each stands in the list, by its key.
    places: BTreeMap<String, usize>,
}

/// Adds what tells an element from all others.
pub(crate) fn add_element(
    alloc: Global,
    key: &mut String,
    at: &ElementRef,
) -> Result<(), NoMemory> {
    key.push_str(at.unit.as_str())?;
    for step in at.path.as_slice() {
        let number = *step;
        let text = format!(in alloc; " {number}")?;
        key.push_str(text.as_str())?;
    }
    Ok(())
}

// A text that no other text in no other element has.
fn key_of(alloc: Global, at: &ElementRef, text: &TypeText) -> Result<String, NoMemory> {
    let mut key = spelled_type(alloc, text)?;
    key.push(' ')?;
    add_element(alloc, &mut key, at)?;
    Ok(key)
}

impl KnownTexts {
    /// Nothing is remembered yet. It takes no memory.
    pub fn new(alloc: Global) -> Self
        ensures { result.list.items ≡ [] }
    {
        KnownTexts {
            alloc,
            list: Vec::new(alloc),
            places: BTreeMap::new(alloc),
        }
    }

    /// What is remembered of this text in this element, if anything.
    pub fn find(&self, at: &ElementRef, text: &TypeText) -> Result<Option<&KnownText>, NoMemory>
        ensures at { IfOk result (λ found. IfSome found (λ known. known.now.at ≡ at.now)) }
        ensures text { IfOk result (λ found. IfSome found (λ known. known.now.text ≡ text.now)) }
        ensures value { IfOk result (λ found. IfSome found
            (λ known. (table : TypeTable) → AreTexts table self.now → IsText table known.now)) }
    {
        let key = key_of(self.alloc, at, text)?;
        let Some(place) = self.places.get(key.as_str()) else {
            return Ok(None);
        };
        let Some(known) = self.list.as_slice().get(*place) else {
            return Ok(None);
        };
        if !known.at.is_equal(at) {
            return Ok(None);
        }
        if !is_same_type(&known.text, text) {
            return Ok(None);
        }
        Ok(Some(known))
    }

    /// Whether as many are remembered as may be: 32,768. It takes no memory.
    pub fn is_full(&self) -> bool {
        self.list.len() >= MOST_TEXTS
    }

    /// Remembers one.
    pub fn add(&mut self, known: KnownText) -> Result<(), NoMemory>
        ensures { (table : TypeTable) → AreTexts table self.old → IsText table known
            → AreTexts table self.new }
    {
        let place = self.list.len();
        let key = key_of(self.alloc, &known.at, &known.text);
        let (known, key) = both(known, key)?;
        self.list.push(known)?;
        self.places.insert(key, place)?;
        Ok(())
    }
}
