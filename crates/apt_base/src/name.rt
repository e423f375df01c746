// A text that contracts see as its bytes.
ghost use Rattle.std.specs.Prelude.{◌≡◌, IfOk, string_bytes};

use crate::{List, NoMemory};
use std::alloc::Global;
use std::marker::Model;

/// A text that contracts see as its bytes.
#[derive(Drop)]
pub struct Name {
    alloc: Global,
    text: String,
}

impl Model for Name {
    ghost use Rattle.std.specs.Prelude.{List, ℕ, string_bytes};

    ghost Value = { List ℕ };

    ghost view = { λ a. string_bytes a.text };
}

impl Name {
    /// A copy of the text.
    pub fn new(alloc: Global, text: &str) -> Result<Name, NoMemory>
        ensures { IfOk result (λ name. name ≡ text.now) }
    {
        Ok(Name {
            alloc,
            text: String::from_str(alloc, text)?,
        })
    }

    /// The text itself. It takes no memory.
    pub fn from_string(alloc: Global, text: String) -> Name
        ensures { result ≡ string_bytes text }
    {
        Name { alloc, text }
    }

    /// The text.
    pub fn as_str(&self) -> &str
        ensures { result.now ≡ self.now }
    {
        self.text.as_str()
    }

    /// An equal name.
    pub fn copy(&self) -> Result<Name, NoMemory>
        ensures { IfOk result (λ name. name ≡ self.now) }
    {
        Name::new(self.alloc, self.text.as_str())
    }
}

/// An equal text, where there is one.
pub fn copy_optional_name(text: &Option<Name>) -> Result<Option<Name>, NoMemory>
    ensures { IfOk result (λ copy. copy ≡ text.now) }
{
    match text {
        None => Ok(None),
        Some(text) => Ok(Some(text.copy()?)),
    }
}

/// Equal texts in the same order.
pub fn copy_names(alloc: Global, names: &[Name]) -> Result<List<Name>, NoMemory>
    ensures { IfOk result (λ list. list ≡ names.now) }
{
    let mut copies = List::new(alloc);
    for each in names {
        copies.push(each.copy()?)?;
    }
    Ok(copies)
}
