// Names, each once, in order.
ghost use Rattle.std.specs.Prelude.{◌≡◌, [], not, IfOk, OnOk};
ghost use Rattle.std.specs.List.{list_any};
ghost use Rattle.std.specs.Str.{bytes_eq};
ghost use Rattle.processor_claims.specs.Services.{with_name};

use apt_base::{List, Name, NoMemory};
use indexmap::IndexSet;
use std::alloc::Global;
use std::marker::Model;

/// Names, each once, in the order in which they first came. Contracts see them as the list of their bytes.
#[derive(Drop)]
pub struct OrderedNames {
    alloc: Global,
    held: IndexSet<String>,
}

impl Model for OrderedNames {
    ghost use Rattle.std.specs.Prelude.{List, ℕ, map, string_bytes};

    ghost Value = { List (List ℕ) };

    ghost view = { λ a. map string_bytes a.held.keys };
}

impl OrderedNames {
    /// No names. It takes no memory.
    pub fn new(alloc: Global) -> OrderedNames
        ensures { result ≡ [] }
    {
        OrderedNames {
            alloc,
            held: IndexSet::new(alloc),
        }
    }

    /// Adds a name where it is not there yet, and says whether it was not.
    pub fn add(&mut self, name: &str) -> Result<bool, NoMemory>
        ensures new { IfOk result (λ new. new ≡ not (list_any (bytes_eq name.now) self.old)) }
        ensures added { OnOk result (self.new ≡ with_name self.old name.now) }
    {
        let name = String::from_str(self.alloc, name)?;
        Ok(self.held.insert(name)?)
    }

    /// The names in a list.
    pub fn into_list(self) -> Result<List<Name>, NoMemory>
        ensures { IfOk result (λ names. names ≡ self) }
    {
        let OrderedNames { alloc, held } = self;
        let mut names = List::new(alloc);
        for name in held {
            names.push(Name::from_string(alloc, name))?;
        }
        Ok(names)
    }
}
