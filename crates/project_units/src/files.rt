// Files by path.
ghost use Rattle.std.specs.Prelude.{◌≡◌, OnOk, string_bytes};
ghost use Rattle.std.specs.FinMap as fin;
ghost use Rattle.apt_outside.specs.Held.{files_of};

use apt_base::NoMemory;
use std::alloc::Global;
use std::collections::BTreeMap;
use std::marker::Model;

/// Files by path, which contracts see as the finite map from the bytes of each path to those of its file.
#[derive(Drop)]
pub struct Files {
    held: BTreeMap<String, Vec<u8>>,
}

impl Model for Files {
    ghost use Rattle.apt_outside.specs.Files.{Files};
    ghost use Rattle.apt_outside.specs.Held.{files_of};
    ghost use Rattle.project_units.specs.Held.{files_code};

    ghost Value = { Files };

    ghost coded = { files_code };

    ghost view = { λ a. files_of a.held };
}

impl Files {
    /// No files.
    pub fn new(alloc: Global) -> Self
        ensures { result ≡ fin.empty }
    {
        Files {
            held: BTreeMap::new(alloc),
        }
    }

    /// Puts a file in the place of what is there. It takes logarithmic time, and copies nothing.
    pub fn insert(&mut self, path: String, bytes: Vec<u8>) -> Result<(), NoMemory>
        ensures { OnOk result (self.new ≡ fin.insert self.old (string_bytes path) bytes.items) }
    {
        self.held.insert(path, bytes)?;
        Ok(())
    }

    /// The same files as a map, which gives them in the order of their paths.
    pub fn into_map(self) -> BTreeMap<String, Vec<u8>>
        ensures { files_of result ≡ self }
    {
        self.held
    }
}
