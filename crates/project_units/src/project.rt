// What a build depends on.
ghost use Rattle.std.specs.Prelude.{◌≡◌, IfOk};

use apt_base::NoMemory;
use record_forms::Key;
use std::alloc::Global;
use unit_locations::LocatedTable;

/// A project, read.
#[derive(Drop)]
pub struct Project {
    /// All on which its build depends, but for its sources.
    pub key: Key,
    /// The units of the stub files of its key, all among the stubs, each with the path of its file and its lines.
    pub stubs: LocatedTable,
    /// The same units, and among the sources those of its source files.
    pub initial: LocatedTable,
}

impl Project {
    /// An equal project.
    pub fn copy(&self, alloc: Global) -> Result<Project, NoMemory>
        ensures { IfOk result (λ project. project ≡ self.now) }
    {
        Ok(Project {
            key: self.key.copy(alloc)?,
            stubs: self.stubs.copy(alloc)?,
            initial: self.initial.copy(alloc)?,
        })
    }
}
