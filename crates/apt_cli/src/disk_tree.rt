// The files of the current folder.
ghost use Rattle.std.specs.Prelude.{◌≡◌, false};
ghost use Rattle.std.specs.FinMap.{empty};

use crate::faults::Faults;
use crate::files::{Unstored, read_front, remove, replace, write_new};
use crate::folders::files_below;
use crate::messages::{Attempt, Failure};
use crate::refusals::CONFIGURATION;
use apt_outside::{Fault, Tree};
use cli_messages::say_other_items;
use std::io::Stderr;
use std::rt::Files;

/// The files of the current folder, by their paths from there, whose parts are joined by `/`. It tells how often it
/// failed, and not what it holds. What is absent is no failure; what is there and isn't what was asked for is one.
///
/// A file is replaced only once the bytes and the names of all files that were made before are stored, so that a
/// file may name them.
#[derive(Drop)]
pub struct DiskTree<R: Files + AllocGlobal + Drop> {
    pub rt: R,
    pub unstored: Unstored,
    pub faults: Faults,
}

impl<R: Files + AllocGlobal + Drop> DiskTree<R> {
    /// The files of the folder in which the program runs.
    pub fn new(rt: R, messages: Stderr) -> Self
        ensures { result.faults.count ≡ 0 }
    {
        let unstored = Unstored::new(rt.alloc());
        DiskTree {
            rt,
            unstored,
            faults: Faults::new(messages),
        }
    }

    /// Says which items of `apt.json` no build reads, where this is what was found of it.
    fn say_items(&self, path: &str, found: &Result<Option<Vec<u8>>, Failure>) {
        if let Ok(Some(json)) = found {
            if path == CONFIGURATION {
                say_other_items(self.rt.alloc(), self.faults.messages, path, json);
            }
        }
    }
}

impl<R: Files + AllocGlobal + Drop> Tree for DiskTree<R> {
    ghost tells = { false };

    ghost faults = { λ tree. tree.faults.count };

    ghost files = { λ _. empty };

    fn list(&mut self, folder: &str) -> Result<Vec<String>, Fault> {
        let paths = files_below(&self.rt, folder);
        self.faults
            .count_failure(Attempt::new("list", folder), paths)
    }

    fn read(&mut self, path: &str, limit: usize) -> Result<Option<Vec<u8>>, Fault> {
        let found = read_front(&self.rt, path, limit);
        self.say_items(path, &found);
        self.faults.count_failure(Attempt::new("read", path), found)
    }

    fn write_new(&mut self, path: &str, bytes: &[u8]) -> Result<(), Fault> {
        let written = write_new(&self.rt, &mut self.unstored, path, bytes);
        self.faults
            .count_failure(Attempt::new("write", path), written)
    }

    fn replace(&mut self, path: &str, bytes: &[u8]) -> Result<(), Fault> {
        let replaced = replace(&self.rt, &mut self.unstored, path, bytes);
        self.faults
            .count_failure(Attempt::new("replace", path), replaced)
    }

    fn remove(&mut self, path: &str) -> Result<(), Fault> {
        let removed = Failure::of(remove(&self.rt, path));
        self.faults
            .count_failure(Attempt::new("remove", path), removed)
    }
}
