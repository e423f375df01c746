// The numbers of the files that a run made.
ghost use Rattle.std.specs.Prelude.{◌≡◌, ℕ, ◌+◌, ◌<◌, ◌≤◌, ◌^◌, ◌↔◌, [], map, All, Contains, IsTrue, IsOk, IfOk, IfSome, IfNone, string_bytes};
ghost use Rattle.std.specs.Bool.{OnTrue};
ghost use Rattle.std.specs.FinMap as fin;
ghost use Rattle.std.specs.List.Sorted.{IsStrictlyIncreasing};
ghost use Rattle.round_engine.specs.Numbering.{AreLeast, AreAhead, IsNextFree, SameFrom};
ghost use Rattle.round_engine.specs.Numbered.{shown_made, number_of, made_with, HasText, IsWritten, BothFit, AllFit};

use apt_base::{List, Name, NoMemory};
use project_units::Files;
use std::alloc::Global;

/// A file that a run made: where it is published, and the number of its file in the store.
#[derive(Drop)]
pub struct Made {
    /// Its path in the output, as `CLASS_OUTPUT/x`.
    pub path: Name,
    /// The number of its store file.
    pub store: u32,
    /// Whether its store file is to be written.
    pub written: bool,
    /// What it holds.
    pub bytes: List<u8>,
}

impl Made {
    /// An equal file.
    pub fn copy(&self, alloc: Global) -> Result<Made, NoMemory>
        ensures { IfOk result (λ made. made ≡ self.now) }
    {
        Ok(Made {
            path: self.path.copy()?,
            store: self.store,
            written: self.written,
            bytes: List::from_vec(self.bytes.as_slice().to_vec(alloc)?),
        })
    }
}

/// Equal files in the same order.
pub fn copy_files(alloc: Global, files: &[Made]) -> Result<List<Made>, NoMemory>
    ensures { IfOk result (λ list. list ≡ files.now) }
{
    let mut copies = List::new(alloc);
    for each in files {
        copies.push(each.copy(alloc)?)?;
    }
    Ok(copies)
}

// The numbers that are left: those from `next` on but for the taken ones.
#[derive(Drop)]
struct Numbers<'a> {
    taken: &'a [u32],
    next: u64,
}

impl Numbers<'_> {
    fn next_is_taken(&self) -> bool
        requires { AreAhead self.now.taken.now self.now.next }
        ensures taken { IsTrue result ↔ Contains self.now.taken.now self.now.next }
        ensures small { OnTrue result (self.now.next < 2 ^ 32) }
    {
        match self.taken {
            [first, ..] => u64::from(*first) == self.next,
            [] => false,
        }
    }

    // The least number that is left, which is then given. None where it would pass the largest `u32`.
    fn give(&mut self) -> Option<u32>
        requires { AreAhead self.old.taken.now self.old.next }
        ensures free { IfSome result (IsNextFree self.old.taken.now self.old.next) }
        ensures given { IfSome result (λ n. self.new.next ≡ n + 1) }
        ensures none { IfNone result ((n : ℕ) → IsNextFree self.old.taken.now self.old.next n → 2 ^ 32 ≤ n) }
        ensures ahead { AreAhead self.new.taken.now self.new.next }
        ensures same { SameFrom self.new.next self.old.taken.now self.new.taken.now }
    {
        while self.next_is_taken() {
            self.taken = &self.taken[1..];
            self.next += 1;
        }
        let number = u32::try_from(self.next).ok()?;
        self.next += 1;
        Some(number)
    }
}

// Whether that number of bytes, or of files, is written as a `u32`.
fn fits(count: usize) -> bool
    ensures { IsTrue result ↔ (count < 2 ^ 32) }
{
    u32::try_from(count).is_ok()
}

// The file under its number, which takes no memory. It fails where the path or the file has 2^32 bytes or more.
fn made_file(alloc: Global, path: String, store: u32, bytes: Vec<u8>) -> Result<Made, NoMemory>
    ensures file { IfOk result (λ file. file ≡ made_with (string_bytes path) store bytes.items) }
    ensures text { IfOk result HasText }
    ensures store { store < 2 ^ 32 }
    ensures fits { IsOk result ↔ BothFit (string_bytes path) bytes.items }
{
    if !fits(path.len()) || !fits(bytes.len()) {
        return Err(NoMemory);
    }
    Ok(Made {
        path: Name::from_string(alloc, path),
        store,
        written: true,
        bytes: List::from_vec(bytes),
    })
}

/// The files that were made, ascending by path, each under the least number that is neither taken nor given to an
/// earlier one.
///
/// It fails only when memory runs out. No memory holds 2^32 files, or a path or a file of 2^32 bytes, or as many files
/// as it takes until no number of 32 bits is left; so these too are answered with `NoMemory`.
pub fn number_files(alloc: Global, taken: &[u32], made: Files) -> Result<List<Made>, NoMemory>
    requires { IsStrictlyIncreasing taken.now }
    ensures files { IfOk result (λ files. map shown_made files ≡ fin.entries made) }
    ensures numbers { IfOk result (λ files. AreLeast taken.now [] (map number_of files)) }
    ensures texts { IfOk result (All HasText) }
    ensures written { IfOk result (All IsWritten) }
    ensures sizes { IfOk result AllFit }
{
    let mut numbers = Numbers { taken, next: 0 };
    let mut files = List::new(alloc);
    for (path, bytes) in made.into_map() {
        let store = numbers.give().ok_or(NoMemory)?;
        files.push(made_file(alloc, path, store, bytes)?)?;
    }
    if !fits(files.len()) {
        return Err(NoMemory);
    }
    Ok(files)
}
