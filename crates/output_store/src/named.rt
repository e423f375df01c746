// The files that a record names.
ghost use Rattle.std.specs.Prelude.{◌≡◌, ◌<◌, ◌^◌, ◌++◌, map, All, IfOk, OnOk};
ghost use Rattle.std.specs.Cmp.Lexicographic.{slice_cmp};
ghost use Rattle.std.specs.List.Sorted.{IsStrictlyIncreasing};
ghost use Rattle.std.specs.Ordering.{nat_cmp};
ghost use Rattle.apt_filer.specs.Orders.{in_order};
ghost use Rattle.origin_record.specs.Conditions.{stores_of, stores_in};
ghost use Rattle.output_store.specs.Output.{named_file, named_in, named_less, named_files, AreNumbersOf};
ghost use Rattle.output_store.specs.Publishing.{LeaveFree};

use apt_base::{List, Name, NoMemory};
use record_forms::{Entry, Record, StoredFile};
use std::alloc::Global;
use std::cmp::Ordering;

/// A file of the published output, as the record names it.
#[derive(Drop)]
pub struct NamedFile {
    /// Its path in the output, as `CLASS_OUTPUT/x`.
    pub path: Name,
    /// The number of its store file.
    pub store: u32,
    /// The length of its store file in bytes.
    pub length: u32,
}

fn named_file(file: &StoredFile) -> Result<NamedFile, NoMemory>
    ensures { IfOk result (λ named. named ≡ named_file file.now) }
{
    Ok(NamedFile {
        path: file.path.copy()?,
        store: file.store,
        length: file.length,
    })
}

fn add_named(named: &mut Vec<NamedFile>, files: &[StoredFile]) -> Result<(), NoMemory>
    ensures { OnOk result (named.new.items ≡ named.old.items ++ map named_file files.now) }
{
    for file in files {
        named.push(named_file(file)?)?;
    }
    Ok(())
}

// The files of the entries, as they stand.
fn named_in(alloc: Global, entries: &[Entry]) -> Result<Vec<NamedFile>, NoMemory>
    ensures { IfOk result (λ named. named.items ≡ named_in entries.now) }
{
    let mut named = Vec::new(alloc);
    for entry in entries {
        add_named(&mut named, entry.files.as_slice())?;
    }
    Ok(named)
}

fn compare_paths(one: &NamedFile, other: &NamedFile) -> Ordering
    ensures { result ≡ slice_cmp nat_cmp one.now.path other.now.path }
{
    one.path.as_str().cmp(other.path.as_str())
}

fn sort(named: &mut Vec<NamedFile>) -> Result<(), NoMemory>
    ensures { OnOk result (named.new.items ≡ in_order named_less named.old.items) }
{
    named.sort_by(compare_paths)?;
    Ok(())
}

/// The files that a record names, in the order of the bytes of their paths. It fails only when memory runs out.
#[tactic(auto, unfolding(crate::specs::Output::named_files))]
pub fn named_files(alloc: Global, record: &Record) -> Result<List<NamedFile>, NoMemory>
    ensures { IfOk result (λ named. named ≡ named_files record.now) }
{
    let mut named = named_in(alloc, record.entries.as_slice())?;
    sort(&mut named)?;
    Ok(List::from_vec(named))
}

fn add_stores(numbers: &mut Vec<u32>, files: &[StoredFile]) -> Result<(), NoMemory>
    ensures { OnOk result (numbers.new.items ≡ numbers.old.items ++ stores_of files.now) }
{
    for file in files {
        numbers.push(file.store)?;
    }
    Ok(())
}

fn stores_in(alloc: Global, entries: &[Entry]) -> Result<Vec<u32>, NoMemory>
    ensures { IfOk result (λ numbers. numbers.items ≡ stores_in entries.now) }
{
    let mut numbers = Vec::new(alloc);
    for entry in entries {
        add_stores(&mut numbers, entry.files.as_slice())?;
    }
    Ok(numbers)
}

// Numbers of 32 bits are below 2^32.
fn are_small(numbers: &[u32])
    ensures { All (λ n. n < 2 ^ 32) numbers.now }
{}

/// The numbers of the store files that a record names, strictly ascending. A new store file takes none of them: the record
/// names no store file of another number. It fails only when memory runs out.
pub fn numbers_of(alloc: Global, record: &Record) -> Result<List<u32>, NoMemory>
    ensures ascending { IfOk result IsStrictlyIncreasing }
    ensures numbers { IfOk result (λ numbers. AreNumbersOf record.now numbers) }
    ensures free { IfOk result (λ numbers. LeaveFree record.now numbers) }
{
    let mut numbers = stores_in(alloc, record.entries.as_slice())?;
    numbers.sort_unstable();
    numbers.dedup();
    are_small(numbers.as_slice());
    Ok(List::from_vec(numbers))
}
