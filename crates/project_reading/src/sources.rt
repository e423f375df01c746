// The sources and the stubs of a project: what they read as, and the type tables that their units make.
ghost use Rattle.std.specs.Prelude.{◌≡◌, ◌≤◌, length, map, IfOk, IfErr, None, false};
ghost use Rattle.apt_base.specs.Limits.{max_file_bytes};
ghost use Rattle.tree_store.specs.Sources.{AreShort, AreAllShort};
ghost use Rattle.project_reading.specs.Verdicts.{verdict, named_in, Refused, OrMemory};
ghost use Rattle.project_reading.specs.Endings.{EndsEarly};
ghost use Rattle.project_reading.specs.Project.{bad_at, read_source, read_all, read_both, enter_next, enter_all, enter_both, tables_of, named, raw_files};
ghost use Rattle.project_reading.specs.Entering.{of_unread, of_units, IsDueRead, ComesTo, Enters, StopsLeast};

use crate::Status;
use crate::status::past_limit;
use apt_base::{List, Name, NoMemory, What};
use decl_parser::{ParseFault, Parsed};
use decl_tree::Shared;
use element_table::Part;
use file_readings::read_declarations;
use project_units::{UnitFault, enter_units};
use std::alloc::Global;
use tree_store::RawSource;
use unit_locations::LocatedTable;

/// A file that was read, a source or a stub.
#[derive(Drop)]
pub struct ReadSource {
    /// Its path in the tree.
    pub path: Name,
    /// What it declares: its units, in order, with the lines of their elements.
    pub declared: Parsed,
}

/// All files of a project that were read.
#[derive(Drop)]
pub struct ReadSources {
    /// The stubs, ascending by path.
    pub stubs: List<ReadSource>,
    /// The sources, ascending by path.
    pub sources: List<ReadSource>,
}

/// The type tables of a project.
#[derive(Drop)]
pub struct Tables {
    /// That of its stubs alone.
    pub stubs: LocatedTable,
    /// That of its stubs and its sources.
    pub initial: LocatedTable,
}

// ---- reading

// The end of a call by a file of this part, at this path, whose first fault is at this place.
fn bad(part: Part, path: Name, place: u32) -> Status
    ensures is { verdict result ≡ Refused (bad_at part path place) }
    ensures early { EndsEarly (λ _. false) (verdict result) }
    ensures unnamed { named_in (verdict result) ≡ None }
{
    match part {
        Part::Source => Status::BadSource { path, place },
        Part::Stub => Status::BadStub { path, place },
    }
}

// The end of a call by a file of this part, at this path, that has no reading, or passes a limit.
fn unread(part: Part, path: Name, fault: ParseFault) -> Status
    ensures is { verdict result ≡ of_unread part path fault }
    ensures early { EndsEarly (λ _. false) (verdict result) }
    ensures unnamed { named_in (verdict result) ≡ None }
{
    match fault {
        ParseFault::Bad { place } => bad(part, path, place),
        ParseFault::TooLarge { what } => past_limit(what),
        ParseFault::Memory => Status::Memory,
    }
}

fn read_source(alloc: Global, part: Part, source: &RawSource) -> Result<ReadSource, Status>
    requires { length source.now.bytes ≤ max_file_bytes }
    ensures read { ComesTo (read_source part source.now) result }
    ensures early { IfErr result (λ status. EndsEarly (λ _. false) (verdict status)) }
    ensures unnamed { IfErr result (λ status. named_in (verdict status) ≡ None) }
{
    let path = source.path.copy()?;
    match read_declarations(alloc, path.as_str(), source.bytes.as_slice()) {
        Ok(declared) => Ok(ReadSource { path, declared }),
        Err(fault) => Err(unread(part, path, fault)),
    }
}

// Reads files of one part one after another, up to the first that is refused.
fn read_each(alloc: Global, part: Part, sources: &[RawSource]) -> Result<List<ReadSource>, Status>
    requires { AreShort sources.now }
    ensures read { ComesTo (read_all part sources.now) result }
    ensures early { IfErr result (λ status. EndsEarly (λ _. false) (verdict status)) }
    ensures unnamed { IfErr result (λ status. named_in (verdict status) ≡ None) }
{
    let mut read = List::new(alloc);
    for source in sources {
        read.push(read_source(alloc, part, source)?)?;
    }
    Ok(read)
}

// Reads all files of one part, or refuses the first that has no reading or passes a limit: all before it were read.
fn read_all(alloc: Global, part: Part, sources: &[RawSource]) -> Result<List<ReadSource>, Status>
    requires { AreShort sources.now }
    ensures read { ComesTo (read_all part sources.now) result }
    ensures early { IfErr result (λ status. EndsEarly (λ _. false) (verdict status)) }
    ensures unnamed { IfErr result (λ status. named_in (verdict status) ≡ None) }
    ensures due { IfErr result (λ status. IsDueRead (verdict status)) }
    ensures least { StopsLeast part sources.now result }
{
    read_each(alloc, part, sources)
}

// Reads a file, and frees its bytes then.
fn read_once(alloc: Global, part: Part, source: RawSource) -> Result<ReadSource, Status>
    requires { length source.bytes ≤ max_file_bytes }
    ensures read { ComesTo (read_source part source) result }
    ensures early { IfErr result (λ status. EndsEarly (λ _. false) (verdict status)) }
    ensures unnamed { IfErr result (λ status. named_in (verdict status) ≡ None) }
{
    read_source(alloc, part, &source)
}

// The same as `read_each`, where the bytes of each file are freed once it is read.
fn read_each_once(
    alloc: Global,
    part: Part,
    sources: List<RawSource>,
) -> Result<List<ReadSource>, Status>
    requires { AreShort sources }
    ensures read { ComesTo (read_all part sources) result }
    ensures early { IfErr result (λ status. EndsEarly (λ _. false) (verdict status)) }
    ensures unnamed { IfErr result (λ status. named_in (verdict status) ≡ None) }
{
    let mut read = List::new(alloc);
    for source in sources.into_vec() {
        read.push(read_once(alloc, part, source)?)?;
    }
    Ok(read)
}

// The same as `read_all`, where the bytes of each file are freed once it is read.
fn read_all_once(
    alloc: Global,
    part: Part,
    sources: List<RawSource>,
) -> Result<List<ReadSource>, Status>
    requires { AreShort sources }
    ensures read { ComesTo (read_all part sources) result }
    ensures early { IfErr result (λ status. EndsEarly (λ _. false) (verdict status)) }
    ensures unnamed { IfErr result (λ status. named_in (verdict status) ≡ None) }
    ensures due { IfErr result (λ status. IsDueRead (verdict status)) }
    ensures least { StopsLeast part sources result }
{
    read_each_once(alloc, part, sources)
}

// Reads all stubs and then all sources, up to the first that is refused. The bytes of the stubs are kept, and those of the sources are freed.
fn read_both(
    alloc: Global,
    stubs: &[RawSource],
    sources: List<RawSource>,
) -> Result<ReadSources, Status>
    requires { AreAllShort (raw_files stubs.now sources) }
    ensures read { ComesTo (read_both (raw_files stubs.now sources)) result }
    ensures early { IfErr result (λ status. EndsEarly (λ _. false) (verdict status)) }
    ensures unnamed { IfErr result (λ status. named_in (verdict status) ≡ None) }
    ensures due { IfErr result (λ status. IsDueRead (verdict status)) }
{
    let stubs = read_all(alloc, Part::Stub, stubs)?;
    let sources = read_all_once(alloc, Part::Source, sources)?;
    Ok(ReadSources { stubs, sources })
}

// ---- entering

// The end of a call by the file at this path whose units are not entered.
fn unentered(path: Name, fault: UnitFault) -> Status
    ensures is { verdict result ≡ of_units path fault }
    ensures early { EndsEarly (λ _. false) (verdict result) }
    ensures unnamed { named_in (verdict result) ≡ None }
{
    match fault {
        UnitFault::Duplicate { name, first } => Status::DuplicateType {
            name,
            first,
            second: path,
        },
        UnitFault::TooMany => past_limit(What::Types),
        UnitFault::Memory => Status::Memory,
    }
}

// The same, or `Memory` where there is none for the path.
fn unentered_at(path: &Name, fault: UnitFault) -> Status
    ensures is { OrMemory (of_units path.now fault) (verdict result) }
    ensures early { EndsEarly (λ _. false) (verdict result) }
    ensures unnamed { named_in (verdict result) ≡ None }
{
    match path.copy() {
        Ok(path) => unentered(path, fault),
        Err(_) => {
            drop(fault);
            Status::Memory
        }
    }
}

// Enters the units of a file, whose path their locations share.
fn enter_next(
    alloc: Global,
    table: &mut LocatedTable,
    part: Part,
    source: ReadSource,
) -> Result<(), Status>
    ensures enters { Enters (enter_next part table.old source) table.new result }
    ensures early { IfErr result (λ status. EndsEarly (λ _. false) (verdict status)) }
    ensures unnamed { IfErr result (λ status. named_in (verdict status) ≡ None) }
{
    let ReadSource { path, declared } = source;
    let Ok(path) = Shared::new(alloc, path) else {
        drop(declared);
        return Err(Status::Memory);
    };
    match enter_units(alloc, table, part, &path, declared) {
        Ok(()) => Ok(()),
        Err(fault) => Err(unentered_at(path.get(), fault)),
    }
}

// Enters the units of files of one part one after another, up to the first that has one which cannot be entered.
fn enter_each(
    alloc: Global,
    table: &mut LocatedTable,
    part: Part,
    sources: List<ReadSource>,
) -> Result<(), Status>
    ensures enters { Enters (enter_all part table.old sources) table.new result }
    ensures early { IfErr result (λ status. EndsEarly (λ _. false) (verdict status)) }
    ensures unnamed { IfErr result (λ status. named_in (verdict status) ≡ None) }
{
    for source in sources.into_vec() {
        enter_next(alloc, table, part, source)?;
    }
    Ok(())
}

// Enters the units of all stubs into an empty table and then those of all sources, or refuses the first file that has one which
// cannot be entered: all before it were.
fn enter_both(alloc: Global, read: ReadSources) -> Result<Tables, Status>
    ensures units { ComesTo (enter_both read) result }
    ensures early { IfErr result (λ status. EndsEarly (λ _. false) (verdict status)) }
    ensures unnamed { IfErr result (λ status. named_in (verdict status) ≡ None) }
{
    let ReadSources { stubs, sources } = read;
    let mut initial = LocatedTable::new(alloc);
    enter_each(alloc, &mut initial, Part::Stub, stubs)?;
    let alone = initial.copy(alloc)?;
    enter_each(alloc, &mut initial, Part::Source, sources)?;
    Ok(Tables {
        stubs: alone,
        initial,
    })
}

/// The type tables of these files, or the first refusal: all files are read before the units of the first are entered, each time the
/// stubs before the sources and each part in order of path. The bytes of each source are freed once it is read.
pub fn tables_of(
    alloc: Global,
    stubs: &[RawSource],
    sources: List<RawSource>,
) -> Result<Tables, Status>
    requires { AreAllShort (raw_files stubs.now sources) }
    ensures tables { ComesTo (tables_of (raw_files stubs.now sources)) result }
    ensures early { IfErr result (λ status. EndsEarly (λ _. false) (verdict status)) }
    ensures unnamed { IfErr result (λ status. named_in (verdict status) ≡ None) }
    ensures due { IfErr result (λ status. IsDueRead (verdict status)) }
{
    let read = read_both(alloc, stubs, sources)?;
    enter_both(alloc, read)
}

// ---- keeping

fn named_file(source: RawSource) -> (Name, List<u8>)
    ensures { result ≡ named source }
{
    let RawSource { path, bytes } = source;
    (path, bytes)
}

/// Files as their paths and their bytes. It fails only when memory runs out.
pub fn named_files(
    alloc: Global,
    sources: List<RawSource>,
) -> Result<List<(Name, List<u8>)>, NoMemory>
    ensures { IfOk result (λ files. files ≡ map named sources) }
{
    let mut files = List::new(alloc);
    for source in sources.into_vec() {
        files.push(named_file(source))?;
    }
    Ok(files)
}
