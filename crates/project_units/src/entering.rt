// How units enter the type table, and created sources.
ghost use Rattle.std.specs.Prelude.{◌≡◌, map, IfOk, IfErr, OnOk, None};
ghost use Rattle.std.specs.Option.{unwrap_or};
ghost use Rattle.std.specs.FinMap as fin;
ghost use Rattle.decl_grammar.specs.Grammar.{line_alone};
ghost use Rattle.decl_parser.specs.Parsed.{shown_parsed};
ghost use Rattle.file_readings.specs.FileReadings.{Parses};
ghost use Rattle.element_table.specs.UnitNames.{unit_name};
ghost use Rattle.element_table.specs.declared.fault.EnterFault.TheVariants.{Duplicate};
ghost use Rattle.apt_base.specs.Names.{with_names};
ghost use Rattle.project_units.specs.Units.{first_path, enter_unit, enter_units, enter_sources, created_reading, enter_all};
ghost use Rattle.project_units.specs.Creations.{sources_among};
ghost use Rattle.project_units.specs.Refusals.{named_by, OrMemory};
ghost use Rattle.project_units.specs.Faults.{stop_of};
ghost use Rattle.project_units.specs.Entering.{Reports, EntersUnits, EntersNamed, of_unread, of_units, GathersParsed, GathersSource, EntersAll};

use crate::limits::limit_of;
use crate::refusal::Refusal;
use crate::sources::sources_among;
use crate::unit_fault::UnitFault;
use apt_base::{List, MAX_FILE_BYTES, Name, Names, NoMemory, What};
use decl_grammar::Lines;
use decl_parser::{ParseFault, Parsed};
use decl_tree::{Shared, Unit};
use element_table::{EnterFault, Part, unit_name};
use file_readings::read_declarations;
use std::alloc::Global;
use unit_locations::{LocatedTable, UnitLocation};
use wire_frames::Creation;

// ---- units

// The path of the file that gave the unit of this name, or this one where the table has none.
fn first_path(table: &LocatedTable, name: &Name, path: &Name) -> Result<Name, NoMemory>
    ensures { IfOk result (λ first. first ≡ first_path table.now name.now path.now) }
{
    match table.path_of(name) {
        Some(first) => first.copy(),
        None => path.copy(),
    }
}

// The fault by a unit of the file at this path whose name is there.
fn duplicate(
    alloc: Global,
    table: &LocatedTable,
    path: &Name,
    unit: &Unit,
) -> Result<UnitFault, NoMemory>
    ensures { IfOk result (Reports table.now path.now (Duplicate unit.now)) }
{
    let name = unit_name(alloc, unit)?;
    let first = first_path(table, &name, path)?;
    Ok(UnitFault::Duplicate { name, first })
}

fn reported(alloc: Global, table: &LocatedTable, path: &Name, fault: &EnterFault) -> UnitFault
    ensures { Reports table.now path.now fault.now result }
{
    match fault {
        EnterFault::Duplicate(unit) => match duplicate(alloc, table, path, unit) {
            Ok(told) => told,
            Err(_) => UnitFault::Memory,
        },
        EnterFault::TooMany(_) => UnitFault::TooMany,
        EnterFault::Memory(_) => UnitFault::Memory,
    }
}

// A location in the file at this path, which is shared.
fn located(alloc: Global, path: &Shared<Name>, lines: Lines) -> Result<UnitLocation, NoMemory>
    ensures { IfOk result (λ location. location ≡ record { path = path.now; lines = lines }) }
{
    Ok(UnitLocation {
        path: path.share()?,
        lines: Shared::new(alloc, lines)?,
    })
}

// A function of its own, so that what drops a unit is proved once.
fn let_go(_fault: EnterFault) {}

fn enter_unit(
    alloc: Global,
    table: &mut LocatedTable,
    part: Part,
    path: &Shared<Name>,
    unit: Unit,
    lines: Lines,
) -> Result<(), UnitFault>
    ensures { EntersUnits (enter_unit part path.now table.old (unit, lines)) table.new result }
{
    let Ok(location) = located(alloc, path, lines) else {
        drop(unit);
        return Err(UnitFault::Memory);
    };
    match table.enter(part, unit, location) {
        Ok(()) => Ok(()),
        Err(fault) => {
            let told = reported(alloc, table, path.get(), &fault);
            let_go(fault);
            Err(told)
        }
    }
}

// The lines of the next unit, or line 1 alone where there are none.
fn or_first_line(alloc: Global, lines: Option<Lines>) -> Lines
    ensures { result ≡ unwrap_or lines (line_alone 1) }
{
    match lines {
        Some(lines) => lines,
        None => {
            let children = List::new(alloc);
            Lines { line: 1, children }
        }
    }
}

/// Enters the units of the file at this path into this part of the table, one after another, each with the path and its
/// lines. The path is shared among their locations. The first of these holds:
///
/// - `Duplicate`: the table has the name of one of them, in either part, or an earlier one has it. The path of the file
///   that gave it first comes with it, in the second case that of this file.
/// - `TooMany`: with the types of one of them the table would have more than 50,000.
/// - all are entered.
///
/// The first two come at the first unit to which they apply, and the units before it have been entered then. `Memory`
/// may come in place of each of these.
pub fn enter_units(
    alloc: Global,
    table: &mut LocatedTable,
    part: Part,
    path: &Shared<Name>,
    parsed: Parsed,
) -> Result<(), UnitFault>
    ensures { EntersUnits (enter_units part path.now table.old (shown_parsed parsed)) table.new result }
{
    let Parsed { units, lines } = parsed;
    let mut all_lines = lines.into_vec().into_iter();
    for unit in units.into_vec() {
        let lines = or_first_line(alloc, all_lines.next());
        enter_unit(alloc, table, part, path, unit, lines)?;
    }
    Ok(())
}

fn names_of(alloc: Global, units: &[Unit]) -> Result<List<Name>, NoMemory>
    ensures { IfOk result (λ names. names ≡ map unit_name units.now) }
{
    let mut names = List::new(alloc);
    for unit in units {
        names.push(unit_name(alloc, unit)?)?;
    }
    Ok(names)
}

// ---- created sources

// What a created source at this path of the output declares.
fn read_created(alloc: Global, path: &str, content: &[u8]) -> Result<Parsed, ParseFault>
    ensures { Parses (created_reading path.now content.now) result }
{
    let count = content.len();
    if count > MAX_FILE_BYTES {
        return Err(ParseFault::TooLarge {
            what: What::FileBytes,
        });
    }
    read_declarations(alloc, path, content)
}

// The refusal of a run whose created source at this path gives no units, or `Memory` where there is none for the path.
fn unread(alloc: Global, path: &str, fault: ParseFault) -> Refusal
    ensures is { OrMemory (of_unread path.now fault) (stop_of result) }
    ensures unnamed { named_by (stop_of result) ≡ None }
{
    match fault {
        ParseFault::Bad { place } => match Name::new(alloc, path) {
            Ok(path) => Refusal::BadGenerated { path, place },
            Err(_) => Refusal::Memory,
        },
        ParseFault::TooLarge { what } => Refusal::TooLarge {
            what,
            limit: limit_of(what),
        },
        ParseFault::Memory => Refusal::Memory,
    }
}

// The refusal of a run one of whose created units is not entered.
fn unentered(fault: UnitFault) -> Refusal
    ensures is { stop_of result ≡ of_units fault }
    ensures unnamed { named_by (stop_of result) ≡ None }
{
    match fault {
        UnitFault::Duplicate { name, first } => {
            drop(first);
            Refusal::GeneratedDuplicate { name }
        }
        UnitFault::TooMany => Refusal::TooLarge {
            what: What::Types,
            limit: limit_of(What::Types),
        },
        UnitFault::Memory => Refusal::Memory,
    }
}

fn add_names(roots: &mut Names, names: &[Name]) -> Result<(), NoMemory>
    ensures { OnOk result (roots.new ≡ with_names roots.old names.now) }
{
    for name in names {
        roots.insert(name.as_str())?;
    }
    Ok(())
}

// Enters the units of a file among the sources, and gives their names, in order.
fn enter_sources(
    alloc: Global,
    table: &mut LocatedTable,
    path: &Shared<Name>,
    parsed: Parsed,
) -> Result<List<Name>, UnitFault>
    ensures { EntersNamed (enter_sources path.now table.old (shown_parsed parsed)) table.new result }
{
    let names = names_of(alloc, parsed.units.as_slice())?;
    enter_units(alloc, table, Part::Source, path, parsed)?;
    Ok(names)
}

fn shared_path(alloc: Global, path: &str) -> Result<Shared<Name>, NoMemory>
    ensures { IfOk result (λ shared. shared ≡ path.now) }
{
    Shared::new(alloc, Name::new(alloc, path)?)
}

// Enters the units of the created source at this path among the sources, and adds their names.
fn gather(
    alloc: Global,
    table: &mut LocatedTable,
    roots: &mut Names,
    path: &str,
    parsed: Parsed,
) -> Result<(), Refusal>
    ensures unnamed { IfErr result (λ refusal. named_by (stop_of refusal) ≡ None) }
    ensures gathers { GathersParsed path.now parsed table.old roots.old table.new roots.new result }
{
    let Ok(path) = shared_path(alloc, path) else {
        drop(parsed);
        return Err(Refusal::Memory);
    };
    match enter_sources(alloc, table, &path, parsed) {
        Ok(names) => {
            add_names(roots, names.as_slice())?;
            Ok(())
        }
        Err(fault) => Err(unentered(fault)),
    }
}

/// Reads a created source, and enters its units.
fn enter_created(
    alloc: Global,
    table: &mut LocatedTable,
    roots: &mut Names,
    path: &str,
    content: &[u8],
) -> Result<(), Refusal>
    ensures unnamed { IfErr result (λ refusal. named_by (stop_of refusal) ≡ None) }
    ensures gathers { GathersSource path.now content.now table.old roots.old table.new roots.new result }
{
    match read_created(alloc, path, content) {
        Ok(parsed) => gather(alloc, table, roots, path, parsed),
        Err(fault) => Err(unread(alloc, path, fault)),
    }
}

/// Reads the sources among files that were made in order of their paths, enters their units, each with the path of its
/// source below the output and its lines, and gives the names of these, ascending. Each source is read where it lies,
/// and its units are entered before the next one is read.
pub fn enter_all(
    alloc: Global,
    table: &mut LocatedTable,
    made: &[Creation],
) -> Result<List<Name>, Refusal>
    ensures unnamed { IfErr result (λ refusal. named_by (stop_of refusal) ≡ None) }
    ensures enters { EntersAll (enter_all table.old (fin.entries (sources_among made.now))) table.new result }
{
    let sources = sources_among(alloc, made)?;
    let mut roots = Names::new(alloc);
    for (path, content) in sources.into_map() {
        enter_created(alloc, table, &mut roots, path.as_str(), content)?;
    }
    Ok(roots.list()?)
}
