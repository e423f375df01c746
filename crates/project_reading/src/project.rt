// A project: its configuration, its files and its type tables.
ghost use Rattle.std.specs.Prelude.{◌≡◌, ◌≤◌, length, map, IfOk, IfErr, None};
ghost use Rattle.apt_outside.specs.Count.{Told};
ghost use Rattle.project_reading.specs.Verdicts.{verdict, named_in, is_tree, HasCause};
ghost use Rattle.project_reading.specs.Endings.{ended, EndsEarly};
ghost use Rattle.project_reading.specs.Project.{shown_project, read_of, named, Keeps};
ghost use Rattle.project_reading.specs.Configuration.{with_stubs};
ghost use Rattle.project_reading.specs.Entering.{of_sources, IsDueRead, ComesAs};

use crate::Status;
use crate::configuration::{key_of, read_files};
use crate::sources::{Tables, named_files, tables_of};
use crate::status::past_limit;
use apt_base::{List, Name, NoMemory};
use apt_outside::Tree;
use project_units::Project;
use record_forms::Key;
use std::alloc::Global;
use tree_store::{RawSource, RawSources, SourceReadFault, read_sources};

impl From<SourceReadFault> for Status {
    ghost from_gives = { λ fault e. verdict e ≡ of_sources fault };

    fn from(fault: SourceReadFault) -> Status {
        match fault {
            SourceReadFault::Failed => Status::TreeFault,
            SourceReadFault::TooLarge { what } => past_limit(what),
            SourceReadFault::Memory => Status::Memory,
        }
    }
}

// The key with these stub files.
fn with_stubs(key: Key, stubs: List<(Name, List<u8>)>) -> Key
    ensures { result ≡ with_stubs key stubs }
{
    let Key {
        level,
        options,
        processors,
        stubs: _,
    } = key;
    Key {
        level,
        options,
        processors,
        stubs,
    }
}

// The project with this key, these stub files and the tables of its units.
fn kept(
    alloc: Global,
    key: Key,
    stubs: List<RawSource>,
    tables: Tables,
) -> Result<Project, NoMemory>
    ensures key { IfOk result (λ project. project.key ≡ with_stubs key (map named stubs)) }
    ensures stubs { IfOk result (λ project. project.stubs ≡ tables.stubs) }
    ensures initial { IfOk result (λ project. project.initial ≡ tables.initial) }
{
    let key = with_stubs(key, named_files(alloc, stubs)?);
    let Tables { stubs, initial } = tables;
    Ok(Project {
        key,
        stubs,
        initial,
    })
}

/// Reads a project, with these options of the words over those of its configuration: first all of its files, those of the
/// configuration, the sources, and the stubs; then what they say, the configuration before the stubs and the stubs before the sources;
/// and then their units enter the type table, in this order. Of the files it keeps the bytes of the stubs alone.
pub fn read_project<T: Tree>(
    alloc: Global,
    options: &List<(Name, Name)>,
    tree: &mut T,
) -> Result<Project, Status>
    ensures cause { HasCause is_tree (ended result) (T.faults tree.old) (T.faults tree.new) }
    ensures early { IfErr result (λ status. EndsEarly is_tree (verdict status)) }
    ensures unnamed { IfErr result (λ status. named_in (verdict status) ≡ None) }
    ensures due { IfErr result (λ status. IsDueRead (verdict status)) }
    ensures same { Told T.tells (T.files tree.new ≡ T.files tree.old) }
    ensures few { IfOk result (λ project. length project.key.processors ≤ 64) }
    ensures read { Told T.tells (ComesAs (read_of options.now (T.files tree.old)) shown_project result) }
    ensures keeps { IfOk result (Keeps T.tells options.now (T.files tree.old)) }
{
    let raw = read_files(alloc, tree)?;
    let files = read_sources(alloc, tree)?;
    let key = key_of(alloc, &raw, options)?;
    let RawSources { sources, stubs } = files;
    let tables = tables_of(alloc, stubs.as_slice(), sources)?;
    Ok(kept(alloc, key, stubs, tables)?)
}
