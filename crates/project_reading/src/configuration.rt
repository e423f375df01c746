// The configuration of a project.
ghost use Rattle.std.specs.Prelude.{◌≡◌, ◌≤◌, [], length, map, IfOk, IfErr, None, false};
ghost use Rattle.apt_outside.specs.Count.{Told};
ghost use Rattle.tree_store.specs.Config.{path_of};
ghost use Rattle.project_config.specs.Settled.{IsSettled};
ghost use Rattle.project_units.specs.Refusals.{BadConfig};
ghost use Rattle.project_units.specs.Plans.{plan_of};
ghost use Rattle.project_reading.specs.Configuration.{files_of, said, settings_in, plan_in, fitting, plan_by, key_processor, key_in, IsKeyOf};
ghost use Rattle.project_reading.specs.Verdicts.{verdict, shown_place, named_in, Refused, OrMemory, is_tree, HasCause};
ghost use Rattle.project_reading.specs.Endings.{ended, EndsEarly};
ghost use Rattle.project_reading.specs.Entering.{of_read, of_config, IsDueRead, ComesAs, ComesTo, shown_configuration, IsWithin};

use crate::Status;
use crate::status::{Place, past_limit};
use apt_base::{List, Name, NoMemory, What};
use apt_outside::Tree;
use project_config::{ConfigFault, Processor, Settings, has_order, read_settings};
use project_units::inits_fit;
use record_forms::{Key, KeyProcessor};
use std::alloc::Global;
use tree_store::{ConfigFile, ConfigReadFault, RawLists, read_config, read_lists};

/// The files of the configuration, as they stand in the tree.
#[derive(Drop)]
pub struct RawConfiguration {
    /// The bytes of `apt.json`, and None where it is absent.
    pub config: Option<List<u8>>,
    /// Those of the file of services, where `apt.json` has no order, and of the file of kinds.
    pub lists: RawLists,
}

// ---- refusals

impl From<ConfigReadFault> for Status {
    ghost from_gives = { λ fault e. verdict e ≡ of_read fault };

    fn from(fault: ConfigReadFault) -> Status {
        match fault {
            ConfigReadFault::Failed => Status::TreeFault,
            ConfigReadFault::TooLarge(_) => past_limit(What::ConfigBytes),
            ConfigReadFault::Memory => Status::Memory,
        }
    }
}

// A file of the configuration is off its form at this place, or `Memory` where there is none for its path.
fn bad_config(alloc: Global, file: ConfigFile, place: Place) -> Status
    ensures is { OrMemory (Refused (BadConfig (path_of file) (shown_place place))) (verdict result) }
    ensures early { EndsEarly (λ _. false) (verdict result) }
    ensures unnamed { named_in (verdict result) ≡ None }
{
    match Name::new(alloc, file.path()) {
        Ok(path) => Status::BadConfig { path, place },
        Err(_) => Status::Memory,
    }
}

// The end of a call by what is wrong with the configuration, or `Memory` where there is none for a path.
fn refused(alloc: Global, fault: ConfigFault) -> Status
    ensures is { OrMemory (of_config fault) (verdict result) }
    ensures early { EndsEarly (λ _. false) (verdict result) }
    ensures unnamed { named_in (verdict result) ≡ None }
{
    match fault {
        ConfigFault::Json => bad_config(alloc, ConfigFile::Config, Place::Json),
        ConfigFault::Item(item) => bad_config(alloc, ConfigFile::Config, Place::Item(item)),
        ConfigFault::ServiceLine(line) => {
            bad_config(alloc, ConfigFile::Services, Place::Line(line))
        }
        ConfigFault::KindLine(line) => bad_config(alloc, ConfigFile::Kinds, Place::Line(line)),
        ConfigFault::TooManyProcessors => past_limit(What::Processors),
        ConfigFault::UnknownProcessor(name) => Status::UnknownProcessor { name },
        ConfigFault::Memory => Status::Memory,
    }
}

// ---- the files

/// Reads the files of the configuration, that of services only where `apt.json` has no order. None behind one that was
/// refused is read.
pub fn read_files<T: Tree>(alloc: Global, tree: &mut T) -> Result<RawConfiguration, Status>
    ensures cause { HasCause is_tree (ended result) (T.faults tree.old) (T.faults tree.new) }
    ensures early { IfErr result (λ status. EndsEarly is_tree (verdict status)) }
    ensures unnamed { IfErr result (λ status. named_in (verdict status) ≡ None) }
    ensures due { IfErr result (λ status. IsDueRead (verdict status)) }
    ensures same { Told T.tells (T.files tree.new ≡ T.files tree.old) }
    ensures within { IfOk result IsWithin }
    ensures files { Told T.tells (ComesAs (files_of (T.files tree.old)) shown_configuration result) }
{
    let config = read_config(tree)?;
    let ordered = has_order(alloc, &config)?;
    let lists = read_lists(tree, !ordered)?;
    Ok(RawConfiguration { config, lists })
}

// ---- what they say

fn said(file: &Option<List<u8>>) -> &[u8]
    ensures { result.now ≡ said file.now }
{
    match file {
        None => b"",
        Some(bytes) => bytes.as_slice(),
    }
}

fn settings_in(
    alloc: Global,
    raw: &RawConfiguration,
    options: &List<(Name, Name)>,
) -> Result<Settings, Status>
    requires { IsWithin raw.now }
    ensures early { IfErr result (λ status. EndsEarly (λ _. false) (verdict status)) }
    ensures unnamed { IfErr result (λ status. named_in (verdict status) ≡ None) }
    ensures due { IfErr result (λ status. IsDueRead (verdict status)) }
    ensures settled { IfOk result IsSettled }
    ensures settings { ComesTo (settings_in options.now (shown_configuration raw.now)) result }
{
    let services = said(&raw.lists.services);
    let kinds = said(&raw.lists.kinds);
    match read_settings(alloc, &raw.config, services, kinds, options.as_slice()) {
        Ok(settings) => Ok(settings),
        Err(fault) => Err(refused(alloc, fault)),
    }
}

// ---- the key

fn key_processor(processor: Processor) -> KeyProcessor
    ensures { result ≡ key_processor processor }
{
    let Processor {
        name,
        command,
        version,
        kind,
    } = processor;
    KeyProcessor {
        name,
        command,
        version,
        kind,
    }
}

fn key_processors(
    alloc: Global,
    processors: List<Processor>,
) -> Result<List<KeyProcessor>, NoMemory>
    ensures { IfOk result (λ list. list ≡ map key_processor processors) }
{
    let mut list = List::new(alloc);
    for processor in processors.into_vec() {
        list.push(key_processor(processor))?;
    }
    Ok(list)
}

fn key_by(alloc: Global, settings: Settings) -> Result<Key, NoMemory>
    ensures { IfOk result (λ key. key ≡ key_in settings []) }
{
    let Settings {
        level,
        options,
        processors,
    } = settings;
    let list = key_processors(alloc, processors)?;
    Ok(Key {
        level,
        options,
        processors: list,
        stubs: List::new(alloc),
    })
}

// The key, where the first frame to each of its processors is within the limit of a frame.
fn fitting(alloc: Global, settings: Settings) -> Result<Key, Status>
    requires { IsSettled settings }
    ensures early { IfErr result (λ status. EndsEarly (λ _. false) (verdict status)) }
    ensures unnamed { IfErr result (λ status. named_in (verdict status) ≡ None) }
    ensures due { IfErr result (λ status. IsDueRead (verdict status)) }
    ensures few { IfOk result (λ key. length key.processors ≤ 64) }
    ensures plan { ComesAs (fitting (plan_in settings)) plan_of result }
    ensures whole { IfOk result (λ key. key ≡ key_in settings []) }
{
    let key = key_by(alloc, settings)?;
    let fit = inits_fit(alloc, &key)?;
    if fit {
        return Ok(key);
    }
    Err(past_limit(What::Frame))
}

/// The key of a build with this configuration and these options of the words over its own, without stub files.
pub fn key_of(
    alloc: Global,
    raw: &RawConfiguration,
    options: &List<(Name, Name)>,
) -> Result<Key, Status>
    requires { IsWithin raw.now }
    ensures early { IfErr result (λ status. EndsEarly (λ _. false) (verdict status)) }
    ensures unnamed { IfErr result (λ status. named_in (verdict status) ≡ None) }
    ensures due { IfErr result (λ status. IsDueRead (verdict status)) }
    ensures few { IfOk result (λ key. length key.processors ≤ 64) }
    ensures plan { ComesAs (plan_by options.now (shown_configuration raw.now)) plan_of result }
    ensures whole { IfOk result (IsKeyOf options.now (shown_configuration raw.now) []) }
{
    let settings = settings_in(alloc, raw, options)?;
    fitting(alloc, settings)
}
