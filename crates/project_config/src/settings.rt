// All that the configuration says of a build.
ghost use Rattle.std.specs.Prelude.{◌≡◌, ◌≤◌, length, IfOk};
ghost use Rattle.project_config.specs.Answers.{OrMemory};
ghost use Rattle.project_config.specs.Discovery.{settings_of};
ghost use Rattle.project_config.specs.Settled.{IsSettled};

use crate::options::copy_options;
use crate::processor::copy_processors;
use crate::{ConfigFault, Processor, discover, override_options, parse_config};
use apt_base::{List, Name, NoMemory};
use std::alloc::Global;

/// The part of a build's key that comes from the configuration and the words.
#[derive(Drop)]
pub struct Settings {
    /// The level of the language.
    pub level: u16,
    /// The options, as keys and their values, ascending by key.
    pub options: List<(Name, Name)>,
    /// The processors, in the order of discovery.
    pub processors: List<Processor>,
}

impl Settings {
    /// Equal settings.
    pub fn copy(&self, alloc: Global) -> Result<Settings, NoMemory>
        ensures { IfOk result (λ settings. settings ≡ self.now) }
    {
        Ok(Settings {
            level: self.level,
            options: copy_options(alloc, self.options.as_slice())?,
            processors: copy_processors(alloc, self.processors.as_slice())?,
        })
    }
}

fn settings_of(
    alloc: Global,
    file: &Option<List<u8>>,
    services: &[u8],
    kinds: &[u8],
    words: &[(Name, Name)],
) -> Result<Settings, ConfigFault>
    requires services { length services.now ≤ 1048576 }
    requires kinds { length kinds.now ≤ 1048576 }
    ensures { OrMemory result (settings_of file.now services.now kinds.now words.now) }
{
    let config = parse_config(alloc, file)?;
    let processors = discover(alloc, &config, services, kinds)?;
    Ok(Settings {
        level: config.level,
        options: override_options(alloc, config.options.as_slice(), words)?,
        processors,
    })
}

/// What the three files of the configuration and the options of the words come to. An absent `apt.json` is read as `{}`, and each other absent file is one without a line.
///
/// `apt.json` is tested first, as `parse_config` says, and then the rest, as `discover` says: the first fault is returned, exactly where there is one. The only other error is out of memory.
///
/// In all settings the level is 11, the options ascend by their keys, and there are at most 64 processors, of different names, each with a program.
pub fn read_settings(
    alloc: Global,
    file: &Option<List<u8>>,
    services: &[u8],
    kinds: &[u8],
    words: &[(Name, Name)],
) -> Result<Settings, ConfigFault>
    requires services { length services.now ≤ 1048576 }
    requires kinds { length kinds.now ≤ 1048576 }
    ensures answer { OrMemory result (settings_of file.now services.now kinds.now words.now) }
    ensures settled { IfOk result IsSettled }
{
    settings_of(alloc, file, services, kinds, words)
}
