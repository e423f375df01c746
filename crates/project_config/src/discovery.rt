// Which processors a project has.
ghost use Rattle.std.specs.Prelude.{◌≤◌, length, None};
ghost use Rattle.project_config.specs.declared.fault.ConfigFault.TheVariants.{UnknownProcessor};
ghost use Rattle.project_config.specs.Answers.{OrMemory, IsFault};
ghost use Rattle.project_config.specs.Discovery.{names_in, kinds_in, few, row_named, processor_by, processors_of, discovered};

use crate::lookup::{kind_of, row_named};
use crate::{Config, ConfigFault, Processor, ProcessorRow};
use apt_base::{Kind, List, MAX_PROCESSORS, Name, NoMemory, copy_names};
use processor_claims::{LineFault, kinds, service_names};
use std::alloc::Global;

fn services_in(alloc: Global, file: &[u8]) -> Result<List<Name>, ConfigFault>
    requires { length file.now ≤ 1048576 }
    ensures { OrMemory result (names_in None file.now) }
{
    match service_names(alloc, file) {
        Ok(names) => Ok(names),
        Err(LineFault::Bad { line }) => Err(ConfigFault::ServiceLine(line)),
        Err(LineFault::Memory) => Err(ConfigFault::Memory),
    }
}

fn names_in(
    alloc: Global,
    order: &Option<List<Name>>,
    services: &[u8],
) -> Result<List<Name>, ConfigFault>
    requires { length services.now ≤ 1048576 }
    ensures { OrMemory result (names_in order.now services.now) }
{
    match order {
        None => services_in(alloc, services),
        Some(names) => Ok(copy_names(alloc, names.as_slice())?),
    }
}

fn kinds_in(alloc: Global, file: &[u8]) -> Result<List<(Name, Kind)>, ConfigFault>
    requires { length file.now ≤ 1048576 }
    ensures { OrMemory result (kinds_in file.now) }
{
    match kinds(alloc, file) {
        Ok(kinds) => Ok(kinds),
        Err(LineFault::Bad { line }) => Err(ConfigFault::KindLine(line)),
        Err(LineFault::Memory) => Err(ConfigFault::Memory),
    }
}

fn few(names: List<Name>) -> Result<List<Name>, ConfigFault>
    ensures { OrMemory result (few names) }
{
    if names.len() <= MAX_PROCESSORS {
        Ok(names)
    } else {
        Err(ConfigFault::TooManyProcessors)
    }
}

fn unknown(alloc: Global, name: &str) -> ConfigFault
    ensures { IsFault result (UnknownProcessor name.now) }
{
    match Name::new(alloc, name) {
        Ok(name) => ConfigFault::UnknownProcessor(name),
        Err(NoMemory) => ConfigFault::Memory,
    }
}

fn processor_of(
    alloc: Global,
    rows: &[ProcessorRow],
    kind: Kind,
    name: &str,
) -> Result<Processor, ConfigFault>
    ensures { OrMemory result (processor_by name.now kind (row_named name.now rows.now)) }
{
    match row_named(rows, name) {
        None => Err(unknown(alloc, name)),
        Some(row) => Ok(Processor {
            name: Name::new(alloc, name)?,
            command: copy_names(alloc, row.command.as_slice())?,
            version: row.version.copy()?,
            kind,
        }),
    }
}

fn processors_of(
    alloc: Global,
    rows: &[ProcessorRow],
    kinds: &[(Name, Kind)],
    names: &[Name],
) -> Result<List<Processor>, ConfigFault>
    ensures { OrMemory result (processors_of rows.now kinds.now names.now) }
{
    let mut processors = List::new(alloc);
    for each in names {
        let name = each.as_str();
        let processor = processor_of(alloc, rows, kind_of(kinds, name), name)?;
        processors.push(processor)?;
    }
    Ok(processors)
}

/// The processors of a project in the order of discovery: those that `order` of the configuration names, and those of the file of services where it has none (JSR 269, the discovery process). Each has the row of its name, and the kind that the file of kinds declares of it.
///
/// An absent file is one without a line. The file of services counts only where the configuration has no `order`.
///
/// The first fault in this order is returned, exactly where there is one: `ServiceLine` and `KindLine` with the first line that has no reading, `TooManyProcessors` where more than 64 are named, `UnknownProcessor` with the first name that has no row. The only other error is out of memory.
pub fn discover(
    alloc: Global,
    config: &Config,
    services: &[u8],
    kinds: &[u8],
) -> Result<List<Processor>, ConfigFault>
    requires services { length services.now ≤ 1048576 }
    requires kinds { length kinds.now ≤ 1048576 }
    ensures { OrMemory result (discovered config.now services.now kinds.now) }
{
    let all = names_in(alloc, &config.order, services)?;
    let kinds = kinds_in(alloc, kinds)?;
    let names = few(all)?;
    processors_of(
        alloc,
        config.processors.as_slice(),
        kinds.as_slice(),
        names.as_slice(),
    )
}
