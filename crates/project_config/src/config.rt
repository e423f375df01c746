// What a configuration holds.
ghost use Rattle.std.specs.Prelude.{◌≡◌, IfOk};

use crate::options::copy_options;
use apt_base::{List, Name, NoMemory, copy_names};
use std::alloc::Global;

/// How a processor is started, as the configuration says.
#[derive(Drop)]
pub struct ProcessorRow {
    /// The name of the processor.
    pub name: Name,
    /// The words of its command: a program and its arguments, at least one.
    pub command: List<Name>,
    /// The text that stands for the version of the program.
    pub version: Name,
}

impl ProcessorRow {
    /// An equal row.
    pub fn copy(&self, alloc: Global) -> Result<ProcessorRow, NoMemory>
        ensures { IfOk result (λ row. row ≡ self.now) }
    {
        Ok(ProcessorRow {
            name: self.name.copy()?,
            command: copy_names(alloc, self.command.as_slice())?,
            version: self.version.copy()?,
        })
    }
}

/// What `apt.json` says.
#[derive(Drop)]
pub struct Config {
    /// The level of the language. 11 is the only one.
    pub level: u16,
    /// The names of the processors in their order, each once, or `None` where the file of services says them.
    pub order: Option<List<Name>>,
    /// The options of the processors, ascending by their keys.
    pub options: List<(Name, Name)>,
    /// How processors are started, ascending by their names.
    pub processors: List<ProcessorRow>,
}

fn copy_order(alloc: Global, order: &Option<List<Name>>) -> Result<Option<List<Name>>, NoMemory>
    ensures { IfOk result (λ copy. copy ≡ order.now) }
{
    match order {
        None => Ok(None),
        Some(names) => Ok(Some(copy_names(alloc, names.as_slice())?)),
    }
}

fn copy_rows(alloc: Global, rows: &[ProcessorRow]) -> Result<List<ProcessorRow>, NoMemory>
    ensures { IfOk result (λ list. list ≡ rows.now) }
{
    let mut copies = List::new(alloc);
    for each in rows {
        copies.push(each.copy(alloc)?)?;
    }
    Ok(copies)
}

impl Config {
    /// An equal configuration.
    pub fn copy(&self, alloc: Global) -> Result<Config, NoMemory>
        ensures { IfOk result (λ config. config ≡ self.now) }
    {
        Ok(Config {
            level: self.level,
            order: copy_order(alloc, &self.order)?,
            options: copy_options(alloc, self.options.as_slice())?,
            processors: copy_rows(alloc, self.processors.as_slice())?,
        })
    }
}
