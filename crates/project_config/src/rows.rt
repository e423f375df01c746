// The rows of the processors.
ghost use Rattle.std.specs.Prelude.{codes, [], Err};
ghost use Rattle.serde_json.specs.View.{view, members_view};
ghost use Rattle.serde_json.specs.Find.{get};
ghost use Rattle.project_config.specs.declared.fault.ConfigFault.TheVariants.{Item};
ghost use Rattle.project_config.specs.Answers.{OrMemory, IsFault};
ghost use Rattle.project_config.specs.Reading.{at, place_in_row, row_items, row_in, rows_of, rows_in};

use crate::items::{command, version};
use crate::{ConfigFault, ProcessorRow};
use apt_base::{List, Name, NoMemory};
use serde_json::{Map, Value};
use std::alloc::Global;

/// The fault of the item at a place.
pub(crate) fn off_form(alloc: Global, place: &str) -> ConfigFault
    ensures { IsFault result (Item place.now) }
{
    match Name::new(alloc, place) {
        Ok(place) => ConfigFault::Item(place),
        Err(NoMemory) => ConfigFault::Memory,
    }
}

// The fault of a row, or of an item in it.
fn off_form_in_row(alloc: Global, name: &str, rest: &str) -> ConfigFault
    ensures { IsFault result (Item (place_in_row name.now rest.now)) }
{
    match format!(in alloc; "/processors/{name}{rest}") {
        Ok(place) => ConfigFault::Item(Name::from_string(alloc, place)),
        Err(_) => ConfigFault::Memory,
    }
}

// An item of a row, where it is of its form.
fn in_row<T: Drop>(alloc: Global, item: Option<T>, name: &str, rest: &str) -> Result<T, ConfigFault>
    ensures { OrMemory result (at (place_in_row name.now rest.now) item) }
{
    match item {
        Some(item) => Ok(item),
        None => Err(off_form_in_row(alloc, name, rest)),
    }
}

fn row_items(alloc: Global, name: &str, row: &Value) -> Result<ProcessorRow, ConfigFault>
    ensures { OrMemory result (row_items name.now (view row.now)) }
{
    let command = in_row(alloc, command(alloc, row)?, name, "/command")?;
    let version = in_row(alloc, version(alloc, row)?, name, "/version")?;
    Ok(ProcessorRow {
        name: Name::new(alloc, name)?,
        command,
        version,
    })
}

fn row_in(alloc: Global, name: &str, row: &Value) -> Result<ProcessorRow, ConfigFault>
    ensures { OrMemory result (row_in name.now (view row.now)) }
{
    if row.is_object() {
        row_items(alloc, name, row)
    } else {
        Err(off_form_in_row(alloc, name, ""))
    }
}

fn rows_of(alloc: Global, members: &Map<String, Value>) -> Result<List<ProcessorRow>, ConfigFault>
    ensures { OrMemory result (rows_of (members_view members.now.entries)) }
{
    let mut rows = List::new(alloc);
    for (name, value) in members {
        let row = row_in(alloc, name.as_str(), value)?;
        rows.push(row)?;
    }
    Ok(rows)
}

/// The rows of a configuration, or the first fault in them.
pub(crate) fn rows(alloc: Global, config: &Value) -> Result<List<ProcessorRow>, ConfigFault>
    ensures { OrMemory result (rows_in (get (codes "processors") (view config.now))) }
{
    match config.get("processors") {
        None => Ok(List::new(alloc)),
        Some(processors) => match processors.as_object() {
            None => Err(off_form(alloc, "/processors")),
            Some(members) => rows_of(alloc, members),
        },
    }
}
