// Reading the whole configuration.
ghost use Rattle.std.specs.Prelude.{◌≡◌, IfOk, option_map};
ghost use Rattle.serde_json.specs.View.{view};
ghost use Rattle.project_config.specs.Answers.{OrMemory};
ghost use Rattle.project_config.specs.Reading.{at, config_in, if_object, object_in, text_of, config_of, has_order};

use crate::items::{level, options, order};
use crate::rows::{off_form, rows};
use crate::{Config, ConfigFault};
use apt_base::{List, NoMemory};
use serde_json::Value;
use std::alloc::Global;

// An item of the configuration, where it is of its form.
fn at<T: Drop>(alloc: Global, item: Option<T>, place: &str) -> Result<T, ConfigFault>
    ensures { OrMemory result (at place.now item) }
{
    match item {
        Some(item) => Ok(item),
        None => Err(off_form(alloc, place)),
    }
}

fn config_in(alloc: Global, value: &Value) -> Result<Config, ConfigFault>
    ensures { OrMemory result (config_in (view value.now)) }
{
    let level = at(alloc, level(value), "/level")?;
    let order = at(alloc, order(alloc, value)?, "/order")?;
    let options = at(alloc, options(alloc, value)?, "/options")?;
    let processors = rows(alloc, value)?;
    Ok(Config {
        level,
        order,
        options,
        processors,
    })
}

// A value that is an object.
fn if_object(value: Value) -> Option<Value>
    ensures { option_map view result ≡ if_object (view value) }
{
    if value.is_object() { Some(value) } else { None }
}

fn object_in(alloc: Global, bytes: &[u8]) -> Result<Option<Value>, NoMemory>
    ensures { IfOk result (λ object. option_map view object ≡ object_in bytes.now) }
{
    match Value::from_slice(alloc, bytes) {
        Ok(value) => Ok(if_object(value)),
        Err(fault) => {
            if fault.is_memory() {
                Err(NoMemory)
            } else {
                Ok(None)
            }
        }
    }
}

// An absent file is read as an object of nothing.
fn text_of(file: &Option<List<u8>>) -> &[u8]
    ensures { result.now ≡ text_of file.now }
{
    match file {
        None => b"{}",
        Some(bytes) => bytes.as_slice(),
    }
}

/// Whether `apt.json` is an object that has `order`, whatever that is. The processors are then not those of the file of services, which need not be read.
///
/// An absent file has none, and bytes that are no object have none.
pub fn has_order(alloc: Global, file: &Option<List<u8>>) -> Result<bool, NoMemory>
    ensures { IfOk result (λ answer. answer ≡ has_order file.now) }
{
    match object_in(alloc, text_of(file))? {
        None => Ok(false),
        Some(object) => Ok(object.get("order").is_some()),
    }
}

/// The configuration that `apt.json` is. An absent file is read as `{}`.
///
/// Its items are read in this order: `level`, `order`, `options`, and `processors` with its rows, which ascend by their names, of each first its `command` and then its `version`. Other items are passed over.
///
/// `Json` comes exactly where the bytes are no UTF-8 text that `serde_json` reads as an object, and `Item` exactly where an item is off its form, with the place of the first such item. No other fault comes but out of memory.
pub fn parse_config(alloc: Global, file: &Option<List<u8>>) -> Result<Config, ConfigFault>
    ensures { OrMemory result (config_of file.now) }
{
    match object_in(alloc, text_of(file))? {
        None => Err(ConfigFault::Json),
        Some(object) => config_in(alloc, &object),
    }
}
