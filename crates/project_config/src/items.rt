// The items of the configuration, each as it is read from an object.
ghost use Rattle.std.specs.Prelude.{◌≡◌, codes, [], IfOk, option_and_then};
ghost use Rattle.serde_json.specs.View.{view};
ghost use Rattle.serde_json.specs.Find.{get};
ghost use Rattle.project_config.specs.Items.{level_in, texts_in, order_in, if_names, options_in, if_some_word, command_in, version_in, are_names_after};

use crate::texts::{named_texts, texts_in};
use apt_base::{List, Name, NoMemory, is_dotted};
use processor_claims::OrderedNames;
use serde_json::Value;
use std::alloc::Global;

/// The level, or `None` where it is off its form.
pub(crate) fn level(config: &Value) -> Option<u16>
    ensures { result ≡ level_in (get (codes "level") (view config.now)) }
{
    match config.get("level") {
        None => Some(11),
        Some(level) => match level.as_u64() {
            None => None,
            Some(number) => { if number == 11 { Some(11) } else { None } }
        },
    }
}

fn are_names(alloc: Global, texts: &[Name]) -> Result<bool, NoMemory>
    ensures { IfOk result (λ answer. answer ≡ are_names_after [] texts.now) }
{
    let mut met = OrderedNames::new(alloc);
    for text in texts {
        if !is_dotted(text.as_str()) {
            return Ok(false);
        }
        if !met.add(text.as_str())? {
            return Ok(false);
        }
    }
    Ok(true)
}

fn if_names(alloc: Global, texts: List<Name>) -> Result<Option<List<Name>>, NoMemory>
    ensures { IfOk result (λ names. names ≡ if_names texts) }
{
    if are_names(alloc, texts.as_slice())? {
        Ok(Some(texts))
    } else {
        Ok(None)
    }
}

fn names_in(alloc: Global, value: &Value) -> Result<Option<List<Name>>, NoMemory>
    ensures { IfOk result (λ names. names ≡ option_and_then if_names (texts_in (view value.now))) }
{
    match texts_in(alloc, value)? {
        None => Ok(None),
        Some(texts) => if_names(alloc, texts),
    }
}

/// The order, or `None` where it is off its form.
pub(crate) fn order(alloc: Global, config: &Value) -> Result<Option<Option<List<Name>>>, NoMemory>
    ensures { IfOk result (λ order. order ≡ order_in (get (codes "order") (view config.now))) }
{
    match config.get("order") {
        None => Ok(Some(None)),
        Some(order) => match names_in(alloc, order)? {
            None => Ok(None),
            Some(names) => Ok(Some(Some(names))),
        },
    }
}

/// The options, or `None` where they are off their form.
pub(crate) fn options(alloc: Global, config: &Value) -> Result<Option<List<(Name, Name)>>, NoMemory>
    ensures { IfOk result (λ options. options ≡ options_in (get (codes "options") (view config.now))) }
{
    match config.get("options") {
        None => Ok(Some(List::new(alloc))),
        Some(options) => named_texts(alloc, options),
    }
}

fn if_some_word(words: List<Name>) -> Option<List<Name>>
    ensures { result ≡ if_some_word words }
{
    if words.is_empty() { None } else { Some(words) }
}

/// The command of a row, or `None` where it is off its form.
pub(crate) fn command(alloc: Global, row: &Value) -> Result<Option<List<Name>>, NoMemory>
    ensures { IfOk result (λ command. command ≡ command_in (get (codes "command") (view row.now))) }
{
    match row.get("command") {
        None => Ok(None),
        Some(command) => match texts_in(alloc, command)? {
            None => Ok(None),
            Some(words) => Ok(if_some_word(words)),
        },
    }
}

/// The version of a row, or `None` where it is off its form.
pub(crate) fn version(alloc: Global, row: &Value) -> Result<Option<Name>, NoMemory>
    ensures { IfOk result (λ version. version ≡ version_in (get (codes "version") (view row.now))) }
{
    match row.get("version") {
        None => Ok(None),
        Some(version) => match version.as_str() {
            None => Ok(None),
            Some(text) => Ok(Some(Name::new(alloc, text)?)),
        },
    }
}
