// Lists and objects of texts.
ghost use Rattle.std.specs.Prelude.{◌≡◌, IfOk, option_and_then};
ghost use Rattle.serde_json.specs.View.{view, items_view, members_view};
ghost use Rattle.serde_json.specs.Find.{as_object};
ghost use Rattle.project_config.specs.Items.{texts_of, texts_in, options_of};

use apt_base::{List, Name, NoMemory};
use serde_json::{Map, Value};
use std::alloc::Global;

fn texts_of(alloc: Global, items: &Vec<Value>) -> Result<Option<List<Name>>, NoMemory>
    ensures { IfOk result (λ texts. texts ≡ texts_of (items_view items.now.items)) }
{
    let mut texts = List::new(alloc);
    for item in items {
        match item.as_str() {
            None => return Ok(None),
            Some(text) => texts.push(Name::new(alloc, text)?)?,
        }
    }
    Ok(Some(texts))
}

/// The texts of a list of texts, or `None` where the value is none.
pub(crate) fn texts_in(alloc: Global, value: &Value) -> Result<Option<List<Name>>, NoMemory>
    ensures { IfOk result (λ texts. texts ≡ texts_in (view value.now)) }
{
    match value.as_array() {
        None => Ok(None),
        Some(items) => texts_of(alloc, items),
    }
}

fn options_of(
    alloc: Global,
    members: &Map<String, Value>,
) -> Result<Option<List<(Name, Name)>>, NoMemory>
    ensures { IfOk result (λ options. options ≡ options_of (members_view members.now.entries)) }
{
    let mut options = List::new(alloc);
    for (key, value) in members {
        match value.as_str() {
            None => return Ok(None),
            Some(text) => {
                let key = Name::new(alloc, key.as_str())?;
                options.push((key, Name::new(alloc, text)?))?;
            }
        }
    }
    Ok(Some(options))
}

/// The members of an object of texts, ascending by their names, or `None` where the value is none.
pub(crate) fn named_texts(
    alloc: Global,
    value: &Value,
) -> Result<Option<List<(Name, Name)>>, NoMemory>
    ensures { IfOk result (λ options. options ≡ option_and_then options_of (as_object (view value.now))) }
{
    match value.as_object() {
        None => Ok(None),
        Some(members) => options_of(alloc, members),
    }
}
