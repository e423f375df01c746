// The options of a build.
ghost use Rattle.std.specs.Prelude.{◌≡◌, IfOk, OnOk, string_bytes, option_map};
ghost use Rattle.std.specs.FinMap as fin;
ghost use Rattle.project_config.specs.Options.{option_in, put_all, with_options, IsOver};

use apt_base::{List, Name, NoMemory};
use std::alloc::Global;
use std::collections::BTreeMap;
use std::marker::Model;

/// Equal options in the same order.
pub(crate) fn copy_options(
    alloc: Global,
    options: &[(Name, Name)],
) -> Result<List<(Name, Name)>, NoMemory>
    ensures { IfOk result (λ list. list ≡ options.now) }
{
    let mut copies = List::new(alloc);
    for each in options {
        copies.push((each.0.copy()?, each.1.copy()?))?;
    }
    Ok(copies)
}

/// The option that a word of a command is, or `None` exactly where it is none: its key and its value, around the first `=`. The key is not empty and does not begin with `-`; the value may be empty.
#[tactic(auto, unfolding(crate::specs::Options::option_in))]
pub fn option_in(word: &str) -> Option<(&str, &str)>
    ensures { option_map (λ option. (option.0.now, option.1.now)) result ≡ option_in word.now }
{
    match word.split_once('=') {
        None => None,
        Some((key, value)) => {
            if key.is_empty() || key.as_bytes()[0] == b'-' {
                None
            } else {
                Some((key, value))
            }
        }
    }
}

/// Options by their keys, which contracts see as a finite map.
#[derive(Drop)]
struct ByKey {
    alloc: Global,
    held: BTreeMap<String, Name>,
}

impl Model for ByKey {
    ghost use Rattle.project_config.specs.Options.{OptionMap, options_held, options_code};

    ghost Value = { OptionMap };

    ghost coded = { options_code };

    ghost view = { λ a. options_held a.held };
}

// A function of its own, so that what drops a value is proved once.
fn let_go(_value: Option<Name>) {}

impl ByKey {
    fn new(alloc: Global) -> ByKey
        ensures { result ≡ fin.empty }
    {
        ByKey {
            alloc,
            held: BTreeMap::new(alloc),
        }
    }

    // Puts a value under a key, in place of the one that it had.
    fn put(&mut self, key: &Name, value: &Name) -> Result<(), NoMemory>
        ensures { OnOk result (self.new ≡ fin.insert self.old key.now value.now) }
    {
        let key = String::from_str(self.alloc, key.as_str())?;
        let value = value.copy()?;
        let_go(self.held.insert(key, value)?);
        Ok(())
    }

    fn put_all(&mut self, options: &[(Name, Name)]) -> Result<(), NoMemory>
        ensures { OnOk result (self.new ≡ put_all self.old options.now) }
    {
        for option in options {
            self.put(&option.0, &option.1)?;
        }
        Ok(())
    }

    // The options, ascending by key.
    fn into_list(self) -> Result<List<(Name, Name)>, NoMemory>
        ensures { IfOk result (λ options. options ≡ fin.entries self) }
    {
        let ByKey { alloc, held } = self;
        let mut options = List::new(alloc);
        for (key, value) in held {
            options.push((Name::from_string(alloc, key), value))?;
        }
        Ok(options)
    }
}

/// The options of a build: those of the configuration, and over them those of the words. Each key comes once, with the last value that the words give it, and else with that of the configuration. The keys ascend by their bytes.
pub fn override_options(
    alloc: Global,
    options: &[(Name, Name)],
    words: &[(Name, Name)],
) -> Result<List<(Name, Name)>, NoMemory>
    ensures list { IfOk result (λ list. list ≡ with_options options.now words.now) }
    ensures over { IfOk result (IsOver options.now words.now) }
{
    let mut all = ByKey::new(alloc);
    all.put_all(options)?;
    all.put_all(words)?;
    all.into_list()
}
