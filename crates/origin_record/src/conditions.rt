// What is asked of a record beside the forms of its fields.
ghost use Rattle.std.specs.Prelude.{◌≡◌, ◌&&◌, IfOk};
ghost use Rattle.std.specs.List.{list_all};
ghost use Rattle.origin_record.specs.Conditions.{has_each_hello, has_rounds, is_numbered, is_below, entries_are_numbered, notes_are_numbered, units_enter, meets};

use crate::distinct::{paths_are_distinct, stores_are_distinct};
use crate::tables::table_at;
use apt_base::{FormFault, NoMemory};
use record_forms::{Entry, Note, Record};
use std::alloc::Global;

/// How many rounds a record has at most.
const MAX_ROUNDS: usize = 64;

fn has_each_hello(value: &Record) -> bool
    ensures { result ≡ has_each_hello value.now }
{
    value.hellos.len() == value.key.processors.len()
}

fn has_rounds(value: &Record) -> bool
    ensures { result ≡ has_rounds value.now }
{
    1 <= value.rounds.len() && value.rounds.len() <= MAX_ROUNDS
}

fn is_numbered(processors: usize, rounds: usize, entry: &Entry) -> bool
    ensures { result ≡ is_numbered processors rounds entry.now }
{
    (entry.processor as usize) < processors && 1 <= entry.round && entry.round as usize <= rounds
}

fn are_numbered(processors: usize, rounds: usize, entries: &[Entry]) -> bool
    ensures { result ≡ list_all (is_numbered processors rounds) entries.now }
{
    for entry in entries {
        if !is_numbered(processors, rounds, entry) {
            return false;
        }
    }
    true
}

fn are_below(processors: usize, notes: &[Note]) -> bool
    ensures { result ≡ list_all (is_below processors) notes.now }
{
    for note in notes {
        if note.processor as usize >= processors {
            return false;
        }
    }
    true
}

#[tactic(auto, unfolding(crate::specs::Conditions::entries_are_numbered, crate::specs::Conditions::notes_are_numbered))]
fn all_are_numbered(value: &Record) -> bool
    ensures { result ≡ (entries_are_numbered value.now && notes_are_numbered value.now) }
{
    let processors = value.key.processors.len();
    are_numbered(processors, value.rounds.len(), value.entries.as_slice())
        && are_below(processors, value.notes.as_slice())
}

fn units_enter(alloc: Global, value: &Record) -> Result<bool, NoMemory>
    ensures { IfOk result (λ enter. enter ≡ units_enter value.now) }
{
    match table_at(alloc, value, value.rounds.len()) {
        Ok(table) => {
            drop(table);
            Ok(true)
        }
        Err(FormFault::Bad) => Ok(false),
        Err(FormFault::Memory) => Err(NoMemory),
    }
}

/// Whether a record meets all conditions.
#[tactic(auto, unfolding(crate::specs::Conditions::meets))]
pub(crate) fn meets(alloc: Global, value: &Record) -> Result<bool, NoMemory>
    ensures { IfOk result (λ meeting. meeting ≡ meets value.now) }
{
    if !has_each_hello(value) || !has_rounds(value) || !all_are_numbered(value) {
        return Ok(false);
    }
    let entries = value.entries.as_slice();
    if !stores_are_distinct(alloc, entries)? || !paths_are_distinct(alloc, entries)? {
        return Ok(false);
    }
    units_enter(alloc, value)
}
