// What a published file came from.
ghost use Rattle.std.specs.Prelude.{◌≡◌, option_map};
ghost use Rattle.std.specs.Option.{option_copied};
ghost use Rattle.output_store.specs.Origins.{has_file, entry_of, why_of};

use apt_base::Name;
use record_forms::{Entry, Record};

fn has_file(entry: &Entry, path: &str) -> bool
    ensures { result ≡ has_file path.now entry.now }
{
    for file in entry.files.as_slice() {
        if file.path.as_str() == path {
            return true;
        }
    }
    false
}

// The first entry that has a file of the path.
fn entry_of<'a>(entries: &'a [Entry], path: &str) -> Option<&'a Entry>
    ensures { option_copied result ≡ entry_of path.now entries.now }
{
    for entry in entries {
        if has_file(entry, path) {
            return Some(entry);
        }
    }
    None
}

/// What a file of the published output came from: the name of the processor that made it, and the entry of the record that
/// has it, with its round and its origin. `None` comes exactly where the record does not name the path, or has no processor
/// of the entry's number; a record that was read has one. It takes time for all files of the record, and no memory.
#[tactic(auto, unfolding(crate::specs::Origins::why_of))]
pub fn why_of<'a>(record: &'a Record, path: &str) -> Option<(&'a Name, &'a Entry)>
    ensures { option_map (λ found. (found.0.now, found.1.now)) result ≡ why_of record.now path.now }
{
    let entry = entry_of(record.entries.as_slice(), path)?;
    let processor = record.key.processors.get(entry.processor as usize)?;
    Some((&processor.name, entry))
}
