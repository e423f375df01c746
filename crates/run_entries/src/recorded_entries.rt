// The entries of a run.
ghost use Rattle.std.specs.Prelude.{◌≡◌, ◌++◌, length, map, slice_get, IfOk, OnOk};
ghost use Rattle.std.specs.Option.{option_to_list};
ghost use Rattle.std.specs.Cmp.Lexicographic.{slice_cmp};
ghost use Rattle.std.specs.Ordering.{nat_cmp};
ghost use Rattle.apt_filer.specs.Orders.{in_order};
ghost use Rattle.record_forms.specs.RecordTable.{file_less};
ghost use Rattle.run_entries.specs.Entries.{stored_file, stored_message, numbered, entry_with, head_at, head_of, head_left, entry_left, entry_at, whole_entry, root_entries, isolating_entries, if_some_left, entries_by, entries_of};
ghost use Rattle.run_entries.specs.Positions.{items_at};
ghost use Rattle.run_entries.specs.Outputs.{root_name};
ghost use Rattle.run_entries.specs.Roots.{file_there, files_there, shown_head, AreFilePlaces, AreMessagePlaces, AreLeft};

use crate::kinds::is_isolating;
use crate::parts::{Left, all_places, file_places, has_some, left_of, message_places};
use crate::places::Places;
use crate::processed::{GeneratedFile, Processed, copy_elements};
use crate::stores::StoreNumbers;
use apt_base::{List, Name, NoMemory, copy_names};
use record_forms::{Entry, StoredFile, StoredMessage};
use std::alloc::Global;
use std::cmp::Ordering;
use wire_frames::Message;

// ---- files and messages of an entry

fn stored_file(
    alloc: Global,
    file: &GeneratedFile,
    stores: &StoreNumbers,
) -> Result<StoredFile, NoMemory>
    ensures { IfOk result (λ stored. stored ≡ stored_file stores.now file.now) }
{
    Ok(StoredFile {
        path: file.path.copy()?,
        type_name: file.type_name.copy()?,
        store: stores.number(&file.path),
        length: file.length,
        origins: copy_elements(alloc, file.origins.as_slice())?,
    })
}

// Adds the file at a place, if one is there.
fn add_file(
    alloc: Global,
    files: &List<GeneratedFile>,
    at: usize,
    stores: &StoreNumbers,
    stored: &mut Vec<StoredFile>,
) -> Result<(), NoMemory>
    ensures { OnOk result (stored.new.items ≡ stored.old.items ++ file_there stores.now files.now at) }
{
    match files.get(at) {
        Some(file) => {
            stored.push(stored_file(alloc, file, stores)?)?;
            Ok(())
        }
        None => Ok(()),
    }
}

// The files at these places, as they stand.
fn files_at(
    alloc: Global,
    files: &List<GeneratedFile>,
    places: &[usize],
    stores: &StoreNumbers,
) -> Result<Vec<StoredFile>, NoMemory>
    ensures { IfOk result (λ stored. stored.items ≡ files_there stores.now files.now places.now) }
{
    let mut stored = Vec::new(alloc);
    for at in places {
        add_file(alloc, files, *at, stores, &mut stored)?;
    }
    Ok(stored)
}

fn compare_paths(one: &StoredFile, other: &StoredFile) -> Ordering
    ensures { result ≡ slice_cmp nat_cmp one.now.path other.now.path }
{
    one.path.as_str().cmp(other.path.as_str())
}

fn sort(files: &mut Vec<StoredFile>) -> Result<(), NoMemory>
    ensures { OnOk result (files.new.items ≡ in_order file_less files.old.items) }
{
    files.sort_by(compare_paths)?;
    Ok(())
}

fn stored_message(alloc: Global, number: u32, message: &Message) -> Result<StoredMessage, NoMemory>
    ensures { IfOk result (λ stored. stored ≡ stored_message number message.now) }
{
    let Message {
        kind,
        element,
        text,
    } = message.copy(alloc)?;
    Ok(StoredMessage {
        number,
        kind,
        element,
        text,
    })
}

// Adds the message at a place, if one is there, under the next number. No memory holds 2^32 messages, so that these
// too are answered with `NoMemory`.
fn add_message(
    alloc: Global,
    messages: &List<Message>,
    at: usize,
    stored: &mut List<StoredMessage>,
) -> Result<(), NoMemory>
    ensures { OnOk result
        (stored.new ≡ stored.old ++ numbered (length stored.old) (option_to_list (slice_get messages.now at))) }
{
    match messages.get(at) {
        Some(message) => {
            let number = u32::try_from(stored.len()).map_err(|_| NoMemory)?;
            stored.push(stored_message(alloc, number, message)?)
        }
        None => Ok(()),
    }
}

// The messages at these places, numbered from 0.
fn messages_at(
    alloc: Global,
    messages: &List<Message>,
    places: &[usize],
) -> Result<List<StoredMessage>, NoMemory>
    ensures { IfOk result (λ stored. stored ≡ numbered 0 (items_at messages.now places.now)) }
{
    let mut stored = List::new(alloc);
    for at in places {
        add_message(alloc, messages, *at, &mut stored)?;
    }
    Ok(stored)
}

// ---- one entry

// Of what an entry is.
#[derive(Drop)]
struct Head {
    origin: Option<Name>,
    offered: List<Name>,
    annotated: List<Name>,
}

// The entry with the files and the messages at these places.
fn entry_with(
    alloc: Global,
    stores: &StoreNumbers,
    done: &Processed,
    head: Head,
    files: &[usize],
    messages: &[usize],
) -> Result<Entry, NoMemory>
    ensures { IfOk result (λ entry. entry ≡ entry_with stores.now done.now (shown_head head)
        (items_at done.now.files files.now) (items_at done.now.messages messages.now)) }
{
    let mut files = files_at(alloc, &done.files, files, stores)?;
    sort(&mut files)?;
    let messages = messages_at(alloc, &done.messages, messages)?;
    Ok(Entry {
        round: done.round,
        processor: done.processor,
        origin: head.origin,
        offered: head.offered,
        annotated: head.annotated,
        files: List::from_vec(files),
        messages,
    })
}

fn head_at(alloc: Global, root: &(Name, List<Name>)) -> Result<Head, NoMemory>
    ensures { IfOk result (λ head. shown_head head ≡ head_at root.now) }
{
    Ok(Head {
        origin: Some(root.0.copy()?),
        offered: copy_names(alloc, root.1.as_slice())?,
        annotated: List::new(alloc),
    })
}

fn head_of(alloc: Global, done: &Processed) -> Result<Head, NoMemory>
    ensures { IfOk result (λ head. shown_head head ≡ head_of done.now) }
{
    Ok(Head {
        origin: None,
        offered: copy_names(alloc, done.offered.as_slice())?,
        annotated: root_names(alloc, done.annotated.as_slice())?,
    })
}

fn head_left(alloc: Global) -> Head
    ensures { shown_head result ≡ head_left }
{
    Head {
        origin: None,
        offered: List::new(alloc),
        annotated: List::new(alloc),
    }
}

fn root_names(alloc: Global, roots: &[(Name, List<Name>)]) -> Result<List<Name>, NoMemory>
    ensures { IfOk result (λ names. names ≡ map root_name roots.now) }
{
    let mut names = List::new(alloc);
    for root in roots {
        names.push(root.0.copy()?)?;
    }
    Ok(names)
}

// ---- the entries

// The entry of a whole round.
fn whole_entry(alloc: Global, stores: &StoreNumbers, done: &Processed) -> Result<Entry, NoMemory>
    ensures { IfOk result (λ entry. entry ≡ whole_entry stores.now done.now) }
{
    let head = head_of(alloc, done)?;
    let files = all_places(alloc, done.files.len())?;
    let messages = all_places(alloc, done.messages.len())?;
    entry_with(
        alloc,
        stores,
        done,
        head,
        files.as_slice(),
        messages.as_slice(),
    )
}

// The entry of what is left.
fn left_entry(
    alloc: Global,
    stores: &StoreNumbers,
    done: &Processed,
    left: &Left,
) -> Result<Entry, NoMemory>
    requires { AreLeft done.now left.now }
    ensures { IfOk result (λ entry. entry ≡ entry_left stores.now done.now) }
{
    let head = head_left(alloc);
    let files = left.files.as_slice();
    entry_with(alloc, stores, done, head, files, left.messages.as_slice())
}

// Adds the entry of what is left, where something is.
fn add_left(
    alloc: Global,
    stores: &StoreNumbers,
    done: &Processed,
    entries: &mut List<Entry>,
) -> Result<(), NoMemory>
    ensures { OnOk result (entries.new ≡ entries.old ++ if_some_left stores.now done.now) }
{
    let left = left_of(alloc, done)?;
    if !has_some(&left) {
        return Ok(());
    }
    entries.push(left_entry(alloc, stores, done, &left)?)
}

// The entry of a root.
fn root_entry(
    alloc: Global,
    stores: &StoreNumbers,
    done: &Processed,
    files: &Places,
    messages: &Places,
    root: &(Name, List<Name>),
) -> Result<Entry, NoMemory>
    requires files { AreFilePlaces files.now done.now.files }
    requires messages { AreMessagePlaces messages.now done.now.messages }
    ensures { IfOk result (λ entry. entry ≡ entry_at stores.now done.now root.now) }
{
    let head = head_at(alloc, root)?;
    let name = root.0.as_str();
    entry_with(alloc, stores, done, head, files.at(name), messages.at(name))
}

// Adds an entry for each root.
fn add_roots(
    alloc: Global,
    stores: &StoreNumbers,
    done: &Processed,
    entries: &mut List<Entry>,
) -> Result<(), NoMemory>
    ensures { OnOk result (entries.new ≡ entries.old ++ root_entries stores.now done.now) }
{
    let files = file_places(alloc, done.files.as_slice())?;
    let messages = message_places(alloc, done.messages.as_slice())?;
    for root in done.annotated.as_slice() {
        entries.push(root_entry(alloc, stores, done, &files, &messages, root)?)?;
    }
    Ok(())
}

// Adds the entries of one processor in one round.
#[tactic(auto, unfolding(crate::specs::Entries::entries_by, crate::specs::Entries::isolating_entries))]
fn add_entries(
    alloc: Global,
    stores: &StoreNumbers,
    done: &Processed,
    entries: &mut List<Entry>,
) -> Result<(), NoMemory>
    ensures { OnOk result (entries.new ≡ entries.old ++ entries_by stores.now done.now) }
{
    if !is_isolating(done.kind) {
        let entry = whole_entry(alloc, stores, done)?;
        return entries.push(entry);
    }
    add_left(alloc, stores, done, entries)?;
    add_roots(alloc, stores, done, entries)
}

/// The entries of what was done, which is in order of round and processor. An isolating processor has one for each
/// root to which something was offered, with the files and messages whose one origin that root is, and in front of
/// them one without an origin exactly where a file or a message is left: it has no origin, several, or one that is no
/// such root. Any other processor has one for the round, with all that it gave, and with the roots that carry an
/// offered name. The files of an entry ascend by path, each under the number of its path among `stores`, or 0 where
/// that has none; the messages are numbered within it, from 0.
///
/// It fails only when memory runs out. It takes some `n * log n` steps for n files and messages.
pub fn entries(
    alloc: Global,
    processed: &[Processed],
    stores: &StoreNumbers,
) -> Result<List<Entry>, NoMemory>
    ensures { IfOk result (λ entries. entries ≡ entries_of stores.now processed.now) }
{
    let mut entries = List::new(alloc);
    for done in processed {
        add_entries(alloc, stores, done, &mut entries)?;
    }
    Ok(entries)
}
