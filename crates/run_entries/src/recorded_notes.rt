// The notes of a run.
ghost use Rattle.std.specs.Prelude.{◌≡◌, ◌++◌, IfOk, OnOk};
ghost use Rattle.std.specs.List.{flat_map, list_any, range_with_len};
ghost use Rattle.run_entries.specs.Notes.{is_unattributed, is_note, note_of, note_where, noted, notes_on, notes_of};

use crate::kinds::is_isolating;
use crate::parts::{has_some, left_of};
use crate::processed::Processed;
use apt_base::{List, NoMemory};
use record_forms::{Note, NoteKind};
use std::alloc::Global;

// Whether an output of an isolating processor comes of no root to which something was offered.
fn is_unattributed(alloc: Global, done: &Processed) -> Result<bool, NoMemory>
    ensures { IfOk result (λ holds. holds ≡ is_unattributed done.now) }
{
    if !is_isolating(done.kind) {
        return Ok(false);
    }
    let left = left_of(alloc, done)?;
    Ok(has_some(&left))
}

fn note_of(done: &Processed, kind: NoteKind) -> Note
    ensures { result ≡ note_of done.now kind }
{
    Note {
        processor: done.processor,
        kind,
    }
}

// Adds the notes on one processor in one round.
#[tactic(auto, unfolding(crate::specs::Notes::noted))]
fn add_noted(alloc: Global, done: &Processed, found: &mut List<Note>) -> Result<(), NoMemory>
    ensures { OnOk result (found.new ≡ found.old ++ noted done.now) }
{
    let unattributed = is_unattributed(alloc, done)?;
    add_if(done.beyond, note_of(done, NoteKind::Beyond), found)?;
    add_if(unattributed, note_of(done, NoteKind::Unattributed), found)?;
    add_if(done.refused, note_of(done, NoteKind::Refused), found)
}

fn add_if(holds: bool, note: Note, found: &mut List<Note>) -> Result<(), NoMemory>
    ensures { OnOk result (found.new ≡ found.old ++ note_where holds note) }
{
    if holds {
        return found.push(note);
    }
    Ok(())
}

fn is_among(note: &Note, found: &[Note]) -> bool
    ensures { result ≡ list_any (is_note note.now) found.now }
{
    found.iter().any(|other| *other == *note)
}

// Those of the notes on a processor that were found.
fn add_found(processor: u16, found: &[Note], notes: &mut List<Note>) -> Result<(), NoMemory>
    ensures { OnOk result (notes.new ≡ notes.old ++ notes_on found.now processor) }
{
    for kind in [NoteKind::Beyond, NoteKind::Unattributed, NoteKind::Refused] {
        let note = Note { processor, kind };
        if is_among(&note, found) {
            notes.push(note)?;
        }
    }
    Ok(())
}

// The notes of all that was done, as they come.
fn found_in(alloc: Global, processed: &[Processed]) -> Result<List<Note>, NoMemory>
    ensures { IfOk result (λ found. found ≡ flat_map noted processed.now) }
{
    let mut found = List::new(alloc);
    for done in processed {
        add_noted(alloc, done, &mut found)?;
    }
    Ok(found)
}

// Those that were found on this many processors, in order.
fn all_found(alloc: Global, processors: u16, found: &[Note]) -> Result<List<Note>, NoMemory>
    ensures { IfOk result (λ notes. notes ≡ flat_map (notes_on found.now) (range_with_len 0 processors)) }
{
    let mut notes = List::new(alloc);
    for processor in 0..processors {
        add_found(processor, found, &mut notes)?;
    }
    Ok(notes)
}

/// The notes on this many processors, each once, ascending by processor and kind: `Beyond` where a question of a
/// processor was beyond reach, `Unattributed` where an isolating one gave a file or a message that comes of no root
/// alone to which something was offered, and `Refused` where a creation was answered with another answer than
/// `Accepted`. It fails only when memory runs out.
#[tactic(auto, unfolding(crate::specs::Notes::notes_of))]
pub fn notes(
    alloc: Global,
    processors: u16,
    processed: &[Processed],
) -> Result<List<Note>, NoMemory>
    ensures { IfOk result (λ notes. notes ≡ notes_of processors processed.now) }
{
    let found = found_in(alloc, processed)?;
    all_found(alloc, processors, found.as_slice())
}
