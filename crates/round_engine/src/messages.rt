// The messages of a run.
ghost use Rattle.std.specs.Prelude.{◌≡◌, ◌++◌, IfOk, OnOk};
ghost use Rattle.round_engine.specs.Run.{place, has_error};
ghost use Rattle.round_engine.specs.Clean.{is_error, is_warning, count_of};

use apt_base::{List, NoMemory};
use apt_filer::Placed;
use std::alloc::Global;
use wire_frames::Message;

/// Equal messages in the same order.
pub fn copy_messages(alloc: Global, messages: &[Placed]) -> Result<List<Placed>, NoMemory>
    ensures { IfOk result (λ list. list ≡ messages.now) }
{
    let mut copies = List::new(alloc);
    for each in messages {
        copies.push(each.copy(alloc)?)?;
    }
    Ok(copies)
}

/// Whether one of the messages is an error.
pub fn has_error(messages: &[Placed]) -> bool
    ensures { result ≡ has_error messages.now }
{
    messages.iter().any(|placed| placed.message.kind == 0)
}

/// Adds the messages that a processor printed in a round to those that were printed before. No memory holds 2^32 messages,
/// so that these too are answered with `NoMemory`.
pub fn place(
    messages: &mut List<Placed>,
    round: u32,
    processor: u16,
    printed: List<Message>,
) -> Result<(), NoMemory>
    ensures { OnOk result (messages.new ≡ messages.old ++ place round processor 0 printed) }
{
    let mut number: u32 = 0;
    for message in printed.into_vec() {
        messages.push(Placed {
            round,
            processor,
            number,
            message,
        })?;
        number = number.checked_add(1).ok_or(NoMemory)?;
    }
    Ok(())
}

/// How many errors were printed.
pub fn count_errors(messages: &[Placed]) -> u64
    ensures { result ≡ count_of is_error messages.now }
{
    messages
        .iter()
        .filter(|placed| placed.message.kind == 0)
        .count() as u64
}

/// How many warnings and mandatory warnings were printed.
pub fn count_warnings(messages: &[Placed]) -> u64
    ensures { result ≡ count_of is_warning messages.now }
{
    messages
        .iter()
        .filter(|placed| placed.message.kind == 1 || placed.message.kind == 2)
        .count() as u64
}
