// Messages in the order of a report.
ghost use Rattle.std.specs.Prelude.{◌≡◌, IfOk, OnOk, OnErr, IsPermutation, IsSorted};
ghost use Rattle.apt_filer.specs.Reports.{origin_text, origin_cmp, report_cmp, in_report_order, NumbersPlayNoPart, OriginsTell, LaterComesLater};

use apt_base::{List, NoMemory};
use std::alloc::Global;
use std::cmp::Ordering;
use std::mem::replace;
use wire_frames::Message;

/// A message with its place in the order of a run's messages.
#[derive(Drop)]
pub struct Placed {
    /// The round in which it was printed, from 1.
    pub round: u32,
    /// The number of the processor that printed it, from 0.
    pub processor: u16,
    /// Its number among the messages of that processor in that round, from 0.
    pub number: u32,
    /// The message.
    pub message: Message,
}

impl Placed {
    /// An equal message at an equal place. It fails only when memory runs out.
    pub fn copy(&self, alloc: Global) -> Result<Placed, NoMemory>
        ensures { IfOk result (λ placed. placed ≡ self.now) }
    {
        Ok(Placed {
            round: self.round,
            processor: self.processor,
            number: self.number,
            message: self.message.copy(alloc)?,
        })
    }
}

// The unit of a message's element, or the empty text.
fn origin_text(message: &Message) -> &str
    ensures { result.now ≡ origin_text message.now }
{
    match &message.element {
        None => "",
        Some(element) => element.unit.as_str(),
    }
}

fn compare_origins(one: &Placed, other: &Placed) -> Ordering
    ensures { result ≡ origin_cmp one.now other.now }
{
    let rounds = one.round.cmp(&other.round);
    let processors = one.processor.cmp(&other.processor);
    let units = origin_text(&one.message).cmp(origin_text(&other.message));
    rounds.then(processors).then(units)
}

fn compare(one: &Placed, other: &Placed) -> Ordering
    ensures { result ≡ report_cmp one.now other.now }
{
    compare_origins(one, other).then(one.number.cmp(&other.number))
}

fn sort(messages: &mut Vec<Placed>) -> Result<(), NoMemory>
    ensures permutation { IsPermutation messages.old.items messages.new.items }
    ensures sorted { OnOk result (IsSorted report_cmp messages.new.items) }
    ensures order { OnOk result (messages.new.items ≡ in_report_order messages.old.items) }
    ensures err { OnErr result (messages.new.items ≡ messages.old.items) }
{
    messages.sort_by(compare)?;
    Ok(())
}

/// Puts messages in the order of a report: by round, processor, origin and number, where the origin is the
/// unit of a message's element, or the empty text. Texts are compared byte by byte. Messages that this
/// order does not tell apart stay as they stand.
///
/// Whatever the result, these are the same messages. It fails only when memory runs out, and they then
/// stand as they stood. It makes some `n * log n` comparisons.
pub fn report_order(alloc: Global, messages: &mut List<Placed>) -> Result<(), NoMemory>
    ensures permutation { IsPermutation messages.old messages.new }
    ensures sorted { OnOk result (IsSorted report_cmp messages.new) }
    ensures order { OnOk result (messages.new ≡ in_report_order messages.old) }
    ensures err { OnErr result (messages.new ≡ messages.old) }
{
    let mut items = replace(messages, List::new(alloc)).into_vec();
    let sorted = sort(&mut items);
    drop(replace(messages, List::from_vec(items)));
    sorted
}

/// Where of two messages of one round, processor and origin the later one has no smaller number, the order
/// of a report is that by round, processor and origin alone.
pub fn numbers_play_no_part()
    ensures { NumbersPlayNoPart }
{}

/// Two lists that have the same messages of each round, processor and origin, in the same order, are one
/// list in that order.
pub fn origins_tell()
    ensures { OriginsTell }
{}

/// Where one list is printed in later rounds than another, or by later processors, it stands behind the
/// other one in that order.
pub fn later_comes_later()
    ensures { LaterComesLater }
{}
