// Equal lists of what a run has.
ghost use Rattle.std.specs.Prelude.{◌≡◌, IfOk};

use crate::rounds::PastRound;
use apt_base::{List, NoMemory, copy_names};
use run_entries::Processed;
use std::alloc::Global;
use wire_frames::Hello;

/// Equal Hellos in the same order.
pub fn copy_hellos(alloc: Global, hellos: &[Hello]) -> Result<List<Hello>, NoMemory>
    ensures { IfOk result (λ list. list ≡ hellos.now) }
{
    let mut copies = List::new(alloc);
    for each in hellos {
        copies.push(each.copy(alloc)?)?;
    }
    Ok(copies)
}

fn copy_round(alloc: Global, round: &PastRound) -> Result<PastRound, NoMemory>
    ensures { IfOk result (λ copy. copy ≡ round.now) }
{
    Ok(PastRound {
        roots: copy_names(alloc, round.roots.as_slice())?,
        present: copy_names(alloc, round.present.as_slice())?,
    })
}

/// Equal rounds in the same order.
pub(crate) fn copy_past(alloc: Global, past: &[PastRound]) -> Result<List<PastRound>, NoMemory>
    ensures { IfOk result (λ list. list ≡ past.now) }
{
    let mut copies = List::new(alloc);
    for each in past {
        copies.push(copy_round(alloc, each)?)?;
    }
    Ok(copies)
}

/// What was done, equal and in the same order.
pub(crate) fn copy_processed(
    alloc: Global,
    processed: &[Processed],
) -> Result<List<Processed>, NoMemory>
    ensures { IfOk result (λ list. list ≡ processed.now) }
{
    let mut copies = List::new(alloc);
    for each in processed {
        copies.push(each.copy(alloc)?)?;
    }
    Ok(copies)
}
