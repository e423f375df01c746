// The rounds of a record.
ghost use Rattle.std.specs.Prelude.{◌≡◌, ◌++◌, map, IfOk, OnOk};
ghost use Rattle.run_record.specs.Shapes.{initial_round, later_round, rounds_of, roots_length, entered_length, IsLeft};

use crate::shapes::{all_shaped, left_behind_units};
use apt_base::{List, NoMemory, copy_names};
use element_table::Table;
use record_forms::OldRound;
use round_engine::PastRound;
use std::alloc::Global;

fn initial_round(alloc: Global, past: &PastRound) -> Result<OldRound, NoMemory>
    ensures { IfOk result (λ round. round ≡ initial_round past.now) }
{
    Ok(OldRound {
        roots: copy_names(alloc, past.roots.as_slice())?,
        entered: List::new(alloc),
        present: copy_names(alloc, past.present.as_slice())?,
    })
}

fn later_round(alloc: Global, table: &Table, past: &PastRound) -> Result<OldRound, NoMemory>
    ensures { IfOk result (λ round. round ≡ later_round table.now past.now) }
{
    Ok(OldRound {
        roots: copy_names(alloc, past.roots.as_slice())?,
        entered: all_shaped(alloc, table, past.roots.as_slice())?,
        present: copy_names(alloc, past.present.as_slice())?,
    })
}

fn add_later(
    alloc: Global,
    table: &Table,
    later: &[PastRound],
    rounds: &mut List<OldRound>,
) -> Result<(), NoMemory>
    ensures { OnOk result (rounds.new ≡ rounds.old ++ map (later_round table.now) later.now) }
{
    for past in later {
        rounds.push(later_round(alloc, table, past)?)?;
    }
    Ok(())
}

/// The rounds of a record, where this is the table of the last.
pub(crate) fn rounds_of(
    alloc: Global,
    table: &Table,
    past: &[PastRound],
) -> Result<List<OldRound>, NoMemory>
    ensures { IfOk result (λ rounds. rounds ≡ rounds_of table.now past.now) }
{
    let mut rounds = List::new(alloc);
    if let [first, later @ ..] = past {
        rounds.push(initial_round(alloc, first)?)?;
        add_later(alloc, table, later, &mut rounds)?;
    }
    Ok(rounds)
}

// What is left of a number of bytes behind the shapes of the roots of these rounds.
fn left_behind_roots(
    alloc: Global,
    table: &Table,
    rounds: &[PastRound],
    most: usize,
) -> Result<Option<usize>, NoMemory>
    ensures { IfOk result (IsLeft most (roots_length table.now rounds.now)) }
{
    let mut left = most;
    for past in rounds {
        match left_behind_units(alloc, table, past.roots.as_slice(), left)? {
            Some(rest) => left = rest,
            None => return Ok(None),
        }
    }
    Ok(Some(left))
}

/// What is left of a number of bytes behind the shapes of the units that entered; `None` where they are more.
pub(crate) fn left_behind_rounds(
    alloc: Global,
    table: &Table,
    past: &[PastRound],
    most: usize,
) -> Result<Option<usize>, NoMemory>
    ensures { IfOk result (IsLeft most (entered_length table.now past.now)) }
{
    match past {
        [_, later @ ..] => left_behind_roots(alloc, table, later, most),
        [] => Ok(Some(most)),
    }
}
