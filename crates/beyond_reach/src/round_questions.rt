// Whether the questions of a processor in a round were beyond reach.
ghost use Rattle.std.specs.Prelude.{◌≡◌, true, false, IfOk};
ghost use Rattle.beyond_reach.specs.Reached.{is_beyond_by, round_beyond};

use crate::outside::some_outside;
use apt_base::{Kind, Name, NoMemory};
use element_table::Table;
use std::alloc::Global;

// Whether what was asked is beyond reach whatever units it named.
fn asked_for_all(kind: Kind, wide: bool, gathered: bool) -> bool
    ensures { result ≡ is_beyond_by kind false wide gathered }
{
    match kind {
        Kind::Isolating => wide,
        Kind::Aggregating => wide || gathered,
        Kind::Dynamic | Kind::Undeclared => false,
    }
}

// Whether a name to which none of the units leads is beyond reach.
fn is_held_to_units(kind: Kind) -> bool
    ensures { result ≡ is_beyond_by kind true false false }
{
    match kind {
        Kind::Isolating | Kind::Aggregating => true,
        Kind::Dynamic | Kind::Undeclared => false,
    }
}

/// Whether a question that a processor of this kind asked in a round was beyond reach (JSR 269,
/// `RoundEnvironment`, `Elements`).
///
/// `units` are those to which it is held: of an isolating processor the roots that it was shown in the round, of an
/// aggregating one all units that were annotated for it up to this round. `asked` are the units that its questions
/// named, `wide` says whether one reached over a package, and `gathered` whether one was for the roots or for the
/// elements of an annotation that was not offered. A processor without a kind asks nothing beyond reach.
///
/// A name is beyond reach that is of no stub and to which none of the units leads. What the units lead to is found at
/// most once, and not at all where the answer is known without it: each source among it is followed once.
#[tactic(auto, using(crate::proofs::NamesOutside::beyond_for_all, crate::proofs::NamesOutside::beyond_for_none, crate::proofs::NamesOutside::beyond_for_names))]
pub fn is_beyond(
    alloc: Global,
    kind: Kind,
    table: &Table,
    units: &[Name],
    asked: &[Name],
    wide: bool,
    gathered: bool,
) -> Result<bool, NoMemory>
    ensures { IfOk result (λ beyond. beyond ≡ round_beyond kind table.now units.now asked.now wide gathered) }
{
    if asked_for_all(kind, wide, gathered) {
        return Ok(true);
    }
    if !is_held_to_units(kind) {
        return Ok(false);
    }
    some_outside(alloc, table, units, asked)
}
