// Whether an element lies in a cut.
ghost use Rattle.std.specs.Prelude.{◌↔◌, IsTrue};
ghost use Rattle.reach_map.specs.ClosedCuts.{among};
ghost use Rattle.closed_cuts.specs.CutElements.{LiesIn};
ghost use Rattle.closed_cuts.specs.ElementLaws.{StaysInCut};

use crate::laws::{fields_stay, names_stay, presence_stays, types_stay, values_stay};
use apt_base::{ElementRef, List, Name};
use element_table::Table;
use reach_map::find_in_cut;

/// Whether an element lies in the cut of a table to a list of names: its unit is a source under one of the
/// names, or a stub. Its path does not matter. It takes no memory.
///
/// Where the list is closed and has a source of the table, what is written at such an element means the same
/// over the cut, and what stands there, the annotations on it and their values are the same
/// (`specs/ElementLaws`).
#[tactic(auto, using(crate::proofs::ElementLawsProofs::lies, crate::proofs::ElementLawsProofs::there, crate::proofs::ElementLawsProofs::staying))]
pub fn lies_in_cut(table: &Table, names: &List<Name>, element: &ElementRef) -> bool
    ensures value { IsTrue result ↔ LiesIn table.now (among names.now) element.now }
    ensures law { IsTrue result → StaysInCut table.now (among names.now) element.now }
{
    names_stay();
    fields_stay();
    types_stay();
    presence_stays();
    values_stay();
    find_in_cut(table, names, &element.unit).is_some()
}
