//! On which names the meaning of a unit's names may depend: the candidates of a unit, and the law on them.
//!
//! `specs/Chains` has the name chains that are written in a unit, `specs/Candidates` the candidates, and `specs/ClosedCuts` the law: where a set of names is closed, which is that it holds the candidates of each source unit in it, each name that is written in a unit of the set means over the table cut to the set what it means over the whole table. The contract of `find_in_cut` carries it.
//!
//! `candidates` lists the candidates of a unit, in time that is linear in what the unit declares but for the logarithm of how many candidates it has.
//!
//! `reach` lists the reach of a unit, `reach_of_all` has that of several units together, and `agrees` says whether two tables have the same source units under some names.
//!
//! Not promised: that memory is there.
#![tactic(auto)]

mod agreeing;
mod chains;
mod gathered;
mod places;
mod prefixes;
mod reaching;
mod types;
mod values;
mod written;

ghost use Rattle.std.specs.Prelude.{◌≡◌, IfSome};
ghost use Rattle.std.specs.Option.{option_copied};
ghost use Rattle.element_table.specs.TypeTable.{unit_of, part_of};
ghost use Rattle.reach_map.specs.ClosedCuts.{among, cut, is_cut_off, IsKept, KeepsMeanings};

pub use agreeing::agrees;
use apt_base::{List, Name};
use decl_tree::Unit;
use element_table::{Part, Table};
pub use gathered::candidates;
pub use reaching::{reach, reach_of_all};

fn is_among(names: &[Name], name: &Name) -> bool
    ensures { result ≡ among names.now name.now }
{
    for each in names {
        if name.as_str() == each.as_str() {
            return true;
        }
    }
    false
}

fn is_cut_off(table: &Table, names: &List<Name>, name: &Name) -> bool
    ensures { result ≡ is_cut_off (among names.now name.now) (part_of table.now name.now) }
{
    match table.part(name) {
        Some(Part::Source) => !is_among(names.as_slice(), name),
        _ => false,
    }
}

/// The unit of this name over the table cut to a list of names, which has the sources of the list and all stubs, or `None` where the cut has no such unit. It takes no memory.
///
/// Where the list is closed (it holds the candidates of each source unit of the table that it names), each name in the unit that is given, imports aside, means over the cut what it means over the table.
#[tactic(auto, using(crate::proofs::Cuts::absent, crate::proofs::Cuts::away, crate::proofs::Cuts::stays, crate::proofs::Cuts::keeps))]
pub fn find_in_cut<'a>(table: &'a Table, names: &List<Name>, name: &Name) -> Option<&'a Unit>
    ensures value { option_copied result ≡ unit_of (cut table.now (among names.now)) name.now }
    ensures kept { IfSome result (λ unit. IsKept table.now (among names.now) name.now) }
    ensures law { IfSome result (λ unit. KeepsMeanings table.now (among names.now) name.now) }
{
    let unit = table.find(name)?;
    if is_cut_off(table, names, name) {
        return None;
    }
    Some(unit)
}
