// Counting types up to the limit of a table.
ghost use Rattle.std.specs.Prelude.{◌≡◌, ◌+◌, ◌≤◌, ◌&&◌, nat_le, if◌then◌else◌, IfOk};
ghost use Rattle.decl_elements.specs.Shown.{node_of};
ghost use Rattle.element_table.specs.TypeCounts.{counts, unit_types};
ghost use Rattle.element_table.specs.TypeTable.{up_to_most, most_types};

use apt_base::NoMemory;
use decl_elements::{Place, Visitor, walk};
use decl_tree::Unit;
use std::alloc::Global;

/// How many types a table has at most.
const MOST_TYPES: usize = 50_000;

// How many types there are so far, up to one more than the most.
#[derive(Drop)]
struct TypeCounter {
    types: usize,
}

fn counts(place: Place<'_>) -> bool
    ensures { result ≡ counts (node_of place.entry) }
{
    match place {
        Place::Package(_) => true,
        _ => place.declaration().is_some(),
    }
}

impl Visitor for TypeCounter {
    ghost visits = { λ old at new.
        new.types ≡ (if counts at.node && nat_le old.types most_types then old.types + 1 else old.types) };

    fn visit(&mut self, _path: &[u16], place: Place<'_>) -> Result<(), NoMemory> {
        if counts(place) && self.types <= MOST_TYPES {
            self.types += 1;
        }
        Ok(())
    }
}

/// How many types there are with those of a unit and those that were counted before, unless they are too many.
#[tactic(auto, unfolding(crate::specs::TypeCounts::unit_types))]
pub(crate) fn with_unit(
    alloc: Global,
    counted: usize,
    unit: &Unit,
) -> Result<Option<usize>, NoMemory>
    requires { counted ≤ most_types }
    ensures { IfOk result (λ types. types ≡ up_to_most (counted + unit_types unit.now)) }
{
    let mut counter = TypeCounter { types: counted };
    walk(alloc, unit, &mut counter)?;
    if counter.types <= MOST_TYPES {
        Ok(Some(counter.types))
    } else {
        Ok(None)
    }
}
