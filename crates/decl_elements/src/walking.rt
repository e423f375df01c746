// The walk over a unit.
ghost use Rattle.std.specs.Prelude.{◌≡◌, OnOk, slice_get};
ghost use Rattle.std.specs.List.{FoldsTo, flat_map};
ghost use Rattle.std.specs.Option.{option_to_list};
ghost use Rattle.decl_elements.specs.Shown.{node_of};
ghost use Rattle.decl_elements.specs.Walk.{Place, place_of, children_of, all_below, places};
ghost use Rattle.decl_elements.specs.Walk.{ArePlaces, HasFewBelow};

use crate::Place;
use apt_base::NoMemory;
use decl_tree::Unit;
use std::alloc::Global;

/// What is done at each place of a unit.
pub trait Visitor {
    /// What a visit of a place makes of the visitor.
    ghost visits: { Self → Place → Self → Type 0 };

    /// Visits what stands at a path.
    fn visit(&mut self, path: &[u16], place: Place<'_>) -> Result<(), NoMemory>
        ensures { OnOk result (visits self.old (place_of path.now (node_of place.entry)) self.new) };
}

// What stands at a path, and all that stands below it. The path is the same afterwards.
#[cycle(walking)]
#[tactic(auto, using(crate::proofs::WalkSteps::place_first))]
fn visit_all<V: Visitor>(
    visitor: &mut V,
    path: &mut Vec<u16>,
    place: Place<'_>,
) -> Result<(), NoMemory>
    requires few { HasFewBelow (node_of place) }
    ensures value { OnOk result
        (FoldsTo V.visits visitor.old (all_below (place_of path.old.items (node_of place.entry))) visitor.new) }
    ensures path { OnOk result (path.new.items ≡ path.old.items) }
{
    visitor.visit(path.as_slice(), place)?;
    visit_children(visitor, path, place)
}

// All that stands below a path.
#[cycle(walking)]
fn visit_children<V: Visitor>(
    visitor: &mut V,
    path: &mut Vec<u16>,
    place: Place<'_>,
) -> Result<(), NoMemory>
    requires few { HasFewBelow (node_of place) }
    ensures value { OnOk result
        (FoldsTo V.visits visitor.old
        (flat_map all_below (children_of (place_of path.old.items (node_of place.entry)))) visitor.new) }
    ensures path { OnOk result (path.new.items ≡ path.old.items) }
{
    for at in 0..place.children() {
        visit_child(visitor, path, place, at)?;
    }
    Ok(())
}

// A child, and all that stands below it.
#[cycle(walking)]
fn visit_child<V: Visitor>(
    visitor: &mut V,
    path: &mut Vec<u16>,
    place: Place<'_>,
    at: u16,
) -> Result<(), NoMemory>
    requires few { HasFewBelow (node_of place) }
    ensures value { OnOk result
        (FoldsTo V.visits visitor.old
        (flat_map all_below
        (option_to_list (slice_get (children_of (place_of path.old.items (node_of place.entry))) at)))
        visitor.new) }
    ensures path { OnOk result (path.new.items ≡ path.old.items) }
{
    let Some(child) = place.child(at) else {
        return Ok(());
    };
    path.push(at)?;
    visit_all(visitor, path, child)?;
    path.pop();
    Ok(())
}

/// Visits all that stands in a unit, each once, in the order of the paths: what the unit declares, and behind
/// each thing all that it encloses. It takes constant time for each place, but for what no source has, which
/// looks through the members of its type.
#[tactic(auto, unfolding(crate::specs::Walk::places))]
pub fn walk<V: Visitor>(alloc: Global, unit: &Unit, visitor: &mut V) -> Result<(), NoMemory>
    ensures value { OnOk result (FoldsTo V.visits visitor.old (places unit.now) visitor.new) }
    ensures law { ArePlaces unit.now (places unit.now) }
{
    let mut path = Vec::new(alloc);
    visit_all(visitor, &mut path, Place::root(unit))
}
