// The roots to which something is offered.
ghost use Rattle.std.specs.Prelude.{◌≡◌, ◌++◌, filter, IfOk, OnOk};
ghost use Rattle.std.specs.FinMap as fin;
ghost use Rattle.apt_base.specs.Names.{with_names};
ghost use Rattle.run_entries.specs.Annotated.{annotated_roots};
ghost use Rattle.run_entries.specs.Roots.{carried_by, all_carried};

use apt_base::{List, Name, Names, NoMemory};
use std::alloc::Global;

fn set_of(alloc: Global, names: &[Name]) -> Result<Names, NoMemory>
    ensures { IfOk result (λ set. set ≡ with_names fin.empty names.now) }
{
    let mut set = Names::new(alloc);
    for name in names {
        set.insert(name.as_str())?;
    }
    Ok(set)
}

// Those of the names that are in the set.
fn names_among(alloc: Global, names: &[Name], set: &Names) -> Result<List<Name>, NoMemory>
    ensures { IfOk result (λ some. some ≡ filter (fin.contains_key set.now) names.now) }
{
    let mut some = List::new(alloc);
    for name in names {
        if set.contains(name.as_str()) {
            some.push(name.copy()?)?;
        }
    }
    Ok(some)
}

// Adds a root with those of its names that are in the set, where there is one.
fn add_root(
    alloc: Global,
    set: &Names,
    root: &(Name, List<Name>),
    annotated: &mut List<(Name, List<Name>)>,
) -> Result<(), NoMemory>
    ensures { OnOk result (annotated.new ≡ annotated.old ++ carried_by set.now root.now) }
{
    let carried = names_among(alloc, root.1.as_slice(), set)?;
    if carried.is_empty() {
        return Ok(());
    }
    annotated.push((root.0.copy()?, carried))
}

// The roots that carry a name of the set, each with those that it carries.
fn roots_carrying(
    alloc: Global,
    roots: &[(Name, List<Name>)],
    set: &Names,
) -> Result<List<(Name, List<Name>)>, NoMemory>
    ensures { IfOk result (λ annotated. annotated ≡ all_carried set.now roots.now) }
{
    let mut annotated = List::new(alloc);
    for root in roots {
        add_root(alloc, set, root, &mut annotated)?;
    }
    Ok(annotated)
}

/// The roots that carry one of the offered names, each with those that it carries, in the order of both lists.
/// `roots` has the names of roots, each with the names of the annotations that are present on it (`present_on` of
/// `round_env`).
pub fn annotated_roots(
    alloc: Global,
    roots: &[(Name, List<Name>)],
    offered: &[Name],
) -> Result<List<(Name, List<Name>)>, NoMemory>
    ensures { IfOk result (λ annotated. annotated ≡ annotated_roots offered.now roots.now) }
{
    let set = set_of(alloc, offered)?;
    roots_carrying(alloc, roots, &set)
}
