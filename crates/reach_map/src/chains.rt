// The candidates of a name chain, put into a set.
ghost use Rattle.std.specs.Prelude.{◌≡◌, ◌∷◌, ◌++◌, [], OnOk};
ghost use Rattle.apt_base.specs.Identifiers.{parts};
ghost use Rattle.element_table.specs.UnitNames.{in_package};
ghost use Rattle.apt_base.specs.Names.{with_name, with_names};
ghost use Rattle.name_resolve.specs.Parts.{lent};
ghost use Rattle.reach_map.specs.Candidates.{imported_name, imported_names, first_candidates, chain_candidates};
ghost use Rattle.reach_map.specs.CandidateSets.{with_chains};

use crate::prefixes::add_prefixes;
use apt_base::{Names, NoMemory};
use decl_tree::{Import, ImportKind, UnitText};
use element_table::in_package;
use name_resolve::{longer, split};
use std::alloc::Global;

/// A simple name in a package.
pub(crate) fn add_in_package(
    alloc: Global,
    package: &str,
    name: &str,
    names: &mut Names,
) -> Result<(), NoMemory>
    ensures { OnOk result (names.new ≡ with_name names.old (in_package «package».now name.now)) }
{
    let name = in_package(alloc, package, name)?;
    names.insert(name.as_str())
}

// A simple name in what an import names.
fn add_behind(alloc: Global, import: &str, first: &str, names: &mut Names) -> Result<(), NoMemory>
    ensures { OnOk result (names.new ≡ with_name names.old (import.now ++ 46 ∷ first.now)) }
{
    let name = longer(alloc, import, first)?;
    names.insert(name.as_str())
}

// The first name of a chain in an import, if that is one on demand.
fn add_imported(
    alloc: Global,
    import: &Import,
    first: &str,
    names: &mut Names,
) -> Result<(), NoMemory>
    ensures { OnOk result (names.new ≡ with_names names.old (imported_name first.now import.now)) }
{
    match import.kind {
        ImportKind::OnDemand => add_behind(alloc, import.name.as_str(), first, names),
        ImportKind::StaticOnDemand => add_behind(alloc, import.name.as_str(), first, names),
        ImportKind::Single => Ok(()),
        ImportKind::StaticSingle => Ok(()),
    }
}

// The first name of a chain in each import on demand.
fn add_all_imported(
    alloc: Global,
    imports: &[Import],
    first: &str,
    names: &mut Names,
) -> Result<(), NoMemory>
    ensures { OnOk result (names.new ≡ with_names names.old (imported_names first.now imports.now)) }
{
    for import in imports {
        add_imported(alloc, import, first, names)?;
    }
    Ok(())
}

// The first name of a chain in the unit's package, in `java.lang` and in each import on demand.
fn add_first(alloc: Global, unit: &UnitText, first: &str, names: &mut Names) -> Result<(), NoMemory>
    ensures { OnOk result (names.new ≡ with_names names.old (first_candidates unit.now first.now)) }
{
    add_in_package(alloc, unit.package.as_str(), first, names)?;
    add_in_package(alloc, "java.lang", first, names)?;
    add_all_imported(alloc, unit.imports.get().as_slice(), first, names)
}

/// A name chain: each prefix, and its first name by `add_first`.
pub(crate) fn add_chain(
    alloc: Global,
    unit: &UnitText,
    chain: &[&str],
    names: &mut Names,
) -> Result<(), NoMemory>
    ensures { OnOk result (names.new ≡ with_names names.old (chain_candidates unit.now (lent chain.now))) }
{
    let Some((first, _)) = chain.split_first() else {
        return Ok(());
    };
    add_prefixes(alloc, chain, names)?;
    add_first(alloc, unit, *first, names)
}

/// A name chain that is one text.
pub(crate) fn add_chain_text(
    alloc: Global,
    unit: &UnitText,
    text: &str,
    names: &mut Names,
) -> Result<(), NoMemory>
    ensures { OnOk result (names.new ≡ with_chains unit.now names.old (parts text.now ∷ [])) }
{
    let chain = split(alloc, text)?;
    add_chain(alloc, unit, chain.as_slice(), names)
}
