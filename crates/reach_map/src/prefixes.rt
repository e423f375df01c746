// Prefixes of qualified names, put into a set.
ghost use Rattle.std.specs.Prelude.{◌≡◌, ◌∷◌, OnOk};
ghost use Rattle.apt_base.specs.Identifiers.{parts};
ghost use Rattle.apt_base.specs.Names.{with_names};
ghost use Rattle.name_resolve.specs.Parts.{lent};
ghost use Rattle.reach_map.specs.Candidates.{prefix_names};

use apt_base::{Names, NoMemory};
use name_resolve::{longer, split};
use std::alloc::Global;

// Each prefix of names of which the first is given by itself.
fn add_prefixes_from(
    alloc: Global,
    first: &str,
    others: &[&str],
    names: &mut Names,
) -> Result<(), NoMemory>
    ensures { OnOk result (names.new ≡ with_names names.old (prefix_names (first.now ∷ lent others.now))) }
{
    let mut prefix = String::from_str(alloc, first)?;
    names.insert(prefix.as_str())?;
    for name in others {
        prefix = longer(alloc, prefix.as_str(), *name)?;
        names.insert(prefix.as_str())?;
    }
    Ok(())
}

/// Each prefix of names that dots join, the whole one too.
pub(crate) fn add_prefixes(alloc: Global, chain: &[&str], names: &mut Names) -> Result<(), NoMemory>
    ensures { OnOk result (names.new ≡ with_names names.old (prefix_names (lent chain.now))) }
{
    let Some((first, others)) = chain.split_first() else {
        return Ok(());
    };
    add_prefixes_from(alloc, *first, others, names)
}

/// The same of names in one text.
pub(crate) fn add_text(alloc: Global, text: &str, names: &mut Names) -> Result<(), NoMemory>
    ensures { OnOk result (names.new ≡ with_names names.old (prefix_names (parts text.now))) }
{
    let chain = split(alloc, text)?;
    add_prefixes(alloc, chain.as_slice(), names)
}
