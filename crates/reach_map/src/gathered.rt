// The candidates of a unit.
ghost use Rattle.std.specs.Prelude.{◌≡◌, IfOk, OnOk};
ghost use Rattle.apt_base.specs.Names.{with_names};
ghost use Rattle.name_resolve.specs.Parts.{lent};
ghost use Rattle.reach_map.specs.Candidates.{prefixes_of_all, import_prefixes, own_names};
ghost use Rattle.reach_map.specs.CandidateSets.{candidate_set, candidate_list};

use crate::chains::add_in_package;
use crate::places::with_places;
use crate::prefixes::add_text;
use apt_base::{List, Name, Names, NoMemory};
use decl_tree::{Import, Unit};
use element_table::unit_name;
use std::alloc::Global;

/// The names that declarations imply.
pub const IMPLIED: [&str; 14] = [
    "java.lang.Object",
    "java.lang.Enum",
    "java.lang.annotation.Annotation",
    "java.lang.annotation.Inherited",
    "java.lang.Cloneable",
    "java.io.Serializable",
    "java.lang.Boolean",
    "java.lang.Byte",
    "java.lang.Short",
    "java.lang.Integer",
    "java.lang.Long",
    "java.lang.Character",
    "java.lang.Float",
    "java.lang.Double",
];

// The name of the unit, and that of the unit of its package.
fn add_own(alloc: Global, unit: &Unit, names: &mut Names) -> Result<(), NoMemory>
    ensures { OnOk result (names.new ≡ with_names names.old (own_names unit.now)) }
{
    let name = unit_name(alloc, unit)?;
    names.insert(name.as_str())?;
    add_in_package(alloc, unit.text().package.as_str(), "package-info", names)
}

// Each prefix of each import.
fn add_imports(alloc: Global, imports: &[Import], names: &mut Names) -> Result<(), NoMemory>
    ensures { OnOk result (names.new ≡ with_names names.old (import_prefixes imports.now)) }
{
    for import in imports {
        add_text(alloc, import.name.as_str(), names)?;
    }
    Ok(())
}

// Each prefix of each of some names.
fn add_texts(alloc: Global, texts: &[&str], names: &mut Names) -> Result<(), NoMemory>
    ensures { OnOk result (names.new ≡ with_names names.old (prefixes_of_all (lent texts.now))) }
{
    for text in texts {
        add_text(alloc, *text, names)?;
    }
    Ok(())
}

// The candidates of a unit as a set.
fn gathered(alloc: Global, unit: &Unit) -> Result<Names, NoMemory>
    ensures { IfOk result (λ names. names ≡ candidate_set unit.now) }
{
    let mut names = Names::new(alloc);
    add_own(alloc, unit, &mut names)?;
    let mut names = with_places(alloc, unit, names)?;
    add_imports(alloc, unit.text().imports.get().as_slice(), &mut names)?;
    add_texts(alloc, &IMPLIED, &mut names)?;
    Ok(names)
}

/// The candidates of a unit: each name of a unit on which the meaning of its names may depend, ascending by their bytes. They are a function of the unit alone, and a table may have none of them.
pub fn candidates(alloc: Global, unit: &Unit) -> Result<List<Name>, NoMemory>
    ensures { IfOk result (λ names. names ≡ candidate_list unit.now) }
{
    let names = gathered(alloc, unit)?;
    names.list()
}
