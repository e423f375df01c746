// What a class type puts in the place of type parameters.
ghost use Rattle.std.specs.Prelude.{◌≡◌, map, OnOk, IfOk};
ghost use Rattle.std.specs.List.{zip};
ghost use Rattle.type_mirror.specs.Parts.{plain};
ghost use Rattle.type_mirror.specs.Substitution.{substituted, AreDistinct};
ghost use Rattle.type_relations.specs.RawTypes as raw;
ghost use Rattle.type_relations.specs.RawTypes.{added, entries, once_behind};

use crate::places::type_parameters;
use apt_base::{ElementRef, List, NoMemory};
use element_table::Table;
use std::alloc::Global;
use type_mirror::{BaseMirror, DeclaredMirror, Mirror, substitute};

/// Whether a variable is among those that are replaced. It takes no memory.
pub fn has_entry(by: &[(ElementRef, Mirror)], at: &ElementRef) -> bool
    ensures { result ≡ raw.has_entry by.now at.now }
{
    for pair in by {
        if pair.0.is_equal(at) {
            return true;
        }
    }
    false
}

// The first entry for a variable counts.
#[tactic(auto, using(crate::proofs::EntriesOfTypes::adding))]
fn add_entry(
    alloc: Global,
    by: &mut List<(ElementRef, Mirror)>,
    at: &ElementRef,
    argument: &Mirror,
) -> Result<(), NoMemory>
    requires { AreDistinct by.old }
    ensures value { OnOk result (by.new ≡ added by.old (at.now, argument.now)) }
    ensures distinct { OnOk result (AreDistinct by.new) }
{
    if has_entry(by.as_slice(), at) {
        return Ok(());
    }
    let at = at.copy(alloc)?;
    let argument = argument.copy(alloc)?;
    by.push((at, argument))
}

#[tactic(auto, using(crate::proofs::EntriesOfTypes::owned))]
fn add_own(
    alloc: Global,
    by: &mut List<(ElementRef, Mirror)>,
    parameters: &[ElementRef],
    arguments: &[Mirror],
) -> Result<(), NoMemory>
    requires { AreDistinct by.old }
    ensures value { OnOk result (by.new ≡ once_behind by.old (zip parameters.now arguments.now)) }
    ensures distinct { OnOk result (AreDistinct by.new) }
{
    for at in 0..parameters.len() {
        if at >= arguments.len() {
            return Ok(());
        }
        add_entry(alloc, by, &parameters[at], &arguments[at])?;
    }
    Ok(())
}

#[cycle(replacing)]
#[tactic(auto, using(crate::proofs::EntriesOfTypes::entered))]
fn add_declared(
    alloc: Global,
    table: &Table,
    by: &mut List<(ElementRef, Mirror)>,
    of: &DeclaredMirror,
) -> Result<(), NoMemory>
    requires { AreDistinct by.old }
    ensures value { OnOk result (by.new ≡ once_behind by.old (entries table.now (raw.type_of_class of.now))) }
    ensures distinct { OnOk result (AreDistinct by.new) }
{
    let parameters = type_parameters(alloc, table, &of.element)?;
    add_own(alloc, by, parameters.as_slice(), of.arguments.as_slice())?;
    match &of.enclosing {
        None => Ok(()),
        Some(mirror) => add_entries(alloc, table, by, mirror.get()),
    }
}

// What the enclosing type has, if it is a class type.
#[cycle(replacing)]
#[tactic(auto, using(crate::proofs::EntriesOfTypes::entered))]
fn add_entries(
    alloc: Global,
    table: &Table,
    by: &mut List<(ElementRef, Mirror)>,
    of: &Mirror,
) -> Result<(), NoMemory>
    requires { AreDistinct by.old }
    ensures value { OnOk result (by.new ≡ once_behind by.old (entries table.now of.now)) }
    ensures distinct { OnOk result (AreDistinct by.new) }
{
    match of.around.as_slice() {
        [] => add_base(alloc, table, by, &of.base),
        [_, ..] => Ok(()),
    }
}

#[cycle(replacing)]
#[tactic(auto, using(crate::proofs::EntriesOfTypes::entered))]
fn add_base(
    alloc: Global,
    table: &Table,
    by: &mut List<(ElementRef, Mirror)>,
    of: &BaseMirror,
) -> Result<(), NoMemory>
    requires { AreDistinct by.old }
    ensures value { OnOk result (by.new ≡ once_behind by.old (entries table.now (plain of.now))) }
    ensures distinct { OnOk result (AreDistinct by.new) }
{
    match of {
        BaseMirror::Declared(declared) => add_declared(alloc, table, by, declared),
        BaseMirror::Primitive(_) => Ok(()),
        BaseMirror::Error(_) => Ok(()),
        BaseMirror::Variable(_) => Ok(()),
        BaseMirror::Wildcard => Ok(()),
        BaseMirror::Executable(_) => Ok(()),
        BaseMirror::Nothing => Ok(()),
        BaseMirror::Void => Ok(()),
        BaseMirror::Null => Ok(()),
        BaseMirror::Package(_) => Ok(()),
    }
}

#[tactic(auto, unfolding(crate::specs::RawTypes::replacements))]
fn replacements(
    alloc: Global,
    table: &Table,
    of: &DeclaredMirror,
) -> Result<List<(ElementRef, Mirror)>, NoMemory>
    ensures value { IfOk result (λ by. by ≡ raw.replacements table.now (raw.type_of_class of.now)) }
    ensures distinct { IfOk result (λ by. AreDistinct by) }
{
    let mut by = List::new(alloc);
    add_declared(alloc, table, &mut by, of)?;
    Ok(by)
}

fn replaced(
    alloc: Global,
    types: &[Mirror],
    by: &List<(ElementRef, Mirror)>,
) -> Result<List<Mirror>, NoMemory>
    requires { AreDistinct by.now }
    ensures { IfOk result (λ list. list ≡ map (substituted by.now) types.now) }
{
    let mut list = List::new(alloc);
    for each in types {
        let one = substitute(alloc, each, by)?;
        list.push(one)?;
    }
    Ok(list)
}

/// The types with what a class type puts in the place of type parameters, its enclosing types included.
pub(crate) fn replaced_by(
    alloc: Global,
    table: &Table,
    types: &[Mirror],
    of: &DeclaredMirror,
) -> Result<List<Mirror>, NoMemory>
    ensures { IfOk result (λ list. list ≡ raw.replaced_by table.now of.now types.now) }
{
    let by = replacements(alloc, table, of)?;
    replaced(alloc, types, &by)
}
