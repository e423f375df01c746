// The units of the elements that are named, those in mirrors included.
ghost use Rattle.std.specs.Prelude.{◌≡◌, ◌∷◌, [], OnOk};
ghost use Rattle.std.specs.List.{flat_map};
ghost use Rattle.std.specs.Option.{option_to_list};
ghost use Rattle.named_units.specs.Named.{with_units, in_base, in_declared, in_executable};
ghost use Rattle.child_questions.specs.Verdicts.{elements_of};

use apt_base::{Boxed, ElementRef, Names, NoMemory};
use type_mirror::{BaseMirror, DeclaredMirror, ExecutableMirror, Mirror};

/// Adds the unit of an element.
pub(crate) fn add_element(names: &mut Names, at: &ElementRef) -> Result<(), NoMemory>
    ensures { OnOk result (names.new ≡ with_units names.old (at.now ∷ [])) }
{
    names.insert(at.unit.as_str())
}

/// Adds the units of elements.
fn add_elements(names: &mut Names, list: &[ElementRef]) -> Result<(), NoMemory>
    ensures { OnOk result (names.new ≡ with_units names.old list.now) }
{
    for each in list {
        add_element(names, each)?;
    }
    Ok(())
}

/// Adds the units of the elements that a mirror names.
#[cycle(add_mirror)]
#[tactic(auto, using(crate::proofs::NamedUnits::naming))]
pub(crate) fn add_mirror(names: &mut Names, mirror: &Mirror) -> Result<(), NoMemory>
    ensures { OnOk result (names.new ≡ with_units names.old (elements_of mirror.now)) }
{
    add_base(names, &mirror.base)
}

#[cycle(add_mirror)]
#[tactic(auto, using(crate::proofs::NamedUnits::naming))]
fn add_base(names: &mut Names, base: &BaseMirror) -> Result<(), NoMemory>
    ensures { OnOk result (names.new ≡ with_units names.old (in_base base.now)) }
{
    match base {
        BaseMirror::Declared(declared) => add_declared(names, declared),
        BaseMirror::Variable(at) => add_element(names, at),
        BaseMirror::Executable(executable) => add_executable(names, executable),
        BaseMirror::Primitive(_) => Ok(()),
        BaseMirror::Error(_) => Ok(()),
        BaseMirror::Wildcard => Ok(()),
        BaseMirror::Nothing => Ok(()),
        BaseMirror::Void => Ok(()),
        BaseMirror::Null => Ok(()),
        BaseMirror::Package(_) => Ok(()),
    }
}

/// Adds the units of the elements that these mirrors name.
#[cycle(add_mirror)]
pub(crate) fn add_mirrors(names: &mut Names, mirrors: &[Mirror]) -> Result<(), NoMemory>
    ensures { OnOk result (names.new ≡ with_units names.old (flat_map elements_of mirrors.now)) }
{
    for each in mirrors {
        add_mirror(names, each)?;
    }
    Ok(())
}

#[cycle(add_mirror)]
#[tactic(auto, using(crate::proofs::NamedUnits::naming))]
fn add_enclosing(names: &mut Names, enclosing: &Option<Boxed<Mirror>>) -> Result<(), NoMemory>
    ensures { OnOk result
        (names.new ≡ with_units names.old (flat_map elements_of (option_to_list enclosing.now))) }
{
    match enclosing {
        None => Ok(()),
        Some(mirror) => add_mirror(names, mirror.get()),
    }
}

#[cycle(add_mirror)]
#[tactic(auto, using(crate::proofs::NamedUnits::naming))]
fn add_declared(names: &mut Names, declared: &DeclaredMirror) -> Result<(), NoMemory>
    ensures { OnOk result (names.new ≡ with_units names.old (in_declared declared.now)) }
{
    add_element(names, &declared.element)?;
    add_enclosing(names, &declared.enclosing)?;
    add_mirrors(names, declared.arguments.as_slice())
}

#[cycle(add_mirror)]
#[tactic(auto, using(crate::proofs::NamedUnits::naming))]
fn add_executable(names: &mut Names, executable: &ExecutableMirror) -> Result<(), NoMemory>
    ensures { OnOk result (names.new ≡ with_units names.old (in_executable executable.now)) }
{
    add_elements(names, executable.variables.as_slice())?;
    add_mirrors(names, executable.parameters.as_slice())?;
    add_mirror(names, executable.result.get())?;
    add_mirrors(names, executable.thrown.as_slice())
}
