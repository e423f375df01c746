// Type variables replaced by types.
ghost use Rattle.std.specs.Prelude.{◌≡◌, ◌↔◌, map, IsTrue, IfOk};
ghost use Rattle.std.specs.List.{list_any};
ghost use Rattle.std.specs.Option.{option_copied};
ghost use Rattle.apt_base.specs.Elements.{same_element};
ghost use Rattle.type_mirror.specs.Substitution.{AreDistinct, is_distinct, HasNone, replacement, in_place, substituted, substituted_base, substituted_declared, substituted_executable, variables, variables_in_place};

use crate::mirror::{BaseMirror, DeclaredMirror, ExecutableMirror, Mirror, copy_elements};
use apt_base::{Boxed, ElementRef, List, NoMemory};
use std::alloc::Global;

fn is_among(element: &ElementRef, by: &[(ElementRef, Mirror)]) -> bool
    ensures { result ≡ list_any (λ pair. same_element element.now pair.0) by.now }
{
    for pair in by {
        if element.is_equal(&pair.0) {
            return true;
        }
    }
    false
}

fn all_differ(by: &[(ElementRef, Mirror)]) -> bool
    ensures { result ≡ is_distinct by.now }
{
    for at in 0..by.len() {
        if is_among(&by[at].0, &by[at + 1..]) {
            return false;
        }
    }
    true
}

/// Whether no variable stands twice in the list. Each is compared with each.
pub fn are_distinct(by: &List<(ElementRef, Mirror)>) -> bool
    ensures { IsTrue result ↔ AreDistinct by.now }
{
    all_differ(by.as_slice())
}

fn first_with<'a>(by: &'a [(ElementRef, Mirror)], element: &ElementRef) -> Option<&'a Mirror>
    ensures { option_copied result ≡ replacement by.now element.now }
{
    for pair in by {
        if pair.0.is_equal(element) {
            return Some(&pair.1);
        }
    }
    None
}

// What is put in the place of that variable. The list is read at the place that the last number of the variable's path
// names, which is where it stands if the list has the type parameters of its declaration in order, and only else from the
// start.
fn found<'a>(by: &'a List<(ElementRef, Mirror)>, element: &ElementRef) -> Option<&'a Mirror>
    requires { AreDistinct by.now }
    ensures { option_copied result ≡ replacement by.now element.now }
{
    if let [.., last] = element.path.as_slice()
        && let Some(pair) = by.get(*last as usize)
        && pair.0.is_equal(element)
    {
        return Some(&pair.1);
    }
    first_with(by.as_slice(), element)
}

/// The mirror with each variable of the list replaced, all at once, wherever it stands as a type: what was put in is not looked at again, and a variable that is not in the list stays. An executable's own type parameters are named, and do not stand there as types.
///
/// The work is one step for each mirror in this one, and for each variable of the list that stands in it that of a copy. A variable is found in the list at once where it stands at the place that the last number of its path names, as the type parameters of one declaration do in order. Any other variable is compared with each of the list.
#[tactic(auto, using(crate::proofs::VariablesOf::laws))]
pub fn substitute(
    alloc: Global,
    mirror: &Mirror,
    by: &List<(ElementRef, Mirror)>,
) -> Result<Mirror, NoMemory>
    requires { AreDistinct by.now }
    ensures replaced { IfOk result (λ replaced. replaced ≡ substituted by.now mirror.now) }
    ensures stays { IfOk result (λ replaced. HasNone by.now (variables mirror.now) → replaced ≡ mirror.now) }
    ensures once { IfOk result (λ after. variables after ≡ variables_in_place by.now (variables mirror.now)) }
{
    in_mirror(alloc, mirror, by)
}

#[cycle(substitution)]
#[tactic(auto, using(crate::proofs::Replaced::replaced))]
fn in_mirror(
    alloc: Global,
    mirror: &Mirror,
    by: &List<(ElementRef, Mirror)>,
) -> Result<Mirror, NoMemory>
    requires { AreDistinct by.now }
    ensures { IfOk result (λ replaced. replaced ≡ substituted by.now mirror.now) }
{
    let base = in_base(alloc, &mirror.base, by)?;
    base.wrapped(alloc, &mirror.around)
}

#[cycle(substitution)]
#[tactic(auto, using(crate::proofs::Replaced::replaced))]
fn in_base(
    alloc: Global,
    base: &BaseMirror,
    by: &List<(ElementRef, Mirror)>,
) -> Result<Mirror, NoMemory>
    requires { AreDistinct by.now }
    ensures { IfOk result (λ replaced. replaced ≡ substituted_base by.now base.now) }
{
    match base {
        BaseMirror::Declared(declared) => {
            let replaced = in_declared(alloc, declared, by)?;
            Ok(Mirror::plain(alloc, BaseMirror::Declared(replaced)))
        }
        BaseMirror::Variable(element) => in_place_of(alloc, element, by),
        BaseMirror::Executable(executable) => {
            let replaced = in_executable(alloc, executable, by)?;
            Ok(Mirror::plain(alloc, BaseMirror::Executable(replaced)))
        }
        BaseMirror::Primitive(kind) => Ok(Mirror::plain(alloc, BaseMirror::Primitive(*kind))),
        BaseMirror::Error(text) => Ok(Mirror::plain(alloc, BaseMirror::Error(text.copy()?))),
        BaseMirror::Wildcard => Ok(Mirror::plain(alloc, BaseMirror::Wildcard)),
        BaseMirror::Nothing => Ok(Mirror::plain(alloc, BaseMirror::Nothing)),
        BaseMirror::Void => Ok(Mirror::plain(alloc, BaseMirror::Void)),
        BaseMirror::Null => Ok(Mirror::plain(alloc, BaseMirror::Null)),
        BaseMirror::Package(name) => Ok(Mirror::plain(alloc, BaseMirror::Package(name.copy()?))),
    }
}

fn in_place_of(
    alloc: Global,
    element: &ElementRef,
    by: &List<(ElementRef, Mirror)>,
) -> Result<Mirror, NoMemory>
    requires { AreDistinct by.now }
    ensures { IfOk result (λ replaced. replaced ≡ in_place by.now element.now) }
{
    match found(by, element) {
        Some(replacement) => replacement.copy(alloc),
        None => {
            let copy = element.copy(alloc)?;
            Ok(Mirror::plain(alloc, BaseMirror::Variable(copy)))
        }
    }
}

#[cycle(substitution)]
fn in_boxed(
    alloc: Global,
    mirror: &Mirror,
    by: &List<(ElementRef, Mirror)>,
) -> Result<Boxed<Mirror>, NoMemory>
    requires { AreDistinct by.now }
    ensures { IfOk result (λ replaced. replaced ≡ substituted by.now mirror.now) }
{
    Boxed::new(alloc, in_mirror(alloc, mirror, by)?)
}

#[cycle(substitution)]
fn in_each(
    alloc: Global,
    mirrors: &[Mirror],
    by: &List<(ElementRef, Mirror)>,
) -> Result<List<Mirror>, NoMemory>
    requires { AreDistinct by.now }
    ensures { IfOk result (λ replaced. replaced ≡ map (substituted by.now) mirrors.now) }
{
    let mut replaced = List::new(alloc);
    for each in mirrors {
        replaced.push(in_mirror(alloc, each, by)?)?;
    }
    Ok(replaced)
}

#[cycle(substitution)]
#[tactic(auto, using(crate::proofs::Replaced::replaced))]
fn in_declared(
    alloc: Global,
    declared: &DeclaredMirror,
    by: &List<(ElementRef, Mirror)>,
) -> Result<DeclaredMirror, NoMemory>
    requires { AreDistinct by.now }
    ensures { IfOk result (λ replaced. replaced ≡ substituted_declared by.now declared.now) }
{
    let element = declared.element.copy(alloc)?;
    let arguments = in_each(alloc, declared.arguments.as_slice(), by)?;
    match &declared.enclosing {
        None => Ok(DeclaredMirror {
            element,
            enclosing: None,
            arguments,
        }),
        Some(mirror) => Ok(DeclaredMirror {
            element,
            enclosing: Some(in_boxed(alloc, mirror.get(), by)?),
            arguments,
        }),
    }
}

#[cycle(substitution)]
#[tactic(auto, using(crate::proofs::Replaced::replaced))]
fn in_executable(
    alloc: Global,
    executable: &ExecutableMirror,
    by: &List<(ElementRef, Mirror)>,
) -> Result<ExecutableMirror, NoMemory>
    requires { AreDistinct by.now }
    ensures { IfOk result (λ replaced. replaced ≡ substituted_executable by.now executable.now) }
{
    Ok(ExecutableMirror {
        variables: copy_elements(alloc, executable.variables.as_slice())?,
        parameters: in_each(alloc, executable.parameters.as_slice(), by)?,
        result: in_boxed(alloc, executable.result.get(), by)?,
        thrown: in_each(alloc, executable.thrown.as_slice(), by)?,
    })
}
