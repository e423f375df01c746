// Whether all elements that a mirror names are there. It takes no memory.
ghost use Rattle.std.specs.Prelude.{◌≡◌};
ghost use Rattle.std.specs.List.{list_all};
ghost use Rattle.std.specs.Option.{option_to_list};
ghost use Rattle.type_mirror.specs.Parts.{plain};
ghost use Rattle.type_relations.specs.Elements as elements;
ghost use Rattle.type_queries.specs.Verdicts as verdicts;

use apt_base::{Boxed, ElementRef};
use element_table::Table;
use type_mirror::{BaseMirror, DeclaredMirror, ExecutableMirror, Mirror};
use type_relations::is_there;

/// Whether each of these elements is there. It takes no memory.
pub fn each_is_there(table: &Table, list: &[ElementRef]) -> bool
    ensures { result ≡ list_all (elements.is_there table.now) list.now }
{
    for each in list {
        if !is_there(table, each) {
            return false;
        }
    }
    true
}

/// Whether each element that the mirror names is there. It takes no memory.
#[cycle(are_there)]
#[tactic(auto, using(crate::proofs::NamedElements::named))]
pub fn are_there(table: &Table, mirror: &Mirror) -> bool
    ensures { result ≡ verdicts.are_there table.now mirror.now }
{
    base_there(table, &mirror.base)
}

#[cycle(are_there)]
#[tactic(auto, using(crate::proofs::NamedElements::named))]
fn base_there(table: &Table, base: &BaseMirror) -> bool
    ensures { result ≡ verdicts.are_there table.now (plain base.now) }
{
    match base {
        BaseMirror::Declared(declared) => declared_there(table, declared),
        BaseMirror::Variable(at) => is_there(table, at),
        BaseMirror::Executable(executable) => executable_there(table, executable),
        BaseMirror::Primitive(_) => true,
        BaseMirror::Error(_) => true,
        BaseMirror::Wildcard => true,
        BaseMirror::Nothing => true,
        BaseMirror::Void => true,
        BaseMirror::Null => true,
        BaseMirror::Package(_) => true,
    }
}

/// Whether each element that these mirrors name is there. It takes no memory.
#[cycle(are_there)]
pub fn all_there(table: &Table, mirrors: &[Mirror]) -> bool
    ensures { result ≡ list_all (verdicts.are_there table.now) mirrors.now }
{
    for each in mirrors {
        if !are_there(table, each) {
            return false;
        }
    }
    true
}

#[cycle(are_there)]
fn enclosing_there(table: &Table, enclosing: &Option<Boxed<Mirror>>) -> bool
    ensures { result ≡ list_all (verdicts.are_there table.now) (option_to_list enclosing.now) }
{
    match enclosing {
        None => true,
        Some(mirror) => are_there(table, mirror.get()),
    }
}

#[cycle(are_there)]
#[tactic(auto, using(crate::proofs::NamedElements::named))]
fn declared_there(table: &Table, declared: &DeclaredMirror) -> bool
    ensures { result ≡ verdicts.declared_there table.now declared.now }
{
    if !is_there(table, &declared.element) {
        return false;
    }
    if !enclosing_there(table, &declared.enclosing) {
        return false;
    }
    all_there(table, declared.arguments.as_slice())
}

#[cycle(are_there)]
#[tactic(auto, using(crate::proofs::NamedElements::named))]
fn executable_there(table: &Table, executable: &ExecutableMirror) -> bool
    ensures { result ≡ verdicts.executable_there table.now executable.now }
{
    if !each_is_there(table, executable.variables.as_slice()) {
        return false;
    }
    if !all_there(table, executable.parameters.as_slice()) {
        return false;
    }
    if !are_there(table, executable.result.get()) {
        return false;
    }
    all_there(table, executable.thrown.as_slice())
}
