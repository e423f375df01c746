// Whether two mirrors are equal, and whether they are the same type: two trees side by side.
ghost use Rattle.std.specs.Prelude.{◌≡◌, ◌↔◌, IsTrue};
ghost use Rattle.type_layers.specs.Layers.{layer};
ghost use Rattle.type_layers.specs.Same.{equal, is_wildcard, same};

use apt_base::{Boxed, ElementRef, Name, is_same_around};
use type_mirror::{Around, BaseMirror, DeclaredMirror, ExecutableMirror, Mirror, PrimitiveKind};

fn is_same_kind(one: &PrimitiveKind, other: &PrimitiveKind) -> bool
    ensures { IsTrue result ↔ one.now ≡ other.now }
{
    *one == *other
}

fn is_same_name(one: &Name, other: &Name) -> bool
    ensures { IsTrue result ↔ one.now ≡ other.now }
{
    one.as_str() == other.as_str()
}

fn are_same_elements(ones: &[ElementRef], others: &[ElementRef]) -> bool
    ensures { IsTrue result ↔ ones.now ≡ others.now }
{
    if ones.len() != others.len() {
        return false;
    }
    for at in 0..ones.len() {
        if !ones[at].is_equal(&others[at]) {
            return false;
        }
    }
    true
}

#[cycle(equality)]
fn equals(one: &Mirror, other: &Mirror) -> bool
    ensures { IsTrue result ↔ one.now ≡ other.now }
{
    is_same_around(one.around.as_slice(), other.around.as_slice())
        && is_equal_base(&one.base, &other.base)
}

#[cycle(equality)]
fn is_equal_base(one: &BaseMirror, other: &BaseMirror) -> bool
    ensures { IsTrue result ↔ one.now ≡ other.now }
{
    match one {
        BaseMirror::Primitive(kind) => match other {
            BaseMirror::Primitive(other) => is_same_kind(kind, other),
            _ => false,
        },
        BaseMirror::Declared(declared) => match other {
            BaseMirror::Declared(other) => is_equal_declared(declared, other),
            _ => false,
        },
        BaseMirror::Error(text) => match other {
            BaseMirror::Error(other) => is_same_name(text, other),
            _ => false,
        },
        BaseMirror::Variable(element) => match other {
            BaseMirror::Variable(other) => element.is_equal(other),
            _ => false,
        },
        BaseMirror::Wildcard => matches!(other, BaseMirror::Wildcard),
        BaseMirror::Executable(executable) => match other {
            BaseMirror::Executable(other) => is_equal_executable(executable, other),
            _ => false,
        },
        BaseMirror::Nothing => matches!(other, BaseMirror::Nothing),
        BaseMirror::Void => matches!(other, BaseMirror::Void),
        BaseMirror::Null => matches!(other, BaseMirror::Null),
        BaseMirror::Package(name) => match other {
            BaseMirror::Package(other) => is_same_name(name, other),
            _ => false,
        },
    }
}

#[cycle(equality)]
fn are_equal(ones: &[Mirror], others: &[Mirror]) -> bool
    ensures { IsTrue result ↔ ones.now ≡ others.now }
{
    if ones.len() != others.len() {
        return false;
    }
    for at in 0..ones.len() {
        if !equals(&ones[at], &others[at]) {
            return false;
        }
    }
    true
}

#[cycle(equality)]
fn is_equal_enclosing(one: &Option<Boxed<Mirror>>, other: &Option<Boxed<Mirror>>) -> bool
    ensures { IsTrue result ↔ one.now ≡ other.now }
{
    match one {
        None => other.is_none(),
        Some(one) => match other {
            None => false,
            Some(other) => equals(one.get(), other.get()),
        },
    }
}

#[cycle(equality)]
fn is_equal_declared(one: &DeclaredMirror, other: &DeclaredMirror) -> bool
    ensures { IsTrue result ↔ one.now ≡ other.now }
{
    if !one.element.is_equal(&other.element) {
        return false;
    }
    if !is_equal_enclosing(&one.enclosing, &other.enclosing) {
        return false;
    }
    are_equal(one.arguments.as_slice(), other.arguments.as_slice())
}

#[cycle(equality)]
fn is_equal_executable(one: &ExecutableMirror, other: &ExecutableMirror) -> bool
    ensures { IsTrue result ↔ one.now ≡ other.now }
{
    if !are_same_elements(one.variables.as_slice(), other.variables.as_slice()) {
        return false;
    }
    if !are_equal(one.parameters.as_slice(), other.parameters.as_slice()) {
        return false;
    }
    if !equals(one.result.get(), other.result.get()) {
        return false;
    }
    are_equal(one.thrown.as_slice(), other.thrown.as_slice())
}

/// Whether the two mirrors are equal, wildcards included. It takes no memory, and one step for each mirror that both hold at the same place.
pub fn is_equal(one: &Mirror, other: &Mirror) -> bool
    ensures exact { IsTrue result ↔ one.now ≡ other.now }
    ensures value { result ≡ equal one.now other.now }
{
    equals(one, other)
}

#[tactic(auto, unfolding(crate::specs::Layers::layer))]
fn is_wildcard(mirror: &Mirror) -> bool
    ensures { result ≡ is_wildcard (layer mirror.now) }
{
    match mirror.around.as_slice() {
        [Around::Array, ..] => false,
        [Around::Extends, ..] => true,
        [Around::Super, ..] => true,
        [] => matches!(&mirror.base, BaseMirror::Wildcard),
    }
}

/// Whether the two mirrors are the same type, as `isSameType` of `javax.lang.model.util.Types` tells: they are equal, and no wildcards. It takes no memory.
#[tactic(auto, unfolding(crate::specs::Same::same))]
pub fn is_same(one: &Mirror, other: &Mirror) -> bool
    ensures { result ≡ same one.now other.now }
{
    !is_wildcard(one) && is_equal(one, other)
}
