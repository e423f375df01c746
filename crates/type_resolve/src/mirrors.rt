// The mirrors that types mean.
ghost use Rattle.std.specs.Prelude.{◌≡◌, [], map, string_bytes, IfOk};
ghost use Rattle.type_mirror.specs.Parts.{plain};
ghost use Rattle.type_mirror.specs.declared.mirror.BaseMirror.TheVariants.{Error};
ghost use Rattle.name_resolve.specs.Finds.{One};
ghost use Rattle.name_resolve.specs.Meaning.{meaning, qualifier_meaning};
ghost use Rattle.name_resolve.specs.Mirrors.{found_mirror, class_mirror, primitive_base, ref_of, or_none};
ghost use Rattle.name_resolve.specs.Parts.{lent};
ghost use Rattle.name_resolve.specs.Shown.{find_of, finds_of, Gives};
ghost use Rattle.type_resolve.specs.MirrorParts.{IsScope, look_in, type_mirror_in, base_mirror_in, class_mirror_in, arguments_in, found_by, whole_in, front_in, enclosing_in};
ghost use Rattle.type_resolve.specs.Spelling.{parts_spelled};

use crate::annotations::reference;
use crate::pairs::{appended, both, boxed};
use crate::scopes::Scope;
use crate::spelling::spelled;
use apt_base::{ElementRef, List, Name, NoMemory};
use decl_tree::{BaseType, NamedPart, PrimitiveKind, TypeText};
use name_resolve::{Finds, Found, Looks, type_at};
use std::alloc::Global;
use type_mirror::{BaseMirror, DeclaredMirror, Mirror, PrimitiveKind as Kind};

fn primitive_base(kind: PrimitiveKind) -> BaseMirror
    ensures { result ≡ primitive_base kind }
{
    match kind {
        PrimitiveKind::Boolean => BaseMirror::Primitive(Kind::Boolean),
        PrimitiveKind::Byte => BaseMirror::Primitive(Kind::Byte),
        PrimitiveKind::Short => BaseMirror::Primitive(Kind::Short),
        PrimitiveKind::Int => BaseMirror::Primitive(Kind::Int),
        PrimitiveKind::Long => BaseMirror::Primitive(Kind::Long),
        PrimitiveKind::Char => BaseMirror::Primitive(Kind::Char),
        PrimitiveKind::Float => BaseMirror::Primitive(Kind::Float),
        PrimitiveKind::Double => BaseMirror::Primitive(Kind::Double),
        PrimitiveKind::Void => BaseMirror::Void,
    }
}

/// A class type of this element.
pub(crate) fn class_type(
    alloc: Global,
    element: ElementRef,
    enclosing: Option<Mirror>,
    arguments: List<Mirror>,
) -> Result<Mirror, NoMemory>
    ensures { IfOk result (λ m. m ≡ class_mirror element enclosing arguments) }
{
    let ((element, arguments), enclosing) = both((element, arguments), boxed(alloc, enclosing))?;
    let declared = DeclaredMirror {
        element,
        enclosing,
        arguments,
    };
    Ok(Mirror::plain(alloc, BaseMirror::Declared(declared)))
}

/// The class type or the type variable of what was found.
pub(crate) fn element_type(
    alloc: Global,
    find: &Found<'_>,
    enclosing: Option<Mirror>,
    arguments: List<Mirror>,
) -> Result<Mirror, NoMemory>
    ensures { IfOk result (λ m. m ≡ found_mirror (One (find_of find.now)) [] enclosing arguments) }
{
    let ((enclosing, arguments), element) = both((enclosing, arguments), reference(alloc, find))?;
    match type_at(find) {
        None => {
            drop((enclosing, arguments));
            Ok(Mirror::plain(alloc, BaseMirror::Variable(element)))
        }
        Some(_) => class_type(alloc, element, enclosing, arguments),
    }
}

// An error type with a text.
fn error_type(alloc: Global, text: String) -> Mirror
    ensures { result ≡ plain (Error (string_bytes text)) }
{
    Mirror::plain(alloc, BaseMirror::Error(Name::from_string(alloc, text)))
}

// The error type with the text of these parts.
fn error_of_parts(alloc: Global, parts: &[NamedPart]) -> Result<Mirror, NoMemory>
    ensures { IfOk result (λ m. m ≡ plain (Error (parts_spelled parts.now))) }
{
    let text = spelled(alloc, parts)?;
    Ok(error_type(alloc, text))
}

// What was found for the names of these parts.
fn found_type(
    alloc: Global,
    finds: &Finds<'_>,
    parts: &[NamedPart],
    enclosing: Option<Mirror>,
    arguments: List<Mirror>,
) -> Result<Mirror, NoMemory>
    ensures { IfOk result (λ m. m ≡ found_by (finds_of finds.now) parts.now enclosing arguments) }
{
    match finds {
        Finds::One(find) => element_type(alloc, find, enclosing, arguments),
        Finds::Nothing => {
            drop((enclosing, arguments));
            error_of_parts(alloc, parts)
        }
        Finds::Several => {
            drop((enclosing, arguments));
            error_of_parts(alloc, parts)
        }
    }
}

fn whole<'a>(
    looks: &mut Looks<'a>,
    scope: &Scope<'a>,
    names: &[&str],
) -> Result<Finds<'a>, NoMemory>
    requires scope { IsScope scope.now }
    requires table { looks.old ≡ scope.now.table.now }
    ensures value { Gives result ((look_in scope.now).whole (lent names.now)) }
    ensures kept { looks.new ≡ looks.old }
{
    looks.meaning(scope.header, &scope.at, names)
}

fn front<'a>(
    looks: &mut Looks<'a>,
    scope: &Scope<'a>,
    names: &[&str],
) -> Result<Finds<'a>, NoMemory>
    requires scope { IsScope scope.now }
    requires table { looks.old ≡ scope.now.table.now }
    ensures value { Gives result ((look_in scope.now).front (lent names.now)) }
    ensures kept { looks.new ≡ looks.old }
{
    looks.qualifier_meaning(scope.header, &scope.at, names)
}

// The arguments that a name has; none where none are written.
fn or_none(alloc: Global, arguments: Option<List<Mirror>>) -> List<Mirror>
    ensures { result ≡ or_none arguments }
{
    match arguments {
        None => List::new(alloc),
        Some(list) => list,
    }
}

// What all names of a class type mean.
fn whole_type<'a>(
    alloc: Global,
    looks: &mut Looks<'a>,
    scope: &Scope<'a>,
    names: &[&str],
    parts: &[NamedPart],
    enclosing: Option<Mirror>,
    arguments: Option<List<Mirror>>,
) -> Result<Mirror, NoMemory>
    requires scope { IsScope scope.now }
    requires table { looks.old ≡ scope.now.table.now }
    ensures value { IfOk result (λ m. m ≡ whole_in scope.now (lent names.now) parts.now enclosing arguments) }
    ensures kept { looks.new ≡ looks.old }
{
    let finds = whole(looks, scope, names);
    let ((enclosing, arguments), finds) = both((enclosing, arguments), finds)?;
    let arguments = or_none(alloc, arguments);
    found_type(alloc, &finds, parts, enclosing, arguments)
}

// What the first names of a class type mean.
fn front_type<'a>(
    alloc: Global,
    looks: &mut Looks<'a>,
    scope: &Scope<'a>,
    names: &[&str],
    parts: &[NamedPart],
    enclosing: Option<Mirror>,
    arguments: Option<List<Mirror>>,
) -> Result<Mirror, NoMemory>
    requires scope { IsScope scope.now }
    requires table { looks.old ≡ scope.now.table.now }
    ensures value { IfOk result (λ m. m ≡ front_in scope.now (lent names.now) parts.now enclosing arguments) }
    ensures kept { looks.new ≡ looks.old }
{
    let finds = front(looks, scope, names);
    let ((enclosing, arguments), finds) = both((enclosing, arguments), finds)?;
    let arguments = or_none(alloc, arguments);
    found_type(alloc, &finds, parts, enclosing, arguments)
}

// What encloses the next name: what the names so far mean, where arguments are written on one of them.
fn next_enclosing<'a>(
    alloc: Global,
    looks: &mut Looks<'a>,
    scope: &Scope<'a>,
    names: &[&str],
    parts: &[NamedPart],
    enclosing: Option<Mirror>,
    arguments: Option<List<Mirror>>,
) -> Result<Option<Mirror>, NoMemory>
    requires scope { IsScope scope.now }
    requires table { looks.old ≡ scope.now.table.now }
    ensures value { IfOk result (λ o. o ≡ enclosing_in scope.now (lent names.now) parts.now enclosing arguments) }
    ensures kept { looks.new ≡ looks.old }
{
    if enclosing.is_some() || arguments.is_some() {
        let here = front_type(alloc, looks, scope, names, parts, enclosing, arguments)?;
        return Ok(Some(here));
    }
    drop((enclosing, arguments));
    Ok(None)
}

/// The mirror that a type means in a scope, by look-ups over its table.
#[cycle(mirror)]
#[tactic(auto, using(crate::proofs::MirrorLemmas::by_parts))]
pub(crate) fn mirror<'a>(
    alloc: Global,
    looks: &mut Looks<'a>,
    scope: &Scope<'a>,
    text: &TypeText,
) -> Result<Mirror, NoMemory>
    requires scope { IsScope scope.now }
    requires table { looks.old ≡ scope.now.table.now }
    ensures value { IfOk result (λ m. m ≡ type_mirror_in scope.now text.now) }
    ensures kept { looks.new ≡ looks.old }
{
    let base = base_type(alloc, looks, scope, &text.base)?;
    base.wrapped(alloc, &text.around)
}

#[cycle(mirror)]
#[tactic(auto, using(crate::proofs::MirrorLemmas::by_parts))]
fn base_type<'a>(
    alloc: Global,
    looks: &mut Looks<'a>,
    scope: &Scope<'a>,
    of: &BaseType,
) -> Result<Mirror, NoMemory>
    requires scope { IsScope scope.now }
    requires table { looks.old ≡ scope.now.table.now }
    ensures value { IfOk result (λ m. m ≡ base_mirror_in scope.now of.now) }
    ensures kept { looks.new ≡ looks.old }
{
    match of {
        BaseType::Primitive(kind) => Ok(Mirror::plain(alloc, primitive_base(*kind))),
        BaseType::Named(parts) => named_type(alloc, looks, scope, parts.as_slice()),
        BaseType::Wildcard => Ok(Mirror::plain(alloc, BaseMirror::Wildcard)),
    }
}

// A class type or a type variable. What the first names mean is looked up only where it encloses the next one.
#[cycle(mirror)]
fn named_type<'a>(
    alloc: Global,
    looks: &mut Looks<'a>,
    scope: &Scope<'a>,
    parts: &[NamedPart],
) -> Result<Mirror, NoMemory>
    requires scope { IsScope scope.now }
    requires table { looks.old ≡ scope.now.table.now }
    ensures value { IfOk result (λ m. m ≡ class_mirror_in scope.now parts.now) }
    ensures kept { looks.new ≡ looks.old }
{
    let mut names: Vec<&str> = Vec::new(alloc);
    let mut enclosing = None;
    for part in parts {
        names.push(part.name.as_str())?;
        let arguments = arguments_of(alloc, looks, scope, part);
        let (outer, arguments) = both(enclosing, arguments)?;
        let here = &parts[..names.len()];
        if names.len() == parts.len() {
            return whole_type(
                alloc,
                looks,
                scope,
                names.as_slice(),
                here,
                outer,
                arguments,
            );
        }
        let front = names.as_slice();
        enclosing = next_enclosing(alloc, looks, scope, front, here, outer, arguments)?;
    }
    drop(enclosing);
    Ok(error_type(alloc, String::new(alloc)))
}

// The arguments of a name, or `None` where none are written.
#[cycle(mirror)]
#[tactic(auto, using(crate::proofs::MirrorLemmas::by_parts))]
fn arguments_of<'a>(
    alloc: Global,
    looks: &mut Looks<'a>,
    scope: &Scope<'a>,
    part: &NamedPart,
) -> Result<Option<List<Mirror>>, NoMemory>
    requires scope { IsScope scope.now }
    requires table { looks.old ≡ scope.now.table.now }
    ensures value { IfOk result (λ list. list ≡ arguments_in scope.now part.now) }
    ensures kept { looks.new ≡ looks.old }
{
    match &part.arguments {
        None => Ok(None),
        Some(list) => {
            let mirrors = mirrors(alloc, looks, scope, list.as_slice())?;
            Ok(Some(mirrors))
        }
    }
}

#[cycle(mirror)]
fn mirrors<'a>(
    alloc: Global,
    looks: &mut Looks<'a>,
    scope: &Scope<'a>,
    texts: &[TypeText],
) -> Result<List<Mirror>, NoMemory>
    requires scope { IsScope scope.now }
    requires table { looks.old ≡ scope.now.table.now }
    ensures value { IfOk result (λ list. list ≡ map (type_mirror_in scope.now) texts.now) }
    ensures kept { looks.new ≡ looks.old }
{
    let mut list = List::new(alloc);
    for each in texts {
        list = appended(list, mirror(alloc, looks, scope, each))?;
    }
    Ok(list)
}
