// What the header of a type names or implies.
ghost use Rattle.std.specs.Prelude.{◌≡◌, ◌++◌, [], false, map, Some, IfOk};
ghost use Rattle.std.specs.Option.{option_copied};
ghost use Rattle.name_resolve.specs.Ways.{type_at};
ghost use Rattle.name_resolve.specs.Supertypes.{Written, is_object, superclass_in, interfaces_in, supertypes_in, supertypes, superclass_at, interfaces_at};
ghost use Rattle.name_resolve.specs.Shown.{find_of, super_of, supers_of};

use crate::finds::{Found, simple_name};
use apt_base::NoMemory;
use decl_elements::place_at;
use decl_tree::{TypeDecl, TypeKind, TypeText};
use std::alloc::Global;

/// A direct supertype of a type, as it is written or as it is implied.
#[derive(Clone, Copy)]
pub enum Supertype<'a> {
    /// The type behind `extends`, or one of those behind `implements` (JLS 8.1.4, 8.1.5, 9.1.3).
    Written(&'a TypeText),
    /// `java.lang.Object`, of a class without `extends` (JLS 8.1.4).
    Object,
    /// `java.lang.Enum`, of an enum (JLS 8.9).
    Enum,
    /// `java.lang.annotation.Annotation`, of an annotation interface (JLS 9.6).
    Annotation,
}

/// The declaration of what was found, or `None` where it is no type. It takes no memory.
pub fn type_at<'a>(of: &Found<'a>) -> Option<&'a TypeDecl>
    ensures { option_copied result ≡ type_at of.now.unit.now of.now.path.items }
{
    match place_at(of.unit, of.path.as_slice()) {
        None => None,
        Some(place) => place.declaration(),
    }
}

fn is_object(of: &Found<'_>) -> bool
    ensures { result ≡ is_object (find_of of.now) }
{
    let text = of.unit.text();
    text.package.as_str() == "java.lang"
        && simple_name(&text.body) == "Object"
        && of.path.is_empty()
}

fn superclass_of<'a>(of_object: bool, declaration: &'a TypeDecl) -> Option<Supertype<'a>>
    ensures { supers_of result ≡ superclass_in of_object declaration.now.kind declaration.now }
{
    match declaration.kind {
        TypeKind::Class => {
            if of_object {
                return None;
            }
            match &declaration.superclass {
                Some(text) => Some(Supertype::Written(text)),
                None => Some(Supertype::Object),
            }
        }
        TypeKind::Enum => Some(Supertype::Enum),
        TypeKind::AnnotationType => None,
        TypeKind::Interface => None,
    }
}

fn with_interfaces<'a>(
    alloc: Global,
    first: Option<Supertype<'a>>,
    texts: &'a [TypeText],
) -> Result<Vec<Supertype<'a>>, NoMemory>
    ensures { IfOk result (λ list. map super_of list.items ≡ supers_of first.entry ++ map Written texts.now) }
{
    let mut list = Vec::new(alloc);
    if let Some(first) = first {
        list.push(first)?;
    }
    for text in texts {
        list.push(Supertype::Written(text))?;
    }
    Ok(list)
}

fn declared_supertypes<'a>(
    alloc: Global,
    of_object: bool,
    declaration: &'a TypeDecl,
) -> Result<Vec<Supertype<'a>>, NoMemory>
    ensures { IfOk result (λ list. map super_of list.items ≡ supertypes_in of_object (Some declaration.now)) }
{
    match declaration.kind {
        TypeKind::AnnotationType => {
            let list = vec![in alloc; Supertype::Annotation]?;
            Ok(list)
        }
        _ => {
            let first = superclass_of(of_object, declaration);
            let list = with_interfaces(alloc, first, declaration.interfaces.as_slice())?;
            Ok(list)
        }
    }
}

/// The direct supertypes that a type names or implies, the superclass before the interfaces; none for what is
/// no type.
#[tactic(auto, unfolding(crate::specs::Supertypes::supertypes))]
pub fn supertypes<'a>(alloc: Global, of: &Found<'a>) -> Result<Vec<Supertype<'a>>, NoMemory>
    ensures { IfOk result (λ list. map super_of list.items ≡ supertypes (find_of of.now)) }
{
    match type_at(of) {
        None => Ok(Vec::new(alloc)),
        Some(declaration) => {
            let list = declared_supertypes(alloc, is_object(of), declaration)?;
            Ok(list)
        }
    }
}

/// Whether a type names or implies a supertype. It takes no memory.
#[tactic(auto, unfolding(crate::specs::Supertypes::supertypes))]
pub(crate) fn has_supertypes(of: &Found<'_>) -> bool
    ensures { result ≡ false → supertypes (find_of of.now) ≡ [] }
{
    match type_at(of) {
        None => false,
        Some(declaration) => match declaration.kind {
            TypeKind::AnnotationType => true,
            _ => {
                superclass_of(is_object(of), declaration).is_some()
                    || !declaration.interfaces.as_slice().is_empty()
            }
        },
    }
}

fn declared_interfaces<'a>(
    alloc: Global,
    header: &'a TypeDecl,
) -> Result<Vec<Supertype<'a>>, NoMemory>
    ensures { IfOk result (λ list. map super_of list.items ≡ interfaces_in header.now.kind header.now) }
{
    match header.kind {
        TypeKind::AnnotationType => {
            let list = vec![in alloc; Supertype::Annotation]?;
            Ok(list)
        }
        _ => {
            let list = with_interfaces(alloc, None, header.interfaces.as_slice())?;
            Ok(list)
        }
    }
}

/// The superclass that a type names or implies: `None` for an interface, for `java.lang.Object` and for what
/// is no type. It takes no memory.
#[tactic(auto, unfolding(crate::specs::Supertypes::superclass_at))]
pub fn superclass_at<'a>(of: &Found<'a>) -> Option<Supertype<'a>>
    ensures { supers_of result ≡ superclass_at (find_of of.now) }
{
    match type_at(of) {
        None => None,
        Some(declaration) => superclass_of(is_object(of), declaration),
    }
}

/// The interfaces that a type names or implies, in their order; none for what is no type.
#[tactic(auto, unfolding(crate::specs::Supertypes::interfaces_at))]
pub fn interfaces_at<'a>(alloc: Global, of: &Found<'a>) -> Result<Vec<Supertype<'a>>, NoMemory>
    ensures { IfOk result (λ list. map super_of list.items ≡ interfaces_at (find_of of.now)) }
{
    match type_at(of) {
        None => Ok(Vec::new(alloc)),
        Some(declaration) => {
            let list = declared_interfaces(alloc, declaration)?;
            Ok(list)
        }
    }
}
