// Whether arguments are of the kinds that a row wants.
ghost use Rattle.std.specs.Prelude.{◌≡◌, [], IfOk};
ghost use Rattle.decl_elements.specs.Shown.{shown_element};
ghost use Rattle.type_layers.specs.Layers.{layer, layer_in};
ghost use Rattle.child_questions.specs.WantedKinds as kinds;

use annotation_presence::Presence;
use apt_base::{ElementRef, List, NoMemory};
use decl_elements::Element;
use element_table::Table;
use frame_forms::{WantedElement, WantedMirror};
use std::alloc::Global;
use type_mirror::{Around, BaseMirror, Mirror};
use type_queries::{is_executable, is_package, is_type};
use type_relations::{boxed_kind, parameter_count, primitive_of};

// ---- elements

fn is_type_element(element: &Element<'_>) -> bool
    ensures { result ≡ kinds.is_type_element (shown_element element.now) }
{
    matches!(
        element,
        Element::Enum(_) | Element::Class(_) | Element::AnnotationType(_) | Element::Interface(_)
    )
}

fn is_executable_element(element: &Element<'_>) -> bool
    ensures { result ≡ kinds.is_executable_element (shown_element element.now) }
{
    matches!(element, Element::Method(_) | Element::Constructor(_))
}

fn fits(wanted: WantedElement, element: &Element<'_>) -> bool
    ensures { result ≡ kinds.fits wanted (shown_element element.now) }
{
    match wanted {
        WantedElement::Any => true,
        WantedElement::TypeElement => is_type_element(element),
        WantedElement::Executable => is_executable_element(element),
        WantedElement::Parameterizable => {
            is_type_element(element) || is_executable_element(element)
        }
        WantedElement::Method => matches!(element, Element::Method(_)),
        WantedElement::Field => matches!(element, Element::Field(_)),
        WantedElement::TypeParameter => matches!(element, Element::TypeParameter(_)),
    }
}

/// Whether the element is of the kind that is wanted. Where nothing stands there, it is of none. It takes no memory.
#[tactic(auto, unfolding(crate::specs::WantedKinds::is_element))]
pub fn is_element(table: &Table, wanted: WantedElement, at: &ElementRef) -> bool
    ensures { result ≡ kinds.is_element table.now wanted at.now }
{
    match table.element(at) {
        None => false,
        Some(element) => fits(wanted, &element),
    }
}

// ---- mirrors

// The same of a base around which nothing stands.
fn is_item_base(base: &BaseMirror) -> bool
    ensures { result ≡ kinds.is_item (layer_in [] base.now) }
{
    !matches!(
        base,
        BaseMirror::Wildcard
            | BaseMirror::Nothing
            | BaseMirror::Void
            | BaseMirror::Executable(_)
            | BaseMirror::Package(_)
    )
}

// What an array may have as its item.
#[tactic(auto, unfolding(type_layers::specs::Layers::layer))]
fn is_item(mirror: &Mirror) -> bool
    ensures { result ≡ kinds.is_item (layer mirror.now) }
{
    match mirror.around.as_slice() {
        [Around::Array, ..] => true,
        [Around::Extends, ..] => false,
        [Around::Super, ..] => false,
        [] => is_item_base(&mirror.base),
    }
}

fn is_box(alloc: Global, table: &Table, mirror: &Mirror) -> Result<bool, NoMemory>
    ensures { IfOk result (λ r. r ≡ kinds.is_box table.now mirror.now) }
{
    let kind = boxed_kind(alloc, table, mirror)?;
    Ok(kind.is_some())
}

/// Whether the mirror is of the kind that is wanted. Only the test for a box takes memory.
#[tactic(auto, unfolding(crate::specs::WantedKinds::is_mirror))]
pub fn is_mirror(
    alloc: Global,
    table: &Table,
    wanted: WantedMirror,
    mirror: &Mirror,
) -> Result<bool, NoMemory>
    ensures { IfOk result (λ r. r ≡ kinds.is_mirror table.now wanted mirror.now) }
{
    match wanted {
        WantedMirror::Any => Ok(true),
        WantedMirror::NoPackage => Ok(!is_package(mirror)),
        WantedMirror::NoPackageOrExecutable => Ok(is_type(mirror)),
        WantedMirror::Executable => Ok(is_executable(mirror)),
        WantedMirror::Primitive => Ok(primitive_of(mirror).is_some()),
        WantedMirror::PrimitiveBox => is_box(alloc, table, mirror),
        WantedMirror::ArrayItem => Ok(is_item(mirror)),
    }
}

// ---- arguments together

/// Whether an annotation of this number is present on the element: the written ones first and then the inherited ones,
/// counted from 0.
pub(crate) fn has_annotation(
    alloc: Global,
    table: &Table,
    at: &ElementRef,
    number: u16,
) -> Result<bool, NoMemory>
    ensures { IfOk result (λ r. r ≡ kinds.has_annotation table.now at.now number) }
{
    let mut presence = Presence::new(alloc, table)?;
    let list = presence.present(at)?;
    Ok(usize::from(number) < list.len())
}

/// Whether there are no arguments, or as many as the type has type parameters. It takes no memory.
pub(crate) fn are_as_many(table: &Table, at: &ElementRef, arguments: &List<Mirror>) -> bool
    ensures { result ≡ kinds.are_as_many table.now at.now arguments.now }
{
    arguments.len() == 0 || arguments.len() == usize::from(parameter_count(table, at))
}
