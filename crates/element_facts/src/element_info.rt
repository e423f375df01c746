// What an element is.
ghost use Rattle.std.specs.Prelude.{◌≡◌, IfOk};
ghost use Rattle.decl_tree.specs.declared.declaration.Member.{out-Member};
ghost use Rattle.decl_elements.specs.Shown.{node_of, shown_element};
ghost use Rattle.element_facts.specs.ElementInfo as infos;

use apt_base::{ElementRef, Name, NoMemory};
use decl_elements::{Element, Place};
use decl_tree::Member;
use element_table::Table;
use name_resolve::split;
use std::alloc::Global;
use type_relations::{canonical_name, place_of};

/// What an element is (JSR 269, `Element`).
#[derive(Drop)]
pub struct ElementInfo {
    /// The number of its kind, as `kind_number` gives it.
    pub kind: u8,
    /// Its modifiers, written or implied, a bit each, as `Place::modifiers` gives them.
    pub modifiers: u16,
    /// Its simple name (JLS 6.2): of a package the last of its names, of a constructor `<init>`.
    pub simple: Name,
    /// The canonical name of a type or a package (JLS 6.7); empty for any other element.
    pub canonical: Name,
    /// Whether it is a method or a constructor of variable arity (JLS 8.4.1).
    pub varargs: bool,
}

/// The number of the kind of an element: 0 for a package, 1 an enum, 2 a class, 3 an annotation interface, 4
/// an interface, 5 an enum constant, 6 a field, 7 a parameter, 8 a method, 9 a constructor, 10 a type
/// parameter. It takes no memory.
pub fn kind_number(element: &Element<'_>) -> u8
    ensures { result ≡ infos.kind_number (shown_element element.now) }
{
    match element {
        Element::Package(_) => 0,
        Element::Enum(_) => 1,
        Element::Class(_) => 2,
        Element::AnnotationType(_) => 3,
        Element::Interface(_) => 4,
        Element::EnumConstant(_) => 5,
        Element::Field(_) => 6,
        Element::Parameter(_) => 7,
        Element::Method(_) => 8,
        Element::Constructor(_) => 9,
        Element::TypeParameter(_) => 10,
    }
}

/// Whether a method or a constructor of variable arity stands there (JLS 8.4.1). It takes no memory.
pub fn is_varargs(place: Place<'_>) -> bool
    ensures { result ≡ infos.is_varargs (node_of place.entry) }
{
    match place {
        Place::Inside(_, Member::Method(method)) => method.varargs,
        Place::Inside(_, Member::Constructor(constructor)) => constructor.varargs,
        _ => false,
    }
}

// The last of the names that dots join.
fn last_name(alloc: Global, name: &str) -> Result<Name, NoMemory>
    ensures { IfOk result (λ last. last ≡ infos.last_name name.now) }
{
    let names = split(alloc, name)?;
    match names.as_slice().last() {
        None => Name::new(alloc, ""),
        Some(last) => Name::new(alloc, *last),
    }
}

fn name_of(alloc: Global, canonical: &str, place: Place<'_>) -> Result<Name, NoMemory>
    ensures { IfOk result (λ name. name ≡ infos.name_of canonical.now (node_of place.entry)) }
{
    match place {
        Place::Package(_) => last_name(alloc, canonical),
        _ => Name::new(alloc, place.simple_name()),
    }
}

/// What the element is; `None` where nothing stands there.
#[tactic(auto, unfolding(crate::specs::ElementInfo::info_at))]
pub fn info(alloc: Global, table: &Table, at: &ElementRef) -> Result<Option<ElementInfo>, NoMemory>
    ensures { IfOk result (λ info. info ≡ infos.info_at table.now at.now) }
{
    let Some(place) = place_of(table, at) else {
        return Ok(None);
    };
    let canonical = canonical_name(alloc, table, at)?;
    let simple = name_of(alloc, canonical.as_str(), place)?;
    let element = place.element();
    Ok(Some(ElementInfo {
        kind: kind_number(&element),
        modifiers: place.modifiers(),
        simple,
        canonical,
        varargs: is_varargs(place),
    }))
}
