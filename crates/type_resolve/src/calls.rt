// The calls that give mirrors.
ghost use Rattle.std.specs.Prelude.{◌≡◌, [], ◌∷◌, None, Some, is_some, true, IfOk};
ghost use Rattle.decl_elements.specs.Shown.{node_of};
ghost use Rattle.decl_elements.specs.Written.{declaration_of};
ghost use Rattle.element_table.specs.TypeTable.{unit_of, IsTable};
ghost use Rattle.element_table.specs.UnitNames.{unit_name};
ghost use Rattle.name_resolve.specs.Meaning.{Within};
ghost use Rattle.name_resolve.specs.Mirrors.{type_meaning, class_mirror, ref_of, superclass, interfaces};
ghost use Rattle.name_resolve.specs.Placed.{IsPlaced};
ghost use Rattle.name_resolve.specs.Shown.{find_of};
ghost use Rattle.type_resolve.specs.MirrorParts.{IsScope, implied_in, supertype_in, supertypes_in};
ghost use Rattle.name_resolve.specs.Ways.{type_at};
ghost use Rattle.type_resolve.specs.Scopes.{find_in, package_part, package_at, scope_in, is_type, IsBareUnit, IsElement, IsType};

use crate::annotations::reference;
use crate::mirrors::{class_type, element_type, mirror};
use crate::packages::Bare;
use crate::pairs::{appended, both};
use crate::resolver::Resolver;
use crate::scopes::{Scope, found_bare, found_in};
use apt_base::{ElementRef, List, Name, NoMemory};
use decl_elements::{Place, place_at};
use decl_tree::{TypeText, Unit};
use element_table::Table;
use name_resolve::{
    Finds, Found, Looks, Supertype, copied, interfaces_at, superclass_at, top_level,
};
use std::alloc::Global;
use type_mirror::{BaseMirror, Mirror};

/// The mirror that a type means where it is written in what was found (JLS 6.4, 6.5.5).
pub fn mirror_at<'a>(
    alloc: Global,
    table: &'a Table,
    at: Found<'a>,
    text: &TypeText,
) -> Result<Mirror, NoMemory>
    requires { IsPlaced table.now (find_of at) }
    ensures { IfOk result (λ m. m ≡ type_meaning table.now (Within (find_of at.entry)) text.now) }
{
    let mut looks = Looks::new(alloc, table);
    mirror_with(alloc, &mut looks, table, at, text)
}

/// The same by look-ups over that table.
#[tactic(auto, unfolding(name_resolve::specs::Mirrors::type_meaning))]
pub(crate) fn mirror_with<'a>(
    alloc: Global,
    looks: &mut Looks<'a>,
    table: &'a Table,
    at: Found<'a>,
    text: &TypeText,
) -> Result<Mirror, NoMemory>
    requires placed { IsPlaced table.now (find_of at) }
    requires table { looks.old ≡ table.now }
    ensures value { IfOk result (λ m. m ≡ type_meaning table.now (Within (find_of at.entry)) text.now) }
    ensures kept { looks.new ≡ looks.old }
{
    let scope = Scope {
        table,
        header: false,
        at,
    };
    mirror(alloc, looks, &scope, text)
}

/// The same in a package without a unit. Who calls holds the bare unit and lets it go, so that nothing is
/// remembered of it.
pub(crate) fn mirror_in_bare(
    alloc: Global,
    table: &Table,
    bare: &Bare,
    scope: &ElementRef,
    text: &TypeText,
) -> Result<Mirror, NoMemory>
    requires none { unit_of table.now scope.now.unit ≡ None }
    requires part { bare.now.part ≡ package_part table.now (package_at table.now scope.now) }
    requires stands { IsBareUnit table.now (package_at table.now scope.now) bare.now.unit }
    ensures { IfOk result (λ m. m ≡ type_meaning table.now (scope_in table.now scope.now) text.now) }
{
    let at = found_bare(alloc, table, bare, scope)?;
    let mut looks = Looks::new(alloc, table);
    mirror_with(alloc, &mut looks, table, at, text)
}

/// The mirror that a type means where it is written in this element, which is one of the table, as a condition (JLS 6.4, 6.5.5). A name that means nothing, or different types, gives an error type with the text. Types behind `extends` and `implements` are not for this call: `superclass` and `interfaces` have them.
pub fn resolve_type(
    alloc: Global,
    table: &Table,
    scope: &ElementRef,
    text: &TypeText,
) -> Result<Mirror, NoMemory>
    requires { IsElement table.now scope.now }
    ensures { IfOk result (λ m. m ≡ type_meaning table.now (scope_in table.now scope.now) text.now) }
{
    let mut resolver = Resolver::new(alloc, table);
    resolver.meaning(scope, text)
}

// The type of an implied name; where the table has none an error type with that name.
fn implied(
    alloc: Global,
    scope: &Scope<'_>,
    name: &str,
    arguments: List<Mirror>,
) -> Result<Mirror, NoMemory>
    ensures { IfOk result (λ m. m ≡ implied_in scope.now name.now arguments) }
{
    let (arguments, name) = both(arguments, Name::new(alloc, name))?;
    match top_level(alloc, scope.table, scope.at.part, &name) {
        Finds::One(find) => element_type(alloc, &find, None, arguments),
        Finds::Nothing => {
            drop(arguments);
            Ok(Mirror::plain(alloc, BaseMirror::Error(name)))
        }
        Finds::Several => {
            drop(arguments);
            Ok(Mirror::plain(alloc, BaseMirror::Error(name)))
        }
    }
}

// The type of an element, without arguments.
fn itself(alloc: Global, of: &Found<'_>) -> Result<List<Mirror>, NoMemory>
    ensures { IfOk result (λ list. list ≡ class_mirror (ref_of (find_of of.now)) None [] ∷ []) }
{
    let element = reference(alloc, of)?;
    let own = class_type(alloc, element, None, List::new(alloc));
    appended(List::new(alloc), own)
}

// The mirror of a supertype in the header of its type.
#[tactic(auto, unfolding(name_resolve::specs::Mirrors::type_meaning))]
fn supertype<'a>(
    alloc: Global,
    looks: &mut Looks<'a>,
    scope: &Scope<'a>,
    each: Supertype<'_>,
) -> Result<Mirror, NoMemory>
    requires scope { IsScope scope.now }
    requires header { scope.now.header ≡ true }
    requires table { looks.old ≡ scope.now.table.now }
    ensures value { IfOk result (λ m. m ≡ supertype_in scope.now each.entry) }
    ensures kept { looks.new ≡ looks.old }
{
    match each {
        Supertype::Written(text) => mirror(alloc, looks, scope, text),
        Supertype::Object => implied(alloc, scope, "java.lang.Object", List::new(alloc)),
        Supertype::Enum => {
            let arguments = itself(alloc, &scope.at)?;
            implied(alloc, scope, "java.lang.Enum", arguments)
        }
        Supertype::Annotation => implied(
            alloc,
            scope,
            "java.lang.annotation.Annotation",
            List::new(alloc),
        ),
    }
}

/// The superclass in the header of a type.
#[tactic(auto, using(crate::proofs::HeaderLemmas::headers))]
pub(crate) fn superclass_in<'a>(
    alloc: Global,
    looks: &mut Looks<'a>,
    scope: &Scope<'a>,
) -> Result<Mirror, NoMemory>
    requires scope { IsScope scope.now }
    requires header { scope.now.header ≡ true }
    requires table { looks.old ≡ scope.now.table.now }
    ensures value { IfOk result (λ m. m ≡ superclass scope.now.table.now (find_of scope.now.at)) }
    ensures kept { looks.new ≡ looks.old }
{
    match superclass_at(&scope.at) {
        None => Ok(Mirror::plain(alloc, BaseMirror::Nothing)),
        Some(each) => supertype(alloc, looks, scope, each),
    }
}

fn all_supertypes<'a>(
    alloc: Global,
    looks: &mut Looks<'a>,
    scope: &Scope<'a>,
    list: &[Supertype<'_>],
) -> Result<List<Mirror>, NoMemory>
    requires scope { IsScope scope.now }
    requires header { scope.now.header ≡ true }
    requires table { looks.old ≡ scope.now.table.now }
    ensures value { IfOk result (λ all. all ≡ supertypes_in scope.now list.now) }
    ensures kept { looks.new ≡ looks.old }
{
    let mut mirrors = List::new(alloc);
    for each in list {
        mirrors = appended(mirrors, supertype(alloc, looks, scope, *each))?;
    }
    Ok(mirrors)
}

/// The interfaces in the header of a type.
#[tactic(auto, using(crate::proofs::HeaderLemmas::headers))]
pub(crate) fn interfaces_in<'a>(
    alloc: Global,
    looks: &mut Looks<'a>,
    scope: &Scope<'a>,
) -> Result<List<Mirror>, NoMemory>
    requires scope { IsScope scope.now }
    requires header { scope.now.header ≡ true }
    requires table { looks.old ≡ scope.now.table.now }
    ensures value { IfOk result (λ list. list ≡ interfaces scope.now.table.now (find_of scope.now.at)) }
    ensures kept { looks.new ≡ looks.old }
{
    let supertypes = interfaces_at(alloc, &scope.at)?;
    let list = all_supertypes(alloc, looks, scope, supertypes.as_slice())?;
    Ok(list)
}

fn is_declaration(place: Place<'_>) -> bool
    ensures { result ≡ is_some (declaration_of (node_of place.entry)) }
{
    match place.declaration() {
        None => false,
        Some(_) => true,
    }
}

fn is_type_in(unit: &Unit, path: &[u16]) -> bool
    ensures { result ≡ is_some (type_at unit.now path.now) }
{
    match place_at(unit, path) {
        None => false,
        Some(place) => is_declaration(place),
    }
}

/// Whether a type stands there. It takes no memory.
pub fn is_type(table: &Table, at: &ElementRef) -> bool
    ensures { result ≡ is_type table.now at.now }
{
    match table.find(&at.unit) {
        None => false,
        Some(unit) => is_type_in(unit, at.path.as_slice()),
    }
}

/// Where the names in the header of a type are looked up.
pub(crate) fn header_of<'a>(
    alloc: Global,
    table: &'a Table,
    unit: &'a Unit,
    at: &ElementRef,
) -> Result<Scope<'a>, NoMemory>
    requires held { unit_of table.now at.now.unit ≡ Some unit.now }
    requires named { unit_name unit.now ≡ at.now.unit }
    requires table { IsTable table.now }
    ensures scope { IfOk result (λ scope. IsScope scope) }
    ensures header { IfOk result (λ scope. scope.header ≡ true) }
    ensures table { IfOk result (λ scope. scope.table.now ≡ table.now) }
    ensures value { IfOk result (λ scope. find_of scope.at ≡ find_in table.now at.now) }
{
    let at = found_in(alloc, table, unit, at)?;
    Ok(Scope {
        table,
        header: true,
        at,
    })
}

/// The superclass of a type of the table, which it is as a condition: as its header says, or implied (JLS 8.1.4, 8.9). `Nothing` for an interface and for `java.lang.Object`. Where the table has no implied one it is an error type with that name.
pub fn superclass(alloc: Global, table: &Table, at: &ElementRef) -> Result<Mirror, NoMemory>
    requires { IsType table.now at.now }
    ensures { IfOk result (λ m. m ≡ superclass table.now (find_in table.now at.now)) }
{
    let mut resolver = Resolver::new(alloc, table);
    resolver.superclass_of(at)
}

/// The interfaces of a type of the table, which it is as a condition, in their order: those of its header, and of an annotation interface `java.lang.annotation.Annotation` alone (JLS 8.1.5, 9.1.3, 9.6).
pub fn interfaces(alloc: Global, table: &Table, at: &ElementRef) -> Result<List<Mirror>, NoMemory>
    requires { IsType table.now at.now }
    ensures { IfOk result (λ list. list ≡ interfaces table.now (find_in table.now at.now)) }
{
    let mut resolver = Resolver::new(alloc, table);
    resolver.interfaces_of(at)
}

/// The types that the header of what was found names or implies: its superclass, which is `Nothing` where it
/// has none, and then its interfaces in their order.
pub fn header_types<'a>(
    alloc: Global,
    table: &'a Table,
    of: &Found<'a>,
) -> Result<List<Mirror>, NoMemory>
    requires placed { IsPlaced table.now (find_of of.now) }
    ensures { IfOk result (λ list. list
        ≡ superclass table.now (find_of of.now) ∷ interfaces table.now (find_of of.now)) }
{
    let scope = Scope {
        table,
        header: true,
        at: copied(alloc, of)?,
    };
    let mut looks = Looks::new(alloc, table);
    let mut types = vec![in alloc; superclass_in(alloc, &mut looks, &scope)?]?;
    let mut interfaces = interfaces_in(alloc, &mut looks, &scope)?.into_vec();
    types.append(&mut interfaces)?;
    Ok(List::from_vec(types))
}
