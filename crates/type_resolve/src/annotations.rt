// Annotation interfaces by the names of annotations.
ghost use Rattle.std.specs.Prelude.{◌≡◌, None, IfOk};
ghost use Rattle.element_table.specs.TypeTable.{unit_of};
ghost use Rattle.name_resolve.specs.Annotations.{if_annotation, found_annotation, annotation_meaning};
ghost use Rattle.name_resolve.specs.Finds.{One};
ghost use Rattle.name_resolve.specs.Meaning.{Within};
ghost use Rattle.name_resolve.specs.Mirrors.{ref_of};
ghost use Rattle.name_resolve.specs.Placed.{IsPlaced};
ghost use Rattle.name_resolve.specs.Shown.{find_of, finds_of};
ghost use Rattle.type_resolve.specs.Scopes.{package_part, package_at, scope_in, IsBareUnit, IsElement};

use crate::packages::Bare;
use crate::scopes::{bare_at, found_bare, found_in};
use apt_base::{ElementRef, List, Name, NoMemory};
use decl_tree::TypeKind;
use element_table::{Table, unit_name};
use name_resolve::{Finds, Found, name_meaning, type_at};
use std::alloc::Global;

/// The reference of what was found.
pub fn reference(alloc: Global, find: &Found<'_>) -> Result<ElementRef, NoMemory>
    ensures { IfOk result (λ at. at ≡ ref_of (find_of find.now)) }
{
    let unit = unit_name(alloc, find.unit)?;
    let path = List::from_vec(Vec::from_slice(alloc, find.path.as_slice())?);
    Ok(ElementRef { unit, path })
}

fn if_annotation(
    alloc: Global,
    kind: TypeKind,
    find: &Found<'_>,
) -> Result<Option<ElementRef>, NoMemory>
    ensures { IfOk result (λ at. at ≡ if_annotation kind (ref_of (find_of find.now))) }
{
    match kind {
        TypeKind::AnnotationType => {
            let at = reference(alloc, find)?;
            Ok(Some(at))
        }
        TypeKind::Class => Ok(None),
        TypeKind::Enum => Ok(None),
        TypeKind::Interface => Ok(None),
    }
}

fn annotation_of(alloc: Global, find: &Found<'_>) -> Result<Option<ElementRef>, NoMemory>
    ensures { IfOk result (λ at. at ≡ found_annotation (One (find_of find.now))) }
{
    match type_at(find) {
        None => Ok(None),
        Some(declaration) => {
            let at = if_annotation(alloc, declaration.kind, find)?;
            Ok(at)
        }
    }
}

/// The annotation interface that was found, or `None` where nothing, different types or something else was.
pub fn found_annotation(alloc: Global, finds: &Finds<'_>) -> Result<Option<ElementRef>, NoMemory>
    ensures { IfOk result (λ at. at ≡ found_annotation (finds_of finds.now)) }
{
    match finds {
        Finds::One(find) => {
            let at = annotation_of(alloc, find)?;
            Ok(at)
        }
        Finds::Nothing => Ok(None),
        Finds::Several => Ok(None),
    }
}

#[tactic(auto, unfolding(name_resolve::specs::Annotations::annotation_meaning))]
fn annotation_at<'a>(
    alloc: Global,
    table: &'a Table,
    at: &Found<'a>,
    name: &Name,
) -> Result<Option<ElementRef>, NoMemory>
    requires placed { IsPlaced table.now (find_of at.now) }
    ensures { IfOk result (λ a. a ≡ annotation_meaning table.now (Within (find_of at.now)) name.now) }
{
    let finds = name_meaning(alloc, table, false, at, name.as_str())?;
    found_annotation(alloc, &finds)
}

// The same of what stands in a package without a unit. Who calls holds the bare unit and lets it go.
fn annotation_in_bare(
    alloc: Global,
    table: &Table,
    bare: &Bare,
    scope: &ElementRef,
    name: &Name,
) -> Result<Option<ElementRef>, NoMemory>
    requires none { unit_of table.now scope.now.unit ≡ None }
    requires part { bare.now.part ≡ package_part table.now (package_at table.now scope.now) }
    requires stands { IsBareUnit table.now (package_at table.now scope.now) bare.now.unit }
    ensures { IfOk result (λ at. at ≡ annotation_meaning table.now (scope_in table.now scope.now) name.now) }
{
    let at = found_bare(alloc, table, bare, scope)?;
    annotation_at(alloc, table, &at, name)
}

/// The annotation interface that the name of an annotation means where it is written on this element, which is one of the table, as a condition (JLS 9.7). `None` where the name means nothing, different types, another kind of type or a type parameter.
pub fn resolve_annotation(
    alloc: Global,
    table: &Table,
    scope: &ElementRef,
    name: &Name,
) -> Result<Option<ElementRef>, NoMemory>
    requires { IsElement table.now scope.now }
    ensures { IfOk result (λ at. at ≡ annotation_meaning table.now (scope_in table.now scope.now) name.now) }
{
    match table.find(&scope.unit) {
        Some(unit) => {
            let at = found_in(alloc, table, unit, scope)?;
            annotation_at(alloc, table, &at, name)
        }
        None => {
            let bare = bare_at(alloc, table, scope)?;
            let meant = annotation_in_bare(alloc, table, &bare, scope, name);
            drop(bare);
            meant
        }
    }
}
