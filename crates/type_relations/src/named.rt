// Types by the look-ups of names.
ghost use Rattle.std.specs.Prelude.{◌≡◌, [], None, IfOk};
ghost use Rattle.element_table.specs.TypeTable.{part_of};
ghost use Rattle.name_resolve.specs.Finds.{One};
ghost use Rattle.name_resolve.specs.Mirrors.{found_mirror};
ghost use Rattle.name_resolve.specs.Shown.{find_of};
ghost use Rattle.type_relations.specs.Named.{named_in, object, object_at};
ghost use Rattle.type_resolve.specs.Scopes.{or_stub};

use crate::parts::class_type;
use apt_base::{ElementRef, List, Name, NoMemory};
use element_table::{Part, Table, unit_name};
use name_resolve::{Finds, Found, top_level, type_at};
use std::alloc::Global;
use type_mirror::{BaseMirror, Mirror};

// The type that was found, without arguments.
fn found_type(alloc: Global, found: &Found<'_>) -> Result<Mirror, NoMemory>
    ensures { IfOk result (λ m. m ≡ found_mirror (One (find_of found.now)) [] None []) }
{
    let unit = unit_name(alloc, found.unit)?;
    let path = List::from_vec(Vec::from_slice(alloc, found.path.as_slice())?);
    let element = ElementRef { unit, path };
    match type_at(found) {
        None => Ok(Mirror::plain(alloc, BaseMirror::Variable(element))),
        Some(_) => Ok(class_type(alloc, element, List::new(alloc))),
    }
}

/// The top-level type of this name that a unit of a part meets, without arguments, or the error type with that text.
#[tactic(auto, unfolding(crate::specs::Named::named_in))]
pub fn named_type(alloc: Global, table: &Table, part: Part, name: &str) -> Result<Mirror, NoMemory>
    ensures { IfOk result (λ m. m ≡ named_in table.now part name.now) }
{
    let name = Name::new(alloc, name)?;
    match top_level(alloc, table, part, &name) {
        Finds::One(found) => found_type(alloc, &found),
        Finds::Nothing => Ok(Mirror::plain(alloc, BaseMirror::Error(name))),
        Finds::Several => Ok(Mirror::plain(alloc, BaseMirror::Error(name))),
    }
}

/// `java.lang.Object` of the whole table.
pub(crate) fn object(alloc: Global, table: &Table) -> Result<Mirror, NoMemory>
    ensures { IfOk result (λ m. m ≡ object table.now) }
{
    named_type(alloc, table, Part::Source, "java.lang.Object")
}

// The part of the unit of an element; that of the stubs where it is in neither.
fn part_at(table: &Table, at: &ElementRef) -> Part
    ensures { result ≡ or_stub (part_of table.now at.now.unit) }
{
    match table.part(&at.unit) {
        Some(part) => part,
        None => Part::Stub,
    }
}

/// `java.lang.Object` as the unit of an element meets it.
pub(crate) fn object_at(alloc: Global, table: &Table, at: &ElementRef) -> Result<Mirror, NoMemory>
    ensures { IfOk result (λ m. m ≡ object_at table.now at.now) }
{
    named_type(alloc, table, part_at(table, at), "java.lang.Object")
}
