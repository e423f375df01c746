// The annotations that are present in a round.
ghost use Rattle.std.specs.Prelude.{◌≡◌, ◌<◌, ◌^◌, ◌++◌, length, filter_map, Some, IfOk, OnOk};
ghost use Rattle.std.specs.FinMap as fin;
ghost use Rattle.std.specs.List.{list_any};
ghost use Rattle.std.specs.Str.{bytes_eq};
ghost use Rattle.apt_base.specs.Names.{with_names};
ghost use Rattle.element_table.specs.TableElements.{canonical_at, reference};
ghost use Rattle.element_table.specs.TypeTable.{unit_of};
ghost use Rattle.round_env.specs.Presence.{names_in_unit, annotated_in_unit};
ghost use Rattle.round_env.specs.Presence.{present_names, names_present_on, annotated};
ghost use Rattle.round_env.specs.Visits.{AddsNames, AddsElement};

use annotation_presence::Presence;
use apt_base::{ElementRef, List, Name, Names, NoMemory};
use decl_elements::{Place, Visitor, walk};
use decl_tree::Unit;
use element_table::Table;
use std::alloc::Global;

fn element_at(alloc: Global, root: &Name, path: &[u16]) -> Result<ElementRef, NoMemory>
    ensures { IfOk result (λ at. at ≡ reference root.now path.now) }
{
    let unit = root.copy()?;
    let path = List::from_vec(Vec::from_slice(alloc, path)?);
    Ok(ElementRef { unit, path })
}

// ---- names

// The names that are present on what was visited.
#[derive(Drop)]
struct PresentNames<'a> {
    alloc: Global,
    presence: Presence<'a>,
    // The unit that is walked.
    root: Name,
    names: Names,
}

// Adds the canonical names of types.
fn add_names(
    alloc: Global,
    names: &mut Names,
    table: &Table,
    types: &List<ElementRef>,
) -> Result<(), NoMemory>
    ensures { OnOk result (names.new ≡ with_names names.old (filter_map (canonical_at table.now) types.now)) }
{
    for each in types.as_slice() {
        if let Some(name) = table.canonical(alloc, each)? {
            names.insert(name.as_str())?;
        }
    }
    Ok(())
}

impl<'a> Visitor for PresentNames<'a> {
    ghost visits = { AddsNames };

    #[tactic(auto, unfolding(crate::specs::Presence::names_on))]
    fn visit(&mut self, path: &[u16], _place: Place<'_>) -> Result<(), NoMemory> {
        let at = element_at(self.alloc, &self.root, path)?;
        let types = self.presence.types_on(&at)?;
        add_names(self.alloc, &mut self.names, self.presence.table(), &types)
    }
}

impl<'a> PresentNames<'a> {
    fn new(alloc: Global, table: &'a Table) -> Result<Self, NoMemory>
        ensures table { IfOk result (λ g. g.presence ≡ table.now) }
        ensures names { IfOk result (λ g. g.names ≡ fin.empty) }
    {
        let root = Name::new(alloc, "")?;
        let presence = Presence::new(alloc, table)?;
        let names = Names::new(alloc);
        Ok(PresentNames {
            alloc,
            presence,
            root,
            names,
        })
    }

    // Adds the names that are present on the unit that is the root, and on all that it encloses.
    fn walk_root(&mut self, unit: &Unit) -> Result<(), NoMemory>
        requires held { unit_of self.old.presence self.old.root ≡ Some unit.now }
        ensures table { OnOk result (self.new.presence ≡ self.old.presence) }
        ensures names { OnOk result
            (self.new.names ≡ with_names self.old.names (names_in_unit self.old.presence self.old.root)) }
    {
        walk(self.alloc, unit, self)?;
        Ok(())
    }

    // The same of the unit of this name, if there is one.
    #[tactic(auto, unfolding(crate::specs::Presence::elements_in))]
    fn add_unit(&mut self, root: &Name) -> Result<(), NoMemory>
        ensures table { OnOk result (self.new.presence ≡ self.old.presence) }
        ensures names { OnOk result
            (self.new.names ≡ with_names self.old.names (names_in_unit self.old.presence root.now)) }
    {
        match self.presence.table().find(root) {
            None => Ok(()),
            Some(unit) => {
                self.root = root.copy()?;
                self.walk_root(unit)
            }
        }
    }
}

/// The canonical names of the annotation interfaces that are present on the units of these names and on all
/// that they enclose, each once and ascending. A name without a unit adds none. No memory holds 2^32 names, so
/// that these too are answered with `NoMemory`.
#[tactic(auto, unfolding(crate::specs::Presence::present_names))]
pub fn present(alloc: Global, table: &Table, roots: &List<Name>) -> Result<List<Name>, NoMemory>
    ensures names { IfOk result (λ names. names ≡ present_names table.now roots.now) }
    ensures few { IfOk result (λ names. length names < 2 ^ 32) }
{
    let mut gathered = PresentNames::new(alloc, table)?;
    for root in roots.as_slice() {
        gathered.add_unit(root)?;
    }
    let names = gathered.names.list()?;
    if u32::try_from(names.len()).is_err() {
        return Err(NoMemory);
    }
    Ok(names)
}

/// The same of one unit.
#[tactic(auto, unfolding(crate::specs::Presence::names_present_on))]
pub fn present_on(alloc: Global, table: &Table, root: &Name) -> Result<List<Name>, NoMemory>
    ensures { IfOk result (λ names. names ≡ names_present_on table.now root.now) }
{
    let mut gathered = PresentNames::new(alloc, table)?;
    gathered.add_unit(root)?;
    gathered.names.list()
}

// ---- elements

// The elements among what was visited on which the annotation of a name is present.
#[derive(Drop)]
struct AnnotatedElements<'a> {
    alloc: Global,
    presence: Presence<'a>,
    // The unit that is walked.
    root: Name,
    name: &'a Name,
    elements: List<ElementRef>,
}

// Whether one of these types has this canonical name.
fn has_name(
    alloc: Global,
    table: &Table,
    types: &List<ElementRef>,
    name: &Name,
) -> Result<bool, NoMemory>
    ensures { IfOk result
        (λ answer. answer ≡ list_any (bytes_eq name.now) (filter_map (canonical_at table.now) types.now)) }
{
    for each in types.as_slice() {
        if let Some(canonical) = table.canonical(alloc, each)? {
            if name.as_str() == canonical.as_str() {
                return Ok(true);
            }
        }
    }
    Ok(false)
}

impl<'a> Visitor for AnnotatedElements<'a> {
    ghost visits = { AddsElement };

    #[tactic(auto, unfolding(crate::specs::Presence::names_on))]
    fn visit(&mut self, path: &[u16], _place: Place<'_>) -> Result<(), NoMemory> {
        let at = element_at(self.alloc, &self.root, path)?;
        let types = self.presence.types_on(&at)?;
        if has_name(self.alloc, self.presence.table(), &types, self.name)? {
            self.elements.push(at)?;
        }
        Ok(())
    }
}

impl<'a> AnnotatedElements<'a> {
    // Adds the elements of the unit that is the root.
    fn walk_root(&mut self, unit: &Unit) -> Result<(), NoMemory>
        requires held { unit_of self.old.presence self.old.root ≡ Some unit.now }
        ensures table { OnOk result (self.new.presence ≡ self.old.presence) }
        ensures name { OnOk result (self.new.name.now ≡ self.old.name.now) }
        ensures elements { OnOk result (self.new.elements
            ≡ self.old.elements ++ annotated_in_unit self.old.presence self.old.name.now self.old.root) }
    {
        walk(self.alloc, unit, self)?;
        Ok(())
    }

    // The same of the unit of this name, if there is one.
    #[tactic(auto, unfolding(crate::specs::Presence::elements_in))]
    fn add_unit(&mut self, root: &Name) -> Result<(), NoMemory>
        ensures table { OnOk result (self.new.presence ≡ self.old.presence) }
        ensures name { OnOk result (self.new.name.now ≡ self.old.name.now) }
        ensures elements { OnOk result (self.new.elements
            ≡ self.old.elements ++ annotated_in_unit self.old.presence self.old.name.now root.now) }
    {
        match self.presence.table().find(root) {
            None => Ok(()),
            Some(unit) => {
                self.root = root.copy()?;
                self.walk_root(unit)
            }
        }
    }
}

/// The elements on which the annotation of this canonical name is present: the units in the given order, and
/// in a unit by path.
#[tactic(auto, unfolding(crate::specs::Presence::annotated))]
pub fn annotated_with(
    alloc: Global,
    table: &Table,
    roots: &List<Name>,
    name: &Name,
) -> Result<List<ElementRef>, NoMemory>
    ensures { IfOk result (λ elements. elements ≡ annotated table.now roots.now name.now) }
{
    let root = Name::new(alloc, "")?;
    let presence = Presence::new(alloc, table)?;
    let elements = List::new(alloc);
    let mut gathered = AnnotatedElements {
        alloc,
        presence,
        root,
        name,
        elements,
    };
    for root in roots.as_slice() {
        gathered.add_unit(root)?;
    }
    Ok(gathered.elements)
}
