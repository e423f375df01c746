// The fields and enum constants of a type by their names.
ghost use Rattle.std.specs.Prelude.{◌≡◌, ◌≤◌, ℕ, List, length, IfOk, OnOk, string_bytes};
ghost use Rattle.std.specs.Option.{option_map};
ghost use Rattle.std.specs.FinMap as fin;
ghost use Rattle.apt_base.specs.Limits.{max_children};
ghost use Rattle.decl_elements.specs.Nodes.{children};
ghost use Rattle.decl_elements.specs.Shown.{node_of};
ghost use Rattle.decl_elements.specs.Walk.{place_of};
ghost use Rattle.name_resolve.specs.Finds.{both, one_if, children_where};
ghost use Rattle.name_resolve.specs.Remembered.{same_part};
ghost use Rattle.name_resolve.specs.Shown.{find_of, finds_of, child_of};
ghost use Rattle.expression_names.specs.Fields.{is_field_named};
ghost use Rattle.expression_names.specs.FieldsByName.{text_of, field_text, named_as, with_number, found_by, are_of, AreFields};

use apt_base::NoMemory;
use decl_elements::{Place, place_at};
use decl_tree::Member;
use element_table::Part;
use name_resolve::{Finds, Found, copied, is_same};
use std::alloc::Global;
use std::collections::BTreeMap;

/// Which children of a type are fields or enum constants of one name.
#[derive(Clone, Copy)]
pub(crate) enum Named {
    /// The one with this number alone.
    One(u16),
    /// Different ones.
    Several,
}

/// A type, and its fields and enum constants by their names.
#[derive(Drop)]
pub(crate) struct FieldRows<'a> {
    pub of: Found<'a>,
    pub held: BTreeMap<String, Named>,
}

// The name of a field or an enum constant.
fn field_text<'a>(place: Place<'a>) -> Option<&'a str>
    ensures { option_map text_of result ≡ field_text (node_of place.entry) }
{
    match place {
        Place::Inside(_, Member::Field(field)) => Some(field.name.as_str()),
        Place::Inside(_, Member::Constant(constant)) => Some(constant.name.as_str()),
        _ => None,
    }
}

// With the child of this number too.
fn with_number(named: Option<Named>, number: u16) -> Named
    ensures { result ≡ with_number named number }
{
    match named {
        None => Named::One(number),
        Some(Named::One(other)) => {
            if other == number {
                return Named::One(number);
            }
            Named::Several
        }
        Some(Named::Several) => Named::Several,
    }
}

fn is_same_part(one: Part, other: Part) -> bool
    ensures { result ≡ same_part one other }
{
    match one {
        Part::Source => match other {
            Part::Source => true,
            Part::Stub => false,
        },
        Part::Stub => match other {
            Part::Source => false,
            Part::Stub => true,
        },
    }
}

impl<'a> FieldRows<'a> {
    // No rows of this type yet.
    fn none(alloc: Global, of: &Found<'a>) -> Result<FieldRows<'a>, NoMemory>
        ensures of { IfOk result (λ rows. find_of rows.of ≡ find_of of.now) }
        ensures value { IfOk result (λ rows. named_as rows ≡ fin.empty) }
    {
        let of = copied(alloc, of)?;
        Ok(FieldRows {
            of,
            held: BTreeMap::new(alloc),
        })
    }

    // Which children have this name.
    fn get(&self, name: &str) -> Option<Named>
        ensures { result ≡ fin.get (named_as self.now) name.now }
    {
        self.held.get(name).copied()
    }

    // These children have this name.
    fn put(&mut self, name: String, named: Named) -> Result<(), NoMemory>
        ensures of { find_of self.new.of ≡ find_of self.old.of }
        ensures value { OnOk result
            (named_as self.new ≡ fin.insert (named_as self.old) (string_bytes name) named) }
    {
        self.held.insert(name, named)?;
        Ok(())
    }

    // The child of this number has this name too.
    fn add(&mut self, alloc: Global, name: &str, number: u16) -> Result<(), NoMemory>
        ensures of { find_of self.new.of ≡ find_of self.old.of }
        ensures value { OnOk result (named_as self.new
            ≡ fin.insert (named_as self.old) name.now (with_number (fin.get (named_as self.old) name.now) number)) }
    {
        let named = with_number(self.get(name), number);
        let name = String::from_str(alloc, name)?;
        self.put(name, named)
    }

    // The child of this number stands there.
    fn add_child(&mut self, alloc: Global, child: Place<'a>, number: u16) -> Result<(), NoMemory>
        ensures of { find_of self.new.of ≡ find_of self.old.of }
        ensures value { OnOk result ((name : List ℕ) → found_by self.new name
            ≡ both (found_by self.old name)
            (one_if (is_field_named name (node_of child.entry)) (child_of (find_of self.old.of) number))) }
    {
        match field_text(child) {
            None => Ok(()),
            Some(name) => {
                self.add(alloc, name, number)?;
                Ok(())
            }
        }
    }

    /// Whether they are of this type.
    pub fn are_of(&self, of: &Found<'a>) -> bool
        ensures { result ≡ are_of self.now (find_of of.now) }
    {
        is_same_part(self.of.part, of.part) && is_same(&self.of, of)
    }

    /// Those of this name.
    pub fn find(&self, alloc: Global, name: &str) -> Result<Finds<'a>, NoMemory>
        ensures { IfOk result (λ f. finds_of f ≡ found_by self.now name.now) }
    {
        match self.get(name) {
            None => Ok(Finds::Nothing),
            Some(Named::One(number)) => {
                let mut found = copied(alloc, &self.of)?;
                found.path.push(number)?;
                Ok(Finds::One(found))
            }
            Some(Named::Several) => Ok(Finds::Several),
        }
    }
}

// The rows of what stands at a place.
fn rows_at<'a>(alloc: Global, of: &Found<'a>, place: Place<'a>) -> Result<FieldRows<'a>, NoMemory>
    requires { length (children (node_of place)) ≤ max_children }
    ensures of { IfOk result (λ rows. find_of rows.of ≡ find_of of.now) }
    ensures value { IfOk result (λ rows. (name : List ℕ) → found_by rows name
        ≡ children_where (is_field_named name) of.now.part of.now.unit.now
        (place_of of.now.path.items (node_of place.entry))) }
{
    let mut rows = FieldRows::none(alloc, of)?;
    for number in 0..place.children() {
        match place.child(number) {
            None => return Ok(rows),
            Some(child) => rows.add_child(alloc, child, number)?,
        }
    }
    Ok(rows)
}

/// The fields and enum constants of a type by their names. It takes the time of one look at each child.
pub(crate) fn rows_of<'a>(alloc: Global, of: &Found<'a>) -> Result<FieldRows<'a>, NoMemory>
    ensures of { IfOk result (λ rows. find_of rows.of ≡ find_of of.now) }
    ensures value { IfOk result (λ rows. AreFields rows) }
{
    match place_at(of.unit, of.path.as_slice()) {
        None => {
            let rows = FieldRows::none(alloc, of)?;
            Ok(rows)
        }
        Some(place) => {
            let rows = rows_at(alloc, of, place)?;
            Ok(rows)
        }
    }
}
