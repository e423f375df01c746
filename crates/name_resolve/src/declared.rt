// What an element declares by a name. The member types of a type with many children are found by the index of
// the table, and type parameters stand in front of all other children.
ghost use Rattle.std.specs.Prelude.{◌≡◌, ◌↔◌, Some, IsTrue, IfOk, slice_get};
ghost use Rattle.decl_elements.specs.Nodes.{children};
ghost use Rattle.decl_elements.specs.Shown.{node_of};
ghost use Rattle.element_table.specs.MemberTypes.{AreWithin};
ghost use Rattle.element_table.specs.TypeTable.{unit_of};
ghost use Rattle.name_resolve.specs.ChildTypes.{child_type, child_type_of};
ghost use Rattle.name_resolve.specs.Finds.{Several, declared_types};
ghost use Rattle.name_resolve.specs.Parts.{declared_parameters};
ghost use Rattle.name_resolve.specs.Placed.{IsPlaced};
ghost use Rattle.name_resolve.specs.Shown.{find_of, finds_of};

use crate::children::{children_count, declared_parameters, declared_types, is_type_named, one_if};
use crate::effort::STEPS_OF_LOOK_UP;
use crate::finds::{Finds, Found, both};
use crate::member_types::MemberTypes;
use apt_base::{Name, NoMemory};
use call_effort::Effort;
use decl_elements::{Place, place_at};
use decl_tree::Member;
use element_table::{ChildRange, unit_name};
use std::alloc::Global;

/// How many members of a type are compared one by one: up to about as many the index takes longer.
const MOST_COMPARED: usize = 32;

// Whether few children stand there.
fn has_few_children(of: &Found<'_>) -> bool {
    let Some(place) = place_at(of.unit, of.path.as_slice()) else {
        return true;
    };
    match place.declaration() {
        Some(declaration) => {
            declaration.members.len() <= MOST_COMPARED
                && declaration.parameters.len() <= MOST_COMPARED
        }
        None => usize::from(place.children()) <= MOST_COMPARED,
    }
}

fn member_parameters(member: &Member) -> usize {
    match member {
        Member::Field(_) | Member::Constant(_) => 0,
        Member::Method(method) => method.parameters.len(),
        Member::Constructor(constructor) => constructor.parameters.len(),
        Member::Nested(declaration) => declaration.parameters.len(),
    }
}

// How many type parameters an element declares.
fn parameter_count(of: &Found<'_>) -> usize {
    match place_at(of.unit, of.path.as_slice()) {
        Some(Place::Top(declaration)) => declaration.parameters.len(),
        Some(Place::Inside(_, member)) => member_parameters(member),
        _ => 0,
    }
}

fn is_several(finds: &Finds<'_>) -> bool
    ensures { IsTrue result ↔ (finds_of finds.now ≡ Several) }
{
    matches!(finds, Finds::Several)
}

// The child with this number, if it is a type of this name.
fn child_type_of<'a>(
    alloc: Global,
    of: &Found<'a>,
    place: Place<'a>,
    name: &str,
    number: u16,
) -> Result<Finds<'a>, NoMemory>
    ensures { IfOk result (λ f. finds_of f ≡
        child_type_of (find_of of.now) name.now number (slice_get (children (node_of place.entry)) number)) }
{
    match place.child(number) {
        None => Ok(Finds::Nothing),
        Some(child) => one_if(alloc, is_type_named(name, child), of, number),
    }
}

fn child_type<'a>(
    alloc: Global,
    of: &Found<'a>,
    name: &str,
    number: u16,
) -> Result<Finds<'a>, NoMemory>
    ensures { IfOk result (λ f. finds_of f ≡ child_type (find_of of.now) name.now number) }
{
    match place_at(of.unit, of.path.as_slice()) {
        None => Ok(Finds::Nothing),
        Some(place) => child_type_of(alloc, of, place, name, number),
    }
}

impl<'a> MemberTypes<'a> {
    // The member types of this name by a comparison of all children.
    fn compared(
        &self,
        of: &Found<'a>,
        name: &str,
        effort: &mut Effort,
    ) -> Result<Finds<'a>, NoMemory>
        ensures { IfOk result (λ f. finds_of f ≡ declared_types (find_of of.now) name.now) }
    {
        effort.take(children_count(of))?;
        declared_types(self.alloc, of, name)
    }

    // The same where all of them stand in a range. Its ends are looked at first: where both are such types no
    // other child is.
    fn among(
        &self,
        of: &Found<'a>,
        name: &str,
        range: ChildRange,
        effort: &mut Effort,
    ) -> Result<Finds<'a>, NoMemory>
        requires { AreWithin (Some range) (Some of.now.unit.now) of.now.path.items name.now }
        ensures { IfOk result (λ f. finds_of f ≡ declared_types (find_of of.now) name.now) }
    {
        let first = child_type(self.alloc, of, name, range.first)?;
        if range.first == range.last {
            return Ok(first);
        }
        let last = child_type(self.alloc, of, name, range.last)?;
        let ends = both(first, last);
        if is_several(&ends) {
            return Ok(Finds::Several);
        }
        self.compared(of, name, effort)
    }

    // The same by the index of the table.
    fn indexed(
        &self,
        of: &Found<'a>,
        unit: &Name,
        name: &str,
        effort: &mut Effort,
    ) -> Result<Finds<'a>, NoMemory>
        requires { unit_of self.now.table.now unit.now ≡ Some of.now.unit.now }
        ensures { IfOk result (λ f. finds_of f ≡ declared_types (find_of of.now) name.now) }
    {
        let path = of.path.as_slice();
        match self.table.member_types(self.alloc, unit, path, name)? {
            None => Ok(Finds::Nothing),
            Some(range) => self.among(of, name, range, effort),
        }
    }

    /// The member types of this name that a type declares. It takes the time of a look-up, however many
    /// children the type has.
    pub fn declared(
        &self,
        of: &Found<'a>,
        name: &str,
        effort: &mut Effort,
    ) -> Result<Finds<'a>, NoMemory>
        requires { IsPlaced self.now.table.now (find_of of.now) }
        ensures { IfOk result (λ f. finds_of f ≡ declared_types (find_of of.now) name.now) }
    {
        if has_few_children(of) {
            return self.compared(of, name, effort);
        }
        effort.take(STEPS_OF_LOOK_UP)?;
        let unit = unit_name(self.alloc, of.unit)?;
        match self.table.find(&unit) {
            None => self.compared(of, name, effort),
            Some(_) => self.indexed(of, &unit, name, effort),
        }
    }

    /// The type parameters of this name that an element declares.
    pub fn parameters(
        &self,
        of: &Found<'a>,
        name: &str,
        effort: &mut Effort,
    ) -> Result<Finds<'a>, NoMemory>
        ensures { IfOk result (λ f. finds_of f ≡ declared_parameters (find_of of.now) name.now) }
    {
        effort.take(parameter_count(of))?;
        declared_parameters(self.alloc, of, name)
    }
}
