// An annotation of an element.
ghost use Rattle.std.specs.Prelude.{◌≡◌, ◌++◌, IfOk, OnOk};
ghost use Rattle.std.specs.Option.{option_to_list};
ghost use Rattle.annotation_presence.specs.Carried.{is_of_type, has_type, types_of};
ghost use Rattle.annotation_presence.specs.Shown.{carried_of, carried_in};

use apt_base::{ElementRef, List, NoMemory};
use decl_tree::AnnotationText;
use name_resolve::Found;
use std::alloc::Global;

/// An annotation that is present on an element.
#[derive(Drop)]
pub struct Carried<'a> {
    /// The element on which it is written.
    pub at: Found<'a>,
    pub text: &'a AnnotationText,
    /// The annotation interface that its name means there, if it means one.
    pub annotation_type: Option<ElementRef>,
}

impl<'a> Carried<'a> {
    fn is_of_type(&self, at: &ElementRef) -> bool
        ensures { result ≡ is_of_type at.now (carried_of self.now) }
    {
        match &self.annotation_type {
            None => false,
            Some(other) => at.is_equal(other),
        }
    }
}

/// Whether one of these is of an annotation interface.
pub(crate) fn has_type(at: &ElementRef, list: &[Carried<'_>]) -> bool
    ensures { result ≡ has_type at.now (carried_in list.now) }
{
    for each in list {
        if each.is_of_type(at) {
            return true;
        }
    }
    false
}

fn add_type(alloc: Global, types: &mut List<ElementRef>, each: &Carried<'_>) -> Result<(), NoMemory>
    ensures { OnOk result (types.new ≡ types.old ++ option_to_list each.now.annotation_type) }
{
    match &each.annotation_type {
        None => Ok(()),
        Some(at) => types.push(at.copy(alloc)?),
    }
}

/// The annotation interfaces of these annotations, in their order.
pub(crate) fn types_of(alloc: Global, list: &[Carried<'_>]) -> Result<List<ElementRef>, NoMemory>
    ensures { IfOk result (λ types. types ≡ types_of (carried_in list.now)) }
{
    let mut types = List::new(alloc);
    for each in list {
        add_type(alloc, &mut types, each)?;
    }
    Ok(types)
}
