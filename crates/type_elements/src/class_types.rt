// The elements of class types.
ghost use Rattle.std.specs.Prelude.{◌≡◌, ◌++◌, [], IfOk, OnOk};
ghost use Rattle.std.specs.Option.{option_copied, option_to_list};
ghost use Rattle.type_layers.specs.Layers.{layer_in};
ghost use Rattle.type_elements.specs.MemberElements as elements;

use apt_base::{ElementRef, List, NoMemory};
use std::alloc::Global;
use type_mirror::{Around, BaseMirror, Mirror};

/// Whether there are two elements, and they are the same.
pub fn same_class(one: Option<&ElementRef>, other: Option<&ElementRef>) -> bool
    ensures { result ≡ elements.same_class (option_copied one.entry) (option_copied other.entry) }
{
    match one {
        None => false,
        Some(one) => match other {
            None => false,
            Some(other) => one.is_equal(other),
        },
    }
}

fn base_element(base: &BaseMirror) -> Option<&ElementRef>
    ensures { option_copied result ≡ elements.element_in (layer_in [] base.now) }
{
    match base {
        BaseMirror::Declared(declared) => Some(&declared.element),
        _ => None,
    }
}

/// The element of a class type; `None` of any other type.
#[tactic(auto, unfolding(type_layers::specs::Layers::layer))]
pub fn class_element(of: &Mirror) -> Option<&ElementRef>
    ensures { option_copied result ≡ elements.class_element of.now }
{
    match of.around.as_slice() {
        [Around::Array, ..] => None,
        [Around::Extends, ..] => None,
        [Around::Super, ..] => None,
        [] => base_element(&of.base),
    }
}

// Adds the element of a type, if it is a class type.
fn add_class_element(
    alloc: Global,
    list: &mut List<ElementRef>,
    of: &Mirror,
) -> Result<(), NoMemory>
    ensures { OnOk result (list.new ≡ list.old ++ option_to_list (elements.class_element of.now)) }
{
    match class_element(of) {
        None => Ok(()),
        Some(element) => {
            let element = element.copy(alloc)?;
            list.push(element)
        }
    }
}

/// The elements of the class types among these types, in order.
pub fn class_elements(alloc: Global, types: &[Mirror]) -> Result<List<ElementRef>, NoMemory>
    ensures { IfOk result (λ list. list ≡ elements.class_elements types.now) }
{
    let mut list = List::new(alloc);
    for each in types {
        add_class_element(alloc, &mut list, each)?;
    }
    Ok(list)
}
