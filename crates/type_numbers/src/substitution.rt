// Type variables replaced, by numbers: each different type that stands in a type is looked at once.
ghost use Rattle.std.specs.Prelude.{◌≡◌, ◌<◌, IfOk};
ghost use Rattle.std.specs.List.{AllByRecursion};
ghost use Rattle.std.specs.Option.{option_to_list};
ghost use Rattle.type_layers.specs.Layers.{parts_of};
ghost use Rattle.type_numbers.specs.Nodes.{layer_of};
ghost use Rattle.type_numbers.specs.Numbers.{IsKnown, Stands, AllStand, OptionStands, Grows};
ghost use Rattle.type_numbers.specs.Replaced.{AreKnownIn, Remembers, number_for, replaced_at, replaced_node, replaced_variable, replaced_option, all_replaced};

use crate::node::Node;
use crate::types::Types;
use apt_base::{ElementRef, List, NoMemory};
use std::alloc::Global;
use std::collections::BTreeMap;

// The number of what is put in the place of that variable, where the list has it.
fn number_for(by: &[(ElementRef, usize)], element: &ElementRef) -> Option<usize>
    ensures { result ≡ number_for by.now element.now }
{
    for pair in by {
        if pair.0.is_equal(element) {
            return Some(pair.1);
        }
    }
    None
}

/// The number of the type with each variable of the list replaced by the type with the number beside it, all at once, wherever it stands as a type (JLS 4.10.2): what was put in is not looked at again, and a variable that is not in the list stays. An executable's own type parameters are named, and do not stand there as types. Where a variable stands twice in the list, its first entry counts. Each number that was given before still has the same type, also where out of memory ends the call.
///
/// Each different type that stands in this one is looked at once, and each variable is compared with those of the list. It is out of memory too where there would be more than 1,048,576 types, or layers nested more than 4,096 deep.
pub fn substitute(
    alloc: Global,
    types: &mut Types,
    by: &[(ElementRef, usize)],
    number: usize,
) -> Result<usize, NoMemory>
    requires known { IsKnown types.old number }
    requires by { AreKnownIn types.old by.now }
    ensures stands { IfOk result (λ n. Stands types.new n (replaced_at types.old by.now number)) }
    ensures grows { Grows types.old types.new }
{
    let mut done = BTreeMap::new(alloc);
    replaced(alloc, types, by, &mut done, number)
}

// The same, where some types were replaced before.
#[cycle(replacing)]
fn replaced(
    alloc: Global,
    types: &mut Types,
    by: &[(ElementRef, usize)],
    done: &mut BTreeMap<usize, usize>,
    number: usize,
) -> Result<usize, NoMemory>
    requires known { IsKnown types.old number }
    requires by { AreKnownIn types.old by.now }
    requires so_far { Remembers types.old by.now done.old }
    ensures stands { IfOk result (λ n. Stands types.new n (replaced_at types.old by.now number)) }
    ensures grows { Grows types.old types.new }
    ensures so_far { Remembers types.new by.now done.new }
{
    if let Some(made) = done.get(&number) {
        return Ok(*made);
    }
    let node = types.node(number).copy(alloc)?;
    let made = replaced_node(alloc, types, by, done, number, node)?;
    done.insert(number, made)?;
    Ok(made)
}

// The number of the type with this outermost layer, replaced; its parts have numbers below `below`.
#[cycle(replacing)]
fn replaced_node(
    alloc: Global,
    types: &mut Types,
    by: &[(ElementRef, usize)],
    done: &mut BTreeMap<usize, usize>,
    below: usize,
    node: Node,
) -> Result<usize, NoMemory>
    requires known { IsKnown types.old below }
    requires fall { AllByRecursion (λ part. part < below) (parts_of (layer_of node)) }
    requires by { AreKnownIn types.old by.now }
    requires so_far { Remembers types.old by.now done.old }
    ensures stands { IfOk result (λ n. Stands types.new n (replaced_node types.old by.now node)) }
    ensures grows { Grows types.old types.new }
    ensures so_far { Remembers types.new by.now done.new }
{
    match node {
        Node::Variable(element) => replaced_variable(types, by, element),
        Node::Declared(element, enclosing, arguments) => {
            let enclosing = replaced_optional(alloc, types, by, done, below, enclosing)?;
            let arguments = replaced_each(alloc, types, by, done, below, arguments.as_slice())?;
            types.intern(Node::Declared(element, enclosing, arguments))
        }
        Node::Array(item) => {
            let item = replaced(alloc, types, by, done, item)?;
            types.intern(Node::Array(item))
        }
        Node::Extends(bound) => {
            let bound = replaced(alloc, types, by, done, bound)?;
            types.intern(Node::Extends(bound))
        }
        Node::Super(bound) => {
            let bound = replaced(alloc, types, by, done, bound)?;
            types.intern(Node::Super(bound))
        }
        Node::Executable(variables, parameters, outcome, thrown) => {
            let parameters = replaced_each(alloc, types, by, done, below, parameters.as_slice())?;
            let outcome = replaced(alloc, types, by, done, outcome)?;
            let thrown = replaced_each(alloc, types, by, done, below, thrown.as_slice())?;
            types.intern(Node::Executable(variables, parameters, outcome, thrown))
        }
        Node::Primitive(kind) => types.intern(Node::Primitive(kind)),
        Node::Error(text) => types.intern(Node::Error(text)),
        Node::Unbounded => types.intern(Node::Unbounded),
        Node::Nothing => types.intern(Node::Nothing),
        Node::Void => types.intern(Node::Void),
        Node::Null => types.intern(Node::Null),
        Node::Package(name) => types.intern(Node::Package(name)),
    }
}

// The number of what stands in the place of that variable.
fn replaced_variable(
    types: &mut Types,
    by: &[(ElementRef, usize)],
    element: ElementRef,
) -> Result<usize, NoMemory>
    requires { AreKnownIn types.old by.now }
    ensures stands { IfOk result (λ n. Stands types.new n (replaced_variable types.old by.now element)) }
    ensures grows { Grows types.old types.new }
{
    match number_for(by, &element) {
        Some(number) => Ok(number),
        None => types.intern(Node::Variable(element)),
    }
}

#[cycle(replacing)]
fn replaced_optional(
    alloc: Global,
    types: &mut Types,
    by: &[(ElementRef, usize)],
    done: &mut BTreeMap<usize, usize>,
    below: usize,
    number: Option<usize>,
) -> Result<Option<usize>, NoMemory>
    requires known { IsKnown types.old below }
    requires fall { AllByRecursion (λ part. part < below) (option_to_list number) }
    requires by { AreKnownIn types.old by.now }
    requires so_far { Remembers types.old by.now done.old }
    ensures stands { IfOk result (λ n. OptionStands types.new n (replaced_option types.old by.now number)) }
    ensures grows { Grows types.old types.new }
    ensures so_far { Remembers types.new by.now done.new }
{
    match number {
        None => Ok(None),
        Some(number) => Ok(Some(replaced(alloc, types, by, done, number)?)),
    }
}

#[cycle(replacing)]
fn replaced_each(
    alloc: Global,
    types: &mut Types,
    by: &[(ElementRef, usize)],
    done: &mut BTreeMap<usize, usize>,
    below: usize,
    numbers: &[usize],
) -> Result<List<usize>, NoMemory>
    requires known { IsKnown types.old below }
    requires fall { AllByRecursion (λ part. part < below) numbers.now }
    requires by { AreKnownIn types.old by.now }
    requires so_far { Remembers types.old by.now done.old }
    ensures stands { IfOk result (λ n. AllStand types.new n (all_replaced types.old by.now numbers.now)) }
    ensures grows { Grows types.old types.new }
    ensures so_far { Remembers types.new by.now done.new }
{
    let mut all = List::new(alloc);
    for number in numbers {
        let made = replaced(alloc, types, by, done, *number)?;
        all.push(made)?;
    }
    Ok(all)
}
