// The key of a node: numbers that no node with another layer has.
ghost use Rattle.std.specs.Prelude.{◌≡◌, ◌++◌, ◌∷◌, [], IfOk, OnOk};
ghost use Rattle.type_numbers.specs.Keys.{counted, element_key, elements_key, optional_key, declared_key};
ghost use Rattle.type_numbers.specs.Keys.{executable_key, layer_key, kind_number};
ghost use Rattle.type_numbers.specs.Nodes.{layer_of};

use crate::node::Node;
use apt_base::{ElementRef, NoMemory};
use std::alloc::Global;
use type_mirror::PrimitiveKind;

fn kind_number(kind: &PrimitiveKind) -> usize
    ensures { result ≡ kind_number kind.now }
{
    match kind {
        PrimitiveKind::Boolean => 0,
        PrimitiveKind::Byte => 1,
        PrimitiveKind::Short => 2,
        PrimitiveKind::Int => 3,
        PrimitiveKind::Long => 4,
        PrimitiveKind::Char => 5,
        PrimitiveKind::Float => 6,
        PrimitiveKind::Double => 7,
    }
}

// The numbers themselves.
fn begun(alloc: Global, numbers: &[usize]) -> Result<Vec<usize>, NoMemory>
    ensures { IfOk result (λ k. k.items ≡ numbers.now) }
{
    Ok(Vec::from_slice(alloc, numbers)?)
}

fn push_bytes(key: &mut Vec<usize>, bytes: &[u8]) -> Result<(), NoMemory>
    ensures { OnOk result (key.new.items ≡ key.old.items ++ counted bytes.now) }
{
    key.push(bytes.len())?;
    for each in bytes {
        key.push(*each as usize)?;
    }
    Ok(())
}

fn push_path(key: &mut Vec<usize>, path: &[u16]) -> Result<(), NoMemory>
    ensures { OnOk result (key.new.items ≡ key.old.items ++ counted path.now) }
{
    key.push(path.len())?;
    for each in path {
        key.push(*each as usize)?;
    }
    Ok(())
}

fn push_numbers(key: &mut Vec<usize>, numbers: &[usize]) -> Result<(), NoMemory>
    ensures { OnOk result (key.new.items ≡ key.old.items ++ counted numbers.now) }
{
    key.push(numbers.len())?;
    for each in numbers {
        key.push(*each)?;
    }
    Ok(())
}

fn push_element(key: &mut Vec<usize>, element: &ElementRef) -> Result<(), NoMemory>
    ensures { OnOk result (key.new.items ≡ key.old.items ++ element_key element.now) }
{
    push_bytes(key, element.unit.as_str().as_bytes())?;
    push_path(key, element.path.as_slice())
}

/// The key of an element, by which what is known of it can be found: numbers that no other element has.
pub fn element_key(alloc: Global, element: &ElementRef) -> Result<Vec<usize>, NoMemory>
    ensures { IfOk result (λ k. k.items ≡ element_key element.now) }
{
    let mut key = Vec::new(alloc);
    push_element(&mut key, element)?;
    Ok(key)
}

fn push_elements(key: &mut Vec<usize>, elements: &[ElementRef]) -> Result<(), NoMemory>
    ensures { OnOk result (key.new.items ≡ key.old.items ++ elements_key elements.now) }
{
    key.push(elements.len())?;
    for each in elements {
        push_element(key, each)?;
    }
    Ok(())
}

fn push_optional(key: &mut Vec<usize>, number: &Option<usize>) -> Result<(), NoMemory>
    ensures { OnOk result (key.new.items ≡ key.old.items ++ optional_key number.now) }
{
    match number {
        None => Ok(key.push(0)?),
        Some(number) => {
            key.push(1)?;
            Ok(key.push(*number)?)
        }
    }
}

fn declared_key(
    alloc: Global,
    element: &ElementRef,
    enclosing: &Option<usize>,
    arguments: &[usize],
) -> Result<Vec<usize>, NoMemory>
    ensures { IfOk result (λ k. k.items ≡ declared_key element.now enclosing.now arguments.now) }
{
    let mut key = begun(alloc, &[1])?;
    push_element(&mut key, element)?;
    push_optional(&mut key, enclosing)?;
    push_numbers(&mut key, arguments)?;
    Ok(key)
}

fn executable_key(
    alloc: Global,
    variables: &[ElementRef],
    parameters: &[usize],
    outcome: usize,
    thrown: &[usize],
) -> Result<Vec<usize>, NoMemory>
    ensures { IfOk result (λ k. k.items ≡ executable_key variables.now parameters.now outcome thrown.now) }
{
    let mut key = begun(alloc, &[8, outcome])?;
    push_elements(&mut key, variables)?;
    push_numbers(&mut key, parameters)?;
    push_numbers(&mut key, thrown)?;
    Ok(key)
}

fn variable_key(alloc: Global, element: &ElementRef) -> Result<Vec<usize>, NoMemory>
    ensures { IfOk result (λ k. k.items ≡ (3 ∷ []) ++ element_key element.now) }
{
    let mut key = begun(alloc, &[3])?;
    push_element(&mut key, element)?;
    Ok(key)
}

fn text_key(alloc: Global, sort: usize, text: &str) -> Result<Vec<usize>, NoMemory>
    ensures { IfOk result (λ k. k.items ≡ (sort ∷ []) ++ counted text.now) }
{
    let mut key = begun(alloc, &[sort])?;
    push_bytes(&mut key, text.as_bytes())?;
    Ok(key)
}

/// The key of the node.
pub(crate) fn key_of(alloc: Global, node: &Node) -> Result<Vec<usize>, NoMemory>
    ensures { IfOk result (λ items. items.items ≡ layer_key (layer_of node.now)) }
{
    match node {
        Node::Primitive(kind) => begun(alloc, &[0, kind_number(kind)]),
        Node::Declared(element, enclosing, arguments) => {
            declared_key(alloc, element, enclosing, arguments.as_slice())
        }
        Node::Error(text) => text_key(alloc, 2, text.as_str()),
        Node::Variable(element) => variable_key(alloc, element),
        Node::Array(item) => begun(alloc, &[4, *item]),
        Node::Unbounded => begun(alloc, &[5]),
        Node::Extends(bound) => begun(alloc, &[6, *bound]),
        Node::Super(bound) => begun(alloc, &[7, *bound]),
        Node::Executable(variables, parameters, outcome, thrown) => executable_key(
            alloc,
            variables.as_slice(),
            parameters.as_slice(),
            *outcome,
            thrown.as_slice(),
        ),
        Node::Nothing => begun(alloc, &[9]),
        Node::Void => begun(alloc, &[10]),
        Node::Null => begun(alloc, &[11]),
        Node::Package(name) => text_key(alloc, 12, name.as_str()),
    }
}
