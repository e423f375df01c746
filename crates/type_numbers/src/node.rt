// A type by its outermost layer, with numbers of other types in the place of those that it holds.
ghost use Rattle.std.specs.Prelude.{◌≡◌, IfOk};

use apt_base::{ElementRef, List, Name, NoMemory};
use std::alloc::Global;
use type_mirror::PrimitiveKind;

/// The outermost layer of a type, with the numbers of the types that it holds.
#[derive(Drop)]
pub enum Node {
    /// A primitive type (JLS 4.2).
    Primitive(PrimitiveKind),
    /// A class or interface type (JLS 4.3): its element, its enclosing type and its arguments.
    Declared(ElementRef, Option<usize>, List<usize>),
    /// A name that means no type, or several.
    Error(Name),
    /// A type variable (JLS 4.4) by its type parameter.
    Variable(ElementRef),
    /// An array type (JLS 10.1) by the type of its items.
    Array(usize),
    /// `?` without a bound (JLS 4.5.1).
    Unbounded,
    /// `? extends` with its bound.
    Extends(usize),
    /// `? super` with its bound.
    Super(usize),
    /// A method or constructor: its type parameters, the types of its parameters, of its result and of what it throws.
    Executable(List<ElementRef>, List<usize>, usize, List<usize>),
    /// No type where one could be.
    Nothing,
    /// The result of a method without one (JLS 8.4.5).
    Void,
    /// The type of `null` (JLS 4.1).
    Null,
    /// A package by its name.
    Package(Name),
}

fn copy_numbers(alloc: Global, numbers: &[usize]) -> Result<List<usize>, NoMemory>
    ensures { IfOk result (λ list. list ≡ numbers.now) }
{
    Ok(List::from_vec(Vec::from_slice(alloc, numbers)?))
}

/// Equal elements.
pub(crate) fn copy_elements(
    alloc: Global,
    elements: &[ElementRef],
) -> Result<List<ElementRef>, NoMemory>
    ensures { IfOk result (λ list. list ≡ elements.now) }
{
    let mut copies = List::new(alloc);
    for each in elements {
        copies.push(each.copy(alloc)?)?;
    }
    Ok(copies)
}

impl Node {
    /// An equal node.
    pub fn copy(&self, alloc: Global) -> Result<Node, NoMemory>
        ensures { IfOk result (λ node. node ≡ self.now) }
    {
        match self {
            Node::Primitive(kind) => Ok(Node::Primitive(*kind)),
            Node::Declared(element, enclosing, arguments) => {
                let element = element.copy(alloc)?;
                let arguments = copy_numbers(alloc, arguments.as_slice())?;
                Ok(Node::Declared(element, *enclosing, arguments))
            }
            Node::Error(text) => Ok(Node::Error(text.copy()?)),
            Node::Variable(element) => Ok(Node::Variable(element.copy(alloc)?)),
            Node::Array(item) => Ok(Node::Array(*item)),
            Node::Unbounded => Ok(Node::Unbounded),
            Node::Extends(bound) => Ok(Node::Extends(*bound)),
            Node::Super(bound) => Ok(Node::Super(*bound)),
            Node::Executable(variables, parameters, outcome, thrown) => {
                let variables = copy_elements(alloc, variables.as_slice())?;
                let parameters = copy_numbers(alloc, parameters.as_slice())?;
                let thrown = copy_numbers(alloc, thrown.as_slice())?;
                Ok(Node::Executable(variables, parameters, *outcome, thrown))
            }
            Node::Nothing => Ok(Node::Nothing),
            Node::Void => Ok(Node::Void),
            Node::Null => Ok(Node::Null),
            Node::Package(name) => Ok(Node::Package(name.copy()?)),
        }
    }
}
