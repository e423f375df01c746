// The reference of an element.
ghost use Rattle.std.specs.Prelude.{◌≡◌, ◌↔◌, IsTrue, IfOk};
ghost use Rattle.apt_base.specs.Elements.{same_element};

use crate::{List, Name, NoMemory};
use std::alloc::Global;

/// An element by its place: the name of its unit, and for each step down the number of the child, from 0, among the children of the element above. Without a step it is the type or the package of the unit.
#[derive(Drop)]
pub struct ElementRef {
    pub unit: Name,
    pub path: List<u16>,
}

impl ElementRef {
    /// An equal reference.
    pub fn copy(&self, alloc: Global) -> Result<ElementRef, NoMemory>
        ensures { IfOk result (λ element. element ≡ self.now) }
    {
        Ok(ElementRef {
            unit: self.unit.copy()?,
            path: List::from_vec(Vec::from_slice(alloc, self.path.as_slice())?),
        })
    }

    /// Whether both refer to one element: the same unit and the same path. It takes no memory.
    pub fn is_equal(&self, other: &ElementRef) -> bool
        ensures same { IsTrue result ↔ self.now ≡ other.now }
        ensures tests { result ≡ same_element self.now other.now }
    {
        self.unit.as_str() == other.unit.as_str() && self.path.as_slice() == other.path.as_slice()
    }
}
