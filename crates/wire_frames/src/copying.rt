// Copies of what frames hold: each kind of part, lists of parts, and several parts together.
ghost use Rattle.std.specs.Prelude.{◌≡◌, IfOk};

use apt_base::{ElementRef, List, Name, NoMemory, copy_names};
use std::alloc::Global;
use type_mirror::{Annotation, Mirror, Value};

/// What frames hold and copy.
pub(crate) trait Part: Drop {
    /// An equal part. It fails only when memory runs out.
    fn copied(&self, alloc: Global) -> Result<Self, NoMemory>
        ensures { IfOk result (λ copy. copy ≡ self.now) };
}

/// Equal parts in the same order.
pub(crate) fn copy_all<T: Part>(alloc: Global, parts: &[T]) -> Result<List<T>, NoMemory>
    ensures { IfOk result (λ list. list ≡ parts.now) }
{
    let mut copies = List::new(alloc);
    for each in parts {
        copies.push(each.copied(alloc)?)?;
    }
    Ok(copies)
}

/// Two parts that are equal to these.
pub(crate) fn copy_both<A: Part, B: Part>(
    alloc: Global,
    one: &A,
    other: &B,
) -> Result<(A, B), NoMemory>
    ensures { IfOk result (λ copies. (copies.0 ≡ one.now) × (copies.1 ≡ other.now)) }
{
    Ok((one.copied(alloc)?, other.copied(alloc)?))
}

/// Three parts that are equal to these.
pub(crate) fn copy_three<A: Part, B: Part, C: Part>(
    alloc: Global,
    one: &A,
    two: &B,
    three: &C,
) -> Result<(A, B, C), NoMemory>
    ensures { IfOk result (λ copies. (copies.0 ≡ one.now) × (copies.1 ≡ two.now) × (copies.2 ≡ three.now)) }
{
    Ok((one.copied(alloc)?, two.copied(alloc)?, three.copied(alloc)?))
}

/// Four parts that are equal to these.
pub(crate) fn copy_four<A: Part, B: Part, C: Part, D: Part>(
    alloc: Global,
    one: &A,
    two: &B,
    three: &C,
    four: &D,
) -> Result<(A, B, C, D), NoMemory>
    ensures front { IfOk result (λ copies. (copies.0 ≡ one.now) × (copies.1 ≡ two.now)) }
    ensures rest { IfOk result (λ copies. (copies.2 ≡ three.now) × (copies.3 ≡ four.now)) }
{
    let (one, two) = copy_both(alloc, one, two)?;
    let (three, four) = copy_both(alloc, three, four)?;
    Ok((one, two, three, four))
}

// ---- the kinds of parts

impl Part for Name {
    fn copied(&self, _: Global) -> Result<Name, NoMemory> {
        self.copy()
    }
}

impl Part for ElementRef {
    fn copied(&self, alloc: Global) -> Result<ElementRef, NoMemory> {
        self.copy(alloc)
    }
}

impl Part for Mirror {
    fn copied(&self, alloc: Global) -> Result<Mirror, NoMemory> {
        self.copy(alloc)
    }
}

impl Part for Value {
    fn copied(&self, alloc: Global) -> Result<Value, NoMemory> {
        self.copy(alloc)
    }
}

impl Part for Annotation {
    fn copied(&self, alloc: Global) -> Result<Annotation, NoMemory> {
        self.copy(alloc)
    }
}

impl<A: Part, B: Part> Part for (A, B) {
    fn copied(&self, alloc: Global) -> Result<(A, B), NoMemory> {
        copy_both(alloc, &self.0, &self.1)
    }
}

impl<T: Part> Part for Option<T> {
    fn copied(&self, alloc: Global) -> Result<Option<T>, NoMemory> {
        match self {
            None => Ok(None),
            Some(part) => Ok(Some(part.copied(alloc)?)),
        }
    }
}

impl Part for List<u8> {
    fn copied(&self, alloc: Global) -> Result<List<u8>, NoMemory> {
        Ok(List::from_vec(self.as_slice().to_vec(alloc)?))
    }
}

impl Part for List<Name> {
    fn copied(&self, alloc: Global) -> Result<List<Name>, NoMemory> {
        copy_names(alloc, self.as_slice())
    }
}

impl Part for List<(Name, Name)> {
    fn copied(&self, alloc: Global) -> Result<List<(Name, Name)>, NoMemory> {
        copy_all(alloc, self.as_slice())
    }
}

impl Part for List<ElementRef> {
    fn copied(&self, alloc: Global) -> Result<List<ElementRef>, NoMemory> {
        copy_all(alloc, self.as_slice())
    }
}

impl Part for List<Mirror> {
    fn copied(&self, alloc: Global) -> Result<List<Mirror>, NoMemory> {
        copy_all(alloc, self.as_slice())
    }
}
