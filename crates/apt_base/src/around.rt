// What stands around a type.
ghost use Rattle.std.specs.Prelude.{◌≡◌, ◌↔◌, IsTrue, IfOk};

use crate::{List, NoMemory};
use std::alloc::Global;

/// What stands around a type, as it is written or as a mirror has it: it is the item of an array, or the bound of a wildcard.
#[derive(Clone, Copy, PartialEq, Eq)]
pub enum Around {
    /// An array of it (JLS 10.1), `[]` or as `ArrayType` shows it. Brackets behind a declarator's or a method's name are here too.
    Array,
    /// `? extends` in front of it (JLS 4.5.1), as `WildcardType` shows it.
    Extends,
    /// `? super` in front of it (JLS 4.5.1), as `WildcardType` shows it.
    Super,
}

/// An equal list of what stands around a type.
pub fn copy_around(alloc: Global, around: &List<Around>) -> Result<List<Around>, NoMemory>
    ensures { IfOk result (λ list. list ≡ around.now) }
{
    Ok(List::from_vec(Vec::from_slice(alloc, around.as_slice())?))
}

fn is_same_form(one: &Around, other: &Around) -> bool
    ensures { IsTrue result ↔ one.now ≡ other.now }
{
    *one == *other
}

/// Whether the same stands around two types. It takes no memory.
pub fn is_same_around(ones: &[Around], others: &[Around]) -> bool
    ensures { IsTrue result ↔ ones.now ≡ others.now }
{
    if ones.len() != others.len() {
        return false;
    }
    for at in 0..ones.len() {
        if !is_same_form(&ones[at], &others[at]) {
            return false;
        }
    }
    true
}
