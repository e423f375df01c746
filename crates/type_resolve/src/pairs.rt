// Values that are made one after the other. What lets one of them go is proved here once, for all types.
ghost use Rattle.std.specs.Prelude.{◌≡◌, [], ◌∷◌, ◌++◌, Ok, Err, IfOk, IfErr, IsOkAnd};

use apt_base::{Boxed, List, NoMemory};
use std::alloc::Global;

/// A value with the one that was made after it, or want of memory.
pub(crate) fn both<A: Drop, B: Drop>(one: A, other: Result<B, NoMemory>) -> Result<(A, B), NoMemory>
    ensures one { IfOk result (λ both. both.0 ≡ one) }
    ensures other { IfOk result (λ both. other ≡ Ok both.1) }
    ensures fault { IfErr result (λ fault. other ≡ Err fault) }
{
    match other {
        Ok(other) => Ok((one, other)),
        Err(fault) => Err(fault),
    }
}

/// A list with the item that was made for its end, or want of memory.
pub(crate) fn appended<T: Drop>(
    list: List<T>,
    item: Result<T, NoMemory>,
) -> Result<List<T>, NoMemory>
    ensures { IfOk result (λ more. IsOkAnd item (λ i. more ≡ list ++ i ∷ [])) }
{
    let item = item?;
    let mut more = list;
    more.push(item)?;
    Ok(more)
}

/// A value that may be there, in a box of its own.
pub(crate) fn boxed<T: Drop>(alloc: Global, value: Option<T>) -> Result<Option<Boxed<T>>, NoMemory>
    ensures { IfOk result (λ boxed. boxed ≡ value) }
{
    match value {
        None => Ok(None),
        Some(value) => {
            let boxed = Boxed::new(alloc, value)?;
            Ok(Some(boxed))
        }
    }
}
