// Lists of what an answer holds.
ghost use Rattle.std.specs.Prelude.{◌≡◌, [], ◌∷◌, IfOk};
ghost use Rattle.std.specs.Option.{option_to_list};

use apt_base::{List, NoMemory};
use std::alloc::Global;

/// A list of one item.
pub(crate) fn list_of<T: Drop>(alloc: Global, item: T) -> Result<List<T>, NoMemory>
    ensures { IfOk result (λ list. list ≡ item ∷ []) }
{
    let mut list = List::new(alloc);
    list.push(item)?;
    Ok(list)
}

/// A list of one item or of none.
pub(crate) fn list_of_found<T: Drop>(alloc: Global, found: Option<T>) -> Result<List<T>, NoMemory>
    ensures { IfOk result (λ list. list ≡ option_to_list found) }
{
    match found {
        None => Ok(List::new(alloc)),
        Some(item) => list_of(alloc, item),
    }
}
