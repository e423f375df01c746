// Members of a type that are known.
ghost use Rattle.std.specs.Prelude.{◌≡◌, IfOk};

use apt_base::{ElementRef, List, NoMemory};
use std::alloc::Global;

/// The members of a type, with the least number of levels of supertypes within which they are closed.
#[derive(Drop)]
pub(crate) struct KnownMembers {
    pub levels: u32,
    pub list: List<ElementRef>,
}

fn copy_elements(alloc: Global, elements: &[ElementRef]) -> Result<List<ElementRef>, NoMemory>
    ensures { IfOk result (λ list. list ≡ elements.now) }
{
    let mut copies = List::new(alloc);
    for each in elements {
        copies.push(each.copy(alloc)?)?;
    }
    Ok(copies)
}

impl KnownMembers {
    /// An equal value.
    pub fn copy(&self, alloc: Global) -> Result<KnownMembers, NoMemory>
        ensures { IfOk result (λ known. known ≡ self.now) }
    {
        let list = copy_elements(alloc, self.list.as_slice())?;
        Ok(KnownMembers {
            levels: self.levels,
            list,
        })
    }
}
