// Look-ups at several places that count as one: what they find together, or all that they want to have asked.
ghost use Rattle.std.specs.Prelude.{◌≡◌, ◌++◌, Ok, Err, IfOk};
ghost use Rattle.name_resolve.specs.declared.memory.Stop.TheVariants as stop;
ghost use Rattle.name_resolve.specs.Remembered.{Gathers};

use crate::finds::{Finds, both};
use crate::memory::{Stop, Wanted};
use apt_base::NoMemory;

// All that both want.
fn with_more<'a>(
    mut wanted: Vec<Wanted<'a>>,
    mut more: Vec<Wanted<'a>>,
) -> Result<Vec<Wanted<'a>>, NoMemory>
    ensures { IfOk result (λ all. all.items ≡ wanted.entry.items ++ more.entry.items) }
{
    wanted.append(&mut more)?;
    Ok(wanted)
}

// With what is found at one more place.
fn found_too<'a>(
    before: Result<Finds<'a>, Vec<Wanted<'a>>>,
    finds: Finds<'a>,
) -> Result<Finds<'a>, Vec<Wanted<'a>>>
    ensures { Gathers before.entry (Ok finds.entry) result }
{
    match before {
        Ok(first) => Ok(both(first, finds)),
        Err(wanted) => Err(wanted),
    }
}

// With what the look-up at one more place wants to have asked.
fn wanted_too<'a>(
    before: Result<Finds<'a>, Vec<Wanted<'a>>>,
    more: Vec<Wanted<'a>>,
) -> Result<Result<Finds<'a>, Vec<Wanted<'a>>>, NoMemory>
    ensures { IfOk result (λ all. Gathers before.entry (Err (stop.Wanted more.entry)) all) }
{
    match before {
        Ok(_) => Ok(Err(more)),
        Err(wanted) => {
            let all = with_more(wanted, more)?;
            Ok(Err(all))
        }
    }
}

/// What is found at some places and at one more that counts as one with them, or all that is wanted there:
/// so a look-up that is made anew for what it wants asks for much of it at a time. Out of memory where the
/// look-up at the place was.
pub(crate) fn gathered<'a>(
    before: Result<Finds<'a>, Vec<Wanted<'a>>>,
    more: Result<Finds<'a>, Stop<'a>>,
) -> Result<Result<Finds<'a>, Vec<Wanted<'a>>>, NoMemory>
    ensures { IfOk result (λ all. Gathers before.entry more.entry all) }
{
    match more {
        Ok(finds) => Ok(found_too(before, finds)),
        Err(Stop::Memory) => Err(NoMemory),
        Err(Stop::Wanted(wanted)) => wanted_too(before, wanted),
    }
}
