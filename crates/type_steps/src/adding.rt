// Numbers of mirrors that are small as trees: of what is written in a header, of a bound, of an erasure.
ghost use Rattle.std.specs.Prelude.{IfOk};
ghost use Rattle.type_numbers.specs.Numbers.{AllStand, OptionStands, Grows};
ghost use Rattle.type_steps.specs.Supertypes.{AllMayStand};

use apt_base::{List, NoMemory};
use std::alloc::Global;
use type_mirror::Mirror;
use type_numbers::Types;

/// The number of a type that may be open.
pub(crate) fn add_optional(
    types: &mut Types,
    mirror: &Option<Mirror>,
) -> Result<Option<usize>, NoMemory>
    ensures stands { IfOk result (λ n. OptionStands types.new n mirror.now) }
    ensures grows { Grows types.old types.new }
{
    match mirror {
        None => Ok(None),
        Some(mirror) => Ok(Some(types.add(mirror)?)),
    }
}

/// The numbers of several types, in order.
pub(crate) fn add_each(
    alloc: Global,
    types: &mut Types,
    mirrors: &[Mirror],
) -> Result<List<usize>, NoMemory>
    ensures stands { IfOk result (λ ns. AllStand types.new ns mirrors.now) }
    ensures grows { Grows types.old types.new }
{
    let mut numbers = List::new(alloc);
    for each in mirrors {
        let number = types.add(each)?;
        numbers.push(number)?;
    }
    Ok(numbers)
}

/// The numbers of several types that may be open.
pub(crate) fn add_all(
    alloc: Global,
    types: &mut Types,
    mirrors: &Option<List<Mirror>>,
) -> Result<Option<List<usize>>, NoMemory>
    ensures stands { IfOk result (λ ns. AllMayStand types.new ns mirrors.now) }
    ensures grows { Grows types.old types.new }
{
    match mirrors {
        None => Ok(None),
        Some(mirrors) => Ok(Some(add_each(alloc, types, mirrors.as_slice())?)),
    }
}
