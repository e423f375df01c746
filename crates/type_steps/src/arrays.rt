// Arrays of arrays, gone through in loops.
ghost use Rattle.std.specs.Prelude.{◌≡◌, ◌≤◌, false, IfOk};
ghost use Rattle.std.specs.Option.{option_to_list};
ghost use Rattle.type_layers.specs.Layers.{layer};
ghost use Rattle.type_numbers.specs.Numbers.{at, IsKnown, AreKnown, Stands, OptionStands, Grows};
ghost use Rattle.type_relations.specs.Direct as directs;
ghost use Rattle.type_steps.specs.Arrays.{arrays, arrays_at, is_array, has_item, ErasesIn};

use apt_base::NoMemory;
use type_numbers::{Node, Types};

/// In how many arrays what type stands. The type itself is no array.
pub(crate) fn item_of(types: &Types, number: usize) -> (usize, usize)
    requires { IsKnown types.now number }
    ensures known { IsKnown types.now result.1 }
    ensures whole { at types.now number ≡ arrays result.0 (at types.now result.1) }
    ensures item { is_array (layer (at types.now result.1)) ≡ false }
{
    let mut item = number;
    let mut around = 0;
    while let Node::Array(inner) = types.node(item) {
        item = *inner;
        around += 1;
    }
    (around, item)
}

/// In how many arrays the erasure of what type is that of this one: an array is erased by its item, and `? extends` by its bound.
pub(crate) fn erased_item(types: &Types, number: usize) -> (usize, usize)
    requires { IsKnown types.now number }
    ensures below { result.1 ≤ number }
    ensures whole { ErasesIn (at types.now number) result.0 (at types.now result.1) }
    ensures item { has_item (layer (at types.now result.1)) ≡ false }
{
    let mut item = number;
    let mut around = 0;
    loop {
        match types.node(item) {
            Node::Array(inner) => {
                item = *inner;
                around += 1;
            }
            Node::Extends(bound) => item = *bound,
            _ => return (around, item),
        }
    }
}

/// Whether it is a primitive type.
pub(crate) fn is_primitive(types: &Types, number: usize) -> bool
    requires { IsKnown types.now number }
    ensures { result ≡ directs.is_primitive (layer (at types.now number)) }
{
    matches!(types.node(number), Node::Primitive(_))
}

fn in_arrays(types: &mut Types, around: usize, item: usize) -> Result<usize, NoMemory>
    requires { IsKnown types.old item }
    ensures stands { IfOk result (λ n. Stands types.new n (arrays around (at types.old item))) }
    ensures grows { Grows types.old types.new }
{
    let mut number = item;
    for _ in 0..around {
        number = types.intern(Node::Array(number))?;
    }
    Ok(number)
}

/// The type in this many arrays; open where it is.
pub(crate) fn all_in_arrays(
    types: &mut Types,
    around: usize,
    item: Option<usize>,
) -> Result<Option<usize>, NoMemory>
    requires { AreKnown types.old (option_to_list item) }
    ensures stands { IfOk result (λ n. OptionStands types.new n (arrays_at types.old around item)) }
    ensures grows { Grows types.old types.new }
{
    match item {
        None => Ok(None),
        Some(item) => Ok(Some(in_arrays(types, around, item)?)),
    }
}
