// Raw types (JLS 4.8).
ghost use Rattle.std.specs.Prelude.{◌≡◌};
ghost use Rattle.type_numbers.specs.Numbers.{at, IsKnown};
ghost use Rattle.type_relations.specs.RawTypes as relations;
ghost use Rattle.type_steps.specs.Supertypes.{is_raw_at};

use apt_base::ElementRef;
use element_table::Table;
use type_numbers::{Node, Types};
use type_relations::has_type_parameters;

/// Whether a class type of an element with these arguments is raw.
pub(crate) fn is_raw_with(table: &Table, element: &ElementRef, arguments: &[usize]) -> bool
    ensures { result ≡ is_raw_at table.now element.now arguments.now }
{
    match arguments {
        [] => has_type_parameters(table, element),
        [_, ..] => false,
    }
}

/// Whether the type with this number is raw: a class type without arguments whose element has type parameters (JLS 4.8).
pub fn is_raw(table: &Table, types: &Types, number: usize) -> bool
    requires { IsKnown types.now number }
    ensures { result ≡ relations.is_raw table.now (at types.now number) }
{
    match types.node(number) {
        Node::Declared(element, _, arguments) => is_raw_with(table, element, arguments.as_slice()),
        _ => false,
    }
}
