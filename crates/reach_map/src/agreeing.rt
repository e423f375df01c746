// Whether two tables agree on names.
ghost use Rattle.std.specs.Prelude.{◌≡◌, ◌↔◌, IsTrue};
ghost use Rattle.std.specs.Option.{option_copied};
ghost use Rattle.std.specs.FinMap as fin;
ghost use Rattle.reach_map.specs.Agree.{HaveSameShape, AgreeOn, Agree, HaveSameSources, ShareReaches};

use crate::reaching::source;
use apt_base::{List, Name};
use decl_tree::Unit;
use element_table::Table;
use unit_equality::is_equal;

fn have_same_shape(one: Option<&Unit>, other: Option<&Unit>) -> bool
    ensures shapes { IsTrue result ↔ HaveSameShape (option_copied one.entry) (option_copied other.entry) }
    ensures same { IsTrue result → option_copied one.entry ≡ option_copied other.entry }
{
    match one {
        None => other.is_none(),
        Some(one) => match other {
            None => false,
            Some(other) => is_equal(one, other),
        },
    }
}

fn agree_on(one: &Table, other: &Table, name: &Name) -> bool
    ensures shapes { IsTrue result ↔ AgreeOn one.now other.now name.now }
    ensures same { IsTrue result → fin.get one.now.source name.now ≡ fin.get other.now.source name.now }
{
    have_same_shape(source(one, name), source(other, name))
}

fn all_agree(one: &Table, other: &Table, names: &[Name]) -> bool
    ensures value { IsTrue result ↔ Agree one.now other.now names.now }
    ensures same { IsTrue result → HaveSameSources one.now other.now names.now }
{
    for name in names {
        if !agree_on(one, other, name) {
            return false;
        }
    }
    true
}

/// Whether both tables have the same source units under these names: each of the names is a source unit with the same shape in both, or a source unit in neither. Stubs play no part. It takes no memory, and as its time a look-up in both tables for each name and a step for each part that both units have at the same place.
///
/// Where they do, and the names hold all of a unit's reach over the first table, that is its reach over the second one too, with the same source units in it.
pub fn agrees(one: &Table, other: &Table, names: &List<Name>) -> bool
    ensures value { IsTrue result ↔ Agree one.now other.now names.now }
    ensures law { IsTrue result → ShareReaches one.now other.now names.now }
{
    all_agree(one, other, names.as_slice())
}
