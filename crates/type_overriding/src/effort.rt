// What comparing signatures takes.
ghost use Rattle.std.specs.Prelude.{◌≡◌};
ghost use Rattle.type_numbers.specs.Numbers.{IsKnown};
ghost use Rattle.type_overriding.specs.Effort.{most_steps};

use call_effort::Effort;
use type_numbers::Types;

// How many steps there are, and how many of them it takes to look up a name.
const MOST_STEPS: usize = 1_048_576;

const OF_NAME: usize = 64;

/// All that the comparisons of one call may take.
pub fn effort_of_comparisons() -> Effort
    ensures { result ≡ most_steps }
{
    Effort::new(MOST_STEPS)
}

/// How many steps it takes to compare a signature with the type that has this number: three, and one for each layer of it, of which each different one counts once.
pub(crate) fn steps_of(types: &Types, number: usize) -> usize
    requires { IsKnown types.now number }
{
    let layers = types.layers(number) as usize;
    layers.min(number).saturating_add(3)
}

/// How many steps it took to look up the names in a method whose type has this number: those of a name for each layer but the method itself and a result without names.
pub(crate) fn steps_of_names(types: &Types, number: usize) -> usize
    requires { IsKnown types.now number }
{
    let layers = types.layers(number) as usize;
    layers.min(number).saturating_sub(2).saturating_mul(OF_NAME)
}

/// How many steps a search over supertypes took that went over this many types, some of which it looked up.
pub(crate) fn steps_of_search(before: usize, after: usize) -> usize {
    let looked_up = after.saturating_sub(before).saturating_mul(OF_NAME);
    after.saturating_mul(2).saturating_add(looked_up)
}
