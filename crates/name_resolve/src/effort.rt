// What a look-up may take. A step is a child of an element whose name is compared, or a part of a look-up in a
// map.
ghost use Rattle.std.specs.Prelude.{◌≡◌};
ghost use Rattle.name_resolve.specs.Effort.{most_steps};

use call_effort::Effort;

// The steps of one look-up: some seconds at most on the machines of today, also over a table that was made to
// take long.
const MOST_STEPS: usize = 67_108_864;

/// How many steps a look-up in a map counts for.
pub(crate) const STEPS_OF_LOOK_UP: usize = 32;

/// All that one look-up may take.
pub(crate) fn effort_of_look_up() -> Effort
    ensures { result ≡ most_steps }
{
    Effort::new(MOST_STEPS)
}
