// The kind of a processor.
ghost use Rattle.std.specs.Prelude.{◌≡◌, codes};
ghost use Rattle.std.specs.List.{list_any};
ghost use Rattle.std.specs.Str.{bytes_eq};
ghost use Rattle.run_entries.specs.Kinds.{names, settled_kind, is_isolating};

use apt_base::{Kind, Name};

/// The option by which a dynamic processor says that it is isolating.
pub const ISOLATING_OPTION: &str = "org.gradle.annotation.processing.isolating";

/// The option by which a dynamic processor says that it is aggregating.
pub const AGGREGATING_OPTION: &str = "org.gradle.annotation.processing.aggregating";

fn names(options: &[Name], option: &str) -> bool
    ensures { result ≡ names options.now option.now }
{
    options.iter().any(|name| option == name.as_str())
}

/// The kind that a processor has which is declared so and whose Hello has these options: a dynamic one that names
/// exactly one of `ISOLATING_OPTION` and `AGGREGATING_OPTION` has that kind, and where it names neither or both it
/// stays dynamic, which promises nothing. It takes no memory.
#[tactic(auto, unfolding(crate::specs::Kinds::settled_kind))]
pub fn settled_kind(declared: Kind, options: &[Name]) -> Kind
    ensures { result ≡ settled_kind declared options.now }
{
    match declared {
        Kind::Dynamic => {
            let isolating = names(options, ISOLATING_OPTION);
            let aggregating = names(options, AGGREGATING_OPTION);
            match (isolating, aggregating) {
                (true, false) => Kind::Isolating,
                (false, true) => Kind::Aggregating,
                _ => Kind::Dynamic,
            }
        }
        other => other,
    }
}

/// Whether it is `Isolating`.
pub(crate) fn is_isolating(kind: Kind) -> bool
    ensures { result ≡ is_isolating kind }
{
    match kind {
        Kind::Isolating => true,
        Kind::Aggregating | Kind::Dynamic | Kind::Undeclared => false,
    }
}
