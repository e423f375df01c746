// Names, and names that may be absent.
ghost use Rattle.std.specs.Prelude.{◌≡◌, ◌↔◌, IsTrue};

use apt_base::Name;

pub(crate) fn is_same_name(one: &Name, other: &Name) -> bool
    ensures { IsTrue result ↔ one.now ≡ other.now }
{
    one.as_str() == other.as_str()
}

pub(crate) fn are_same_names(ones: &[Name], others: &[Name]) -> bool
    ensures { IsTrue result ↔ ones.now ≡ others.now }
{
    if ones.len() != others.len() {
        return false;
    }
    for at in 0..ones.len() {
        if !is_same_name(&ones[at], &others[at]) {
            return false;
        }
    }
    true
}

/// The same doc comment, or none.
pub(crate) fn is_same_doc(one: &Option<Name>, other: &Option<Name>) -> bool
    ensures { IsTrue result ↔ one.now ≡ other.now }
{
    match one {
        None => other.is_none(),
        Some(one) => match other {
            None => false,
            Some(other) => is_same_name(one, other),
        },
    }
}
