// What a look-up finds.
ghost use Rattle.std.specs.Prelude.{◌≡◌, ◌↔◌, IsTrue};
ghost use Rattle.std.specs.List.{list_any};
ghost use Rattle.std.specs.Str.{bytes_eq};
ghost use Rattle.element_table.specs.UnitNames.{simple_name};
ghost use Rattle.name_resolve.specs.Finds.{Nothing, same_find, both};
ghost use Rattle.name_resolve.specs.Shown.{find_of, finds_of};

use decl_tree::{Body, Unit};
use element_table::Part;

/// A type or a type parameter that was found.
#[derive(Drop)]
pub struct Found<'a> {
    /// The part of the table in which its unit is.
    pub part: Part,
    /// The unit in which it stands.
    pub unit: &'a Unit,
    /// Its path in the unit: for each step down the number of the child, from 0.
    pub path: Vec<u16>,
}

/// What a look-up finds at a place.
#[derive(Drop)]
pub enum Finds<'a> {
    /// No element.
    Nothing,
    /// One element, once or several times.
    One(Found<'a>),
    /// Different elements, so that the name is ambiguous (JLS 6.4.1).
    Several,
}

/// The simple name of a unit's type, or `package-info`.
pub(crate) fn simple_name(body: &Body) -> &str
    ensures { result.now ≡ simple_name body.now }
{
    match body {
        Body::Declared(declaration) => declaration.name.as_str(),
        Body::Info(_, _) => "package-info",
    }
}

/// Whether both are the same element.
pub fn is_same(one: &Found<'_>, other: &Found<'_>) -> bool
    ensures { result ≡ same_find (find_of one.now) (find_of other.now) }
{
    let (first, second) = (one.unit.text(), other.unit.text());
    first.package.as_str() == second.package.as_str()
        && simple_name(&first.body) == simple_name(&second.body)
        && one.path.as_slice() == other.path.as_slice()
}

/// All that is found at one place, from two look-ups there: two different finds are ambiguous. It takes no
/// memory.
pub fn both<'a>(one: Finds<'a>, other: Finds<'a>) -> Finds<'a>
    ensures { finds_of result ≡ both (finds_of one.entry) (finds_of other.entry) }
{
    match one {
        Finds::Nothing => other,
        Finds::Several => Finds::Several,
        Finds::One(find) => match other {
            Finds::Nothing => Finds::One(find),
            Finds::Several => Finds::Several,
            Finds::One(next) => {
                if is_same(&find, &next) {
                    return Finds::One(find);
                }
                Finds::Several
            }
        },
    }
}

/// Whether nothing was found.
pub(crate) fn is_nothing(finds: &Finds<'_>) -> bool
    ensures { IsTrue result ↔ (finds_of finds.now ≡ Nothing) }
{
    matches!(finds, Finds::Nothing)
}

/// Whether a top-level type of the file has this name.
pub(crate) fn is_sibling(unit: &Unit, name: &str) -> bool
    ensures { result ≡ list_any (bytes_eq name.now) unit.now.siblings }
{
    for each in unit.text().siblings.get().as_slice() {
        if name == each.as_str() {
            return true;
        }
    }
    false
}
