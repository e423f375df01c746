// The canonical names of types.
ghost use Rattle.std.specs.Prelude.{◌≡◌, IfOk, string_bytes};
ghost use Rattle.std.specs.Option.{option_copied};
ghost use Rattle.decl_elements.specs.Canonical.{member_type_name, canonical_down};
ghost use Rattle.decl_elements.specs.Shown.{node_of};

use crate::Place;
use apt_base::{Name, NoMemory};
use decl_tree::Member;
use std::alloc::Global;

// The simple name of a member type, or `None` for anything else.
#[tactic(auto, unfolding(crate::specs::Canonical::member_type_name))]
fn member_type_name<'a>(place: Place<'a>) -> Option<&'a str>
    ensures { option_copied result ≡ member_type_name (node_of place.entry) }
{
    match place {
        Place::Inside(_, Member::Nested(declaration)) => Some(declaration.name.as_str()),
        _ => None,
    }
}

/// The canonical name of what stands at the end of a path below a type or a package of this name, or `None` where that is no type, or nothing (JLS 6.7). At the empty path it is the name itself.
pub fn canonical_below(
    alloc: Global,
    name: &str,
    from: Place<'_>,
    path: &[u16],
) -> Result<Option<Name>, NoMemory>
    ensures { IfOk result (λ found. found ≡ canonical_down name.now path.now (node_of from.entry)) }
{
    let mut text = String::from_str(alloc, name)?;
    let mut place = from;
    for at in path {
        let Some(child) = place.child(*at) else {
            return Ok(None);
        };
        let Some(simple) = member_type_name(child) else {
            return Ok(None);
        };
        text.push('.')?;
        text.push_str(simple)?;
        place = child;
    }
    Ok(Some(Name::from_string(alloc, text)))
}
