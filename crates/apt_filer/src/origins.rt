// The origin of a file or a message.
ghost use Rattle.std.specs.Prelude.{◌≡◌};
ghost use Rattle.std.specs.List.{list_all};
ghost use Rattle.std.specs.Str.{bytes_eq};
ghost use Rattle.apt_base.specs.declared.element.ElementRef.{ElementRef};
ghost use Rattle.apt_filer.specs.Origins.{origin_of, shown_origin};

use apt_base::{ElementRef, List, Name};

/// Where a file or a message comes from (JSR 269, `Filer`, originating elements).
#[derive(Clone, Copy)]
pub enum Origin<'a> {
    /// All its originating elements are in this unit.
    One(&'a Name),
    /// They are in more than one unit.
    Several,
    /// It has no originating element.
    Missing,
}

// Whether all these elements are in this unit.
fn are_in(unit: &Name, origins: &List<ElementRef>) -> bool
    ensures { result ≡ list_all (λ (at : ElementRef). bytes_eq unit.now at.unit) origins.now }
{
    origins
        .as_slice()
        .iter()
        .all(|at| unit.as_str() == at.unit.as_str())
}

/// The one unit of these originating elements, or `Several` where they are in more than one, or
/// `Missing` where there are none. It takes no memory.
pub fn attribute(origins: &List<ElementRef>) -> Origin<'_>
    ensures { shown_origin result ≡ origin_of origins.now }
{
    let Some(first) = origins.get(0) else {
        return Origin::Missing;
    };
    if are_in(&first.unit, origins) {
        return Origin::One(&first.unit);
    }
    Origin::Several
}
