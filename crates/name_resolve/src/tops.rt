// Top-level types.
ghost use Rattle.std.specs.Prelude.{◌≡◌, IfOk};
ghost use Rattle.name_resolve.specs.Meaning.{top_of, met_from, tops_of};
ghost use Rattle.name_resolve.specs.Shown.{finds_of};

use crate::finds::{Finds, Found};
use apt_base::{Name, NoMemory};
use decl_tree::{Body, Unit};
use element_table::{Part, Table};
use std::alloc::Global;

fn top_of<'a>(alloc: Global, part: Part, unit: &'a Unit) -> Finds<'a>
    ensures { finds_of result ≡ top_of part unit.now unit.now.body }
{
    match &unit.text().body {
        Body::Declared(_) => Finds::One(Found {
            part,
            unit,
            path: Vec::new(alloc),
        }),
        Body::Info(_, _) => Finds::Nothing,
    }
}

// What a unit of a part meets of a unit that stands in a part.
fn met_from<'a>(alloc: Global, part: Part, at: Part, unit: &'a Unit) -> Finds<'a>
    ensures { finds_of result ≡ met_from part at unit.now }
{
    match part {
        Part::Source => top_of(alloc, at, unit),
        Part::Stub => match at {
            Part::Source => Finds::Nothing,
            Part::Stub => top_of(alloc, Part::Stub, unit),
        },
    }
}

/// The top-level type of this canonical name that a unit of a part meets: from a source unit those of both
/// parts, from a stub those of the stubs alone. It takes no memory.
#[tactic(auto, using(crate::proofs::TopTypes::meets, crate::proofs::TopTypes::meets_none, crate::proofs::TopTypes::meets_lost))]
pub fn top_level<'a>(alloc: Global, table: &'a Table, part: Part, name: &Name) -> Finds<'a>
    ensures { finds_of result ≡ tops_of table.now part name.now }
{
    let Some(at) = table.part(name) else {
        return Finds::Nothing;
    };
    match table.find(name) {
        None => Finds::Nothing,
        Some(unit) => met_from(alloc, part, at, unit),
    }
}

/// The same by a name that is a text.
pub(crate) fn top_named<'a>(
    alloc: Global,
    table: &'a Table,
    part: Part,
    name: &str,
) -> Result<Finds<'a>, NoMemory>
    ensures { IfOk result (λ f. finds_of f ≡ tops_of table.now part name.now) }
{
    let name = Name::new(alloc, name)?;
    Ok(top_level(alloc, table, part, &name))
}
