// Subtypes and contained type arguments within 64 steps.
ghost use Rattle.std.specs.Prelude.{◌≡◌, IfOk};
ghost use Rattle.apt_base.specs.Limits.{max_type_steps};
ghost use Rattle.type_subtypes.specs.Assignable as assigning;
ghost use Rattle.type_subtypes.specs.Subtypes as subtypes;

use crate::raw::RawTypes;
use crate::relation::Subtypes;
use apt_base::NoMemory;
use element_table::Table;
use std::alloc::Global;
use type_levels::{Answer, Pair, Question, related};
use type_mirror::Mirror;
use type_numbers::Types;

/// Whether the first type is a subtype of the second one (JLS 4.10) within 64 steps, each of which goes to a direct supertype or into a type argument; open where these do not suffice.
///
/// It is out of memory too where the questions of the search would name more than 65,536 arguments and supertypes.
pub fn subtype(alloc: Global, table: &Table, a: &Mirror, b: &Mirror) -> Result<Answer, NoMemory>
    ensures { IfOk result (λ r. r ≡ subtypes.subtype table.now max_type_steps a.now b.now) }
{
    let mut types = Types::new(alloc);
    let sub = types.add(a)?;
    let sup = types.add(b)?;
    let relation = Subtypes { alloc, table };
    let answer = related(alloc, &relation, &mut types, Pair { sub, sup })?;
    Ok(answer)
}

/// Whether the first type argument contains the second one (JLS 4.5.1), where the one question on subtypes that this asks has 64 steps; open where these do not suffice. Out of memory comes as in `subtype`.
pub fn contained(alloc: Global, table: &Table, a: &Mirror, b: &Mirror) -> Result<Answer, NoMemory>
    ensures { IfOk result (λ r. r ≡ subtypes.contained table.now max_type_steps a.now b.now) }
{
    let mut types = Types::new(alloc);
    let one = types.add(a)?;
    let other = types.add(b)?;
    let relation = Subtypes { alloc, table };
    match relation.contains(&types, one, other) {
        Question::Settled(answer) => Ok(answer),
        Question::Asks(pair) => {
            let answer = related(alloc, &relation, &mut types, pair)?;
            Ok(answer)
        }
    }
}

/// Whether the first type reaches the second one, a raw type, by direct supertypes within 64 steps; no for a second type that is not raw.
pub(crate) fn reaches_raw(
    alloc: Global,
    table: &Table,
    a: &Mirror,
    b: &Mirror,
) -> Result<Answer, NoMemory>
    ensures { IfOk result (λ r. r ≡ assigning.reaches_raw table.now max_type_steps a.now b.now) }
{
    let mut types = Types::new(alloc);
    let sub = types.add(a)?;
    let sup = types.add(b)?;
    let relation = RawTypes { alloc, table };
    let answer = related(alloc, &relation, &mut types, Pair { sub, sup })?;
    Ok(answer)
}
