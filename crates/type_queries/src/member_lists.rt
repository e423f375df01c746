// The question on the members of a type.
ghost use Rattle.type_queries.specs.MemberLists.{members_question};
ghost use Rattle.type_queries.specs.Verdicts.{Gives};

use crate::fault::QueryFault;
use apt_base::{ElementRef, List};
use element_table::Table;
use std::alloc::Global;
use type_relations::is_there;
use type_resolve::is_type;

/// The members of a type (JLS 8.2, 9.2), as `getAllMembers` of `javax.lang.model.util.Elements` lists them: its own, then those of its superclass and of its interfaces in order that it inherits, and that none in front of them hides or overrides (JLS 8.3, 8.4.8, 8.5), each once. Constructors and private members are not inherited, nor is what has package access outside of its package. `NoSuch` where nothing stands there, `WrongKind` for what is no type, and `TooDeep` where the supertypes go on behind 64 levels, or a question on hiding or overriding has no answer within 64 steps.
#[tactic(auto, using(crate::proofs::ListedMembers::listings))]
pub fn all_members(
    alloc: Global,
    table: &Table,
    at: &ElementRef,
) -> Result<List<ElementRef>, QueryFault>
    ensures { Gives result (members_question table.now at.now) }
{
    if !is_there(table, at) {
        return Err(QueryFault::NoSuch);
    }
    if !is_type(table, at) {
        return Err(QueryFault::WrongKind);
    }
    match type_listing::all_members(alloc, table, at)? {
        None => Err(QueryFault::TooDeep),
        Some(list) => Ok(list),
    }
}
