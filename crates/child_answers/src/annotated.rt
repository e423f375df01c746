// The answers on annotations and values.
ghost use Rattle.std.specs.Prelude.{◌≡◌, map, IfOk};
ghost use Rattle.std.specs.Option.{option_to_list};
ghost use Rattle.annotation_values.specs.ElementValues as elements;
ghost use Rattle.child_questions.specs.Verdicts.{Gives, Given};
ghost use Rattle.wire_frames.specs.declared.reply.Reply.TheVariants as reply;
ghost use Rattle.child_answers.specs.Replies.{unnamed, values_answer, with_value};

use crate::lists::list_of;
use annotation_values::{all_mirrors, constant_of, default_of, mirrors, values_with_defaults};
use apt_base::{ElementRef, List, Name, NoMemory};
use child_questions::QueryFault;
use element_table::Table;
use std::alloc::Global;
use type_mirror::Value;
use wire_frames::Reply;

/// The annotations that are written on an element.
pub(crate) fn annotations(
    alloc: Global,
    table: &Table,
    at: &ElementRef,
) -> Result<Reply, QueryFault>
    ensures { Gives result (Given (reply.Annotations (elements.mirrors table.now at.now))) }
{
    let list = mirrors(alloc, table, at)?;
    Ok(Reply::Annotations(list))
}

/// Those, and then the inherited ones.
pub(crate) fn all_annotations(
    alloc: Global,
    table: &Table,
    at: &ElementRef,
) -> Result<Reply, QueryFault>
    ensures { Gives result (Given (reply.Annotations (elements.all_mirrors table.now at.now))) }
{
    let list = all_mirrors(alloc, table, at)?;
    Ok(Reply::Annotations(list))
}

/// A value under the empty name, or none.
pub(crate) fn unnamed(alloc: Global, value: Option<Value>) -> Result<List<(Name, Value)>, NoMemory>
    ensures { IfOk result (λ list. list ≡ map unnamed (option_to_list value)) }
{
    match value {
        None => Ok(List::new(alloc)),
        Some(value) => {
            let name = Name::new(alloc, "")?;
            list_of(alloc, (name, value))
        }
    }
}

/// The default of a method.
pub(crate) fn default_value(
    alloc: Global,
    table: &Table,
    at: &ElementRef,
) -> Result<Reply, QueryFault>
    ensures { Gives result (with_value (elements.default_of table.now at.now)) }
{
    let value = default_of(alloc, table, at)?;
    let list = unnamed(alloc, value)?;
    Ok(Reply::Values(list))
}

/// The value of a field that is a constant.
pub(crate) fn constant_value(
    alloc: Global,
    table: &Table,
    at: &ElementRef,
) -> Result<Reply, QueryFault>
    ensures { Gives result (with_value (elements.constant_of table.now at.now)) }
{
    let value = constant_of(alloc, table, at)?;
    let list = unnamed(alloc, value)?;
    Ok(Reply::Values(list))
}

/// The values of the annotation of this number, and then the defaults of its other elements.
#[tactic(auto, unfolding(crate::specs::Replies::values_answer))]
pub(crate) fn annotation_values(
    alloc: Global,
    table: &Table,
    at: &ElementRef,
    number: u16,
) -> Result<Reply, QueryFault>
    ensures { Gives result (values_answer table.now at.now number) }
{
    match values_with_defaults(alloc, table, at, number)? {
        None => Err(QueryFault::WrongKind),
        Some(values) => Ok(Reply::Values(values)),
    }
}
