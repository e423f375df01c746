// The answers about one element, a function for each row.
ghost use Rattle.std.specs.Prelude.{◌≡◌, true, [], ◌∷◌, IfOk};
ghost use Rattle.std.specs.Option.{option_copied};
ghost use Rattle.apt_base.specs.Limits.{max_type_steps};
ghost use Rattle.element_table.specs.TableElements.{enclosing_at};
ghost use Rattle.name_resolve.specs.Mirrors as mirrors;
ghost use Rattle.type_resolve.specs.Scopes.{IsType, find_in};
ghost use Rattle.type_relations.specs.Elements as elements;
ghost use Rattle.type_relations.specs.Named as named;
ghost use Rattle.type_elements.specs.MemberElements as members;
ghost use Rattle.type_elements.specs.TypeOf as types;
ghost use Rattle.type_listing.specs.Members as listed;
ghost use Rattle.element_facts.specs.ElementFacts as facts;
ghost use Rattle.element_facts.specs.ElementInfo as infos;
ghost use Rattle.child_questions.specs.Verdicts.{Gives, value};
ghost use Rattle.child_questions.specs.WantedKinds.{is_element};
ghost use Rattle.frame_forms.specs.QuestionTable.{asked_of_element};
ghost use Rattle.child_answers.specs.Replies.{element_answer, in_reply, info_of, with_element, with_elements};
ghost use Rattle.child_answers.specs.Replies.{with_info, with_mirror, with_mirrors, with_text};

use crate::annotated::{all_annotations, annotations, constant_value, default_value};
use crate::lists::{list_of, list_of_found};
use apt_base::{ElementRef, Name, NoMemory};
use child_questions::QueryFault;
use element_facts::{ElementInfo, doc_comment, enclosed_elements, info, package_of};
use element_table::Table;
use frame_forms::ElementQuestion;
use std::alloc::Global;
use type_elements::{enclosed, type_of_element};
use type_relations::{bounds, type_parameters};
use type_resolve::{interfaces, superclass};
use wire_frames::{Info, Reply};

// ---- what it is

fn info_of(info: ElementInfo) -> Info
    ensures { result ≡ info_of info }
{
    Info {
        kind: info.kind,
        modifiers: info.modifiers,
        simple: info.simple,
        canonical: info.canonical,
        varargs: info.varargs,
    }
}

fn element_info(alloc: Global, table: &Table, at: &ElementRef) -> Result<Reply, QueryFault>
    ensures { Gives result (with_info (infos.info_at table.now at.now)) }
{
    match info(alloc, table, at)? {
        None => Err(QueryFault::NoSuch),
        Some(info) => Ok(Reply::Info(info_of(info))),
    }
}

// ---- around and inside

fn enclosing(alloc: Global, table: &Table, at: &ElementRef) -> Result<Reply, QueryFault>
    ensures { Gives result (with_element (enclosing_at table.now at.now)) }
{
    let around = table.enclosing(alloc, at)?;
    let list = list_of_found(alloc, around)?;
    Ok(Reply::Elements(list))
}

fn enclosed_by(alloc: Global, table: &Table, at: &ElementRef) -> Result<Reply, QueryFault>
    ensures { Gives result (with_elements (facts.enclosed_at table.now at.now)) }
{
    let list = enclosed_elements(alloc, table, at)?;
    Ok(Reply::Elements(list))
}

fn type_parameters_of(alloc: Global, table: &Table, at: &ElementRef) -> Result<Reply, QueryFault>
    ensures { Gives result (with_elements (elements.type_parameters table.now at.now)) }
{
    let list = type_parameters(alloc, table, at)?;
    Ok(Reply::Elements(list))
}

fn parameters_of(alloc: Global, table: &Table, at: &ElementRef) -> Result<Reply, QueryFault>
    ensures { Gives result (with_elements (members.enclosed table.now at.now)) }
{
    let list = enclosed(alloc, table, at)?;
    Ok(Reply::Elements(list))
}

fn package_around(alloc: Global, table: &Table, at: &ElementRef) -> Result<Reply, QueryFault>
    ensures { Gives result (with_elements (facts.package_at table.now at.now ∷ [])) }
{
    let around = package_of(alloc, table, at)?;
    let list = list_of(alloc, around)?;
    Ok(Reply::Elements(list))
}

fn members_of(alloc: Global, table: &Table, at: &ElementRef) -> Result<Reply, QueryFault>
    ensures { Gives result (in_reply with_elements (value (listed.members table.now max_type_steps at.now))) }
{
    match type_listing::all_members(alloc, table, at)? {
        None => Err(QueryFault::TooDeep),
        Some(list) => Ok(Reply::Elements(list)),
    }
}

// ---- its comment

fn copied_text(text: Option<&Name>) -> Result<Option<Name>, NoMemory>
    ensures { IfOk result (λ copy. copy ≡ option_copied text.entry) }
{
    match text {
        None => Ok(None),
        Some(text) => Ok(Some(text.copy()?)),
    }
}

fn comment(alloc: Global, table: &Table, at: &ElementRef) -> Result<Reply, QueryFault>
    ensures { Gives result (with_text (facts.doc_at table.now at.now)) }
{
    let text = copied_text(doc_comment(table, at))?;
    let list = list_of_found(alloc, text)?;
    Ok(Reply::Texts(list))
}

// ---- its types

fn type_of(alloc: Global, table: &Table, at: &ElementRef) -> Result<Reply, QueryFault>
    ensures { Gives result (with_mirror (types.type_of table.now at.now)) }
{
    let mirror = type_of_element(alloc, table, at)?;
    let list = list_of(alloc, mirror)?;
    Ok(Reply::Mirrors(list))
}

fn superclass_of(alloc: Global, table: &Table, at: &ElementRef) -> Result<Reply, QueryFault>
    requires { IsType table.now at.now }
    ensures { Gives result (with_mirror (mirrors.superclass table.now (find_in table.now at.now))) }
{
    let mirror = superclass(alloc, table, at)?;
    let list = list_of(alloc, mirror)?;
    Ok(Reply::Mirrors(list))
}

fn interfaces_of(alloc: Global, table: &Table, at: &ElementRef) -> Result<Reply, QueryFault>
    requires { IsType table.now at.now }
    ensures { Gives result (with_mirrors (mirrors.interfaces table.now (find_in table.now at.now))) }
{
    let list = interfaces(alloc, table, at)?;
    Ok(Reply::Mirrors(list))
}

fn bounds_of(alloc: Global, table: &Table, at: &ElementRef) -> Result<Reply, QueryFault>
    ensures { Gives result (with_mirrors (named.bounds table.now at.now)) }
{
    let list = bounds(alloc, table, at)?;
    Ok(Reply::Mirrors(list))
}

// ---- all of them

/// The answer to a question about an element that is of the kind that its row wants.
#[tactic(auto, unfolding(crate::specs::Replies::element_answer), using(crate::proofs::TypesOfKind::kinds))]
pub(crate) fn about_element(
    alloc: Global,
    table: &Table,
    question: ElementQuestion,
    at: &ElementRef,
) -> Result<Reply, QueryFault>
    requires { is_element table.now (asked_of_element question).wanted at.now ≡ true }
    ensures { Gives result (element_answer table.now question at.now) }
{
    match question {
        ElementQuestion::Info => element_info(alloc, table, at),
        ElementQuestion::Enclosing => enclosing(alloc, table, at),
        ElementQuestion::Enclosed => enclosed_by(alloc, table, at),
        ElementQuestion::TypeParameters => type_parameters_of(alloc, table, at),
        ElementQuestion::Parameters => parameters_of(alloc, table, at),
        ElementQuestion::PackageOf => package_around(alloc, table, at),
        ElementQuestion::DocComment => comment(alloc, table, at),
        ElementQuestion::Annotations => annotations(alloc, table, at),
        ElementQuestion::AllAnnotations => all_annotations(alloc, table, at),
        ElementQuestion::DefaultValue => default_value(alloc, table, at),
        ElementQuestion::ConstantValue => constant_value(alloc, table, at),
        ElementQuestion::AllMembers => members_of(alloc, table, at),
        ElementQuestion::TypeOf => type_of(alloc, table, at),
        ElementQuestion::Superclass => superclass_of(alloc, table, at),
        ElementQuestion::Interfaces => interfaces_of(alloc, table, at),
        ElementQuestion::Bounds => bounds_of(alloc, table, at),
    }
}
