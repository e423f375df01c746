// What a question names.
ghost use Rattle.std.specs.Prelude.{◌≡◌, is_some, IfOk, OnOk};
ghost use Rattle.std.specs.List.{list_any};
ghost use Rattle.std.specs.Str.{bytes_eq};
ghost use Rattle.apt_base.specs.Names.{with_names};
ghost use Rattle.named_units.specs.Named.{named_units, names_of, prefixes_in, is_stub_type, with_units};
ghost use Rattle.named_units.specs.Named.{is_package, is_wide, gathers};
ghost use Rattle.child_questions.specs.NamedElements.{question_elements};
ghost use Rattle.element_table.specs.TableElements.{info_package};
ghost use Rattle.element_table.specs.TypeTable.{IsTable};

use crate::mirrors::{add_element, add_mirror, add_mirrors};
use apt_base::{ElementRef, Name, Names, NoMemory};
use element_table::{Part, Table};
use frame_forms::{ElementQuestion, NameQuestion};
use name_resolve::{Finds, Looks, longer, split};
use std::alloc::Global;
use wire_frames::Question;

// ---- names

// The look-ups of a table, of which none was made yet.
fn looks_of<'a>(alloc: Global, table: &'a Table, name: &Name) -> Looks<'a>
    ensures value { result ≡ table.now }
    ensures table { IsTable table.now }
{
    let _unit = table.find(name);
    Looks::new(alloc, table)
}

// Whether the stubs have a type of this canonical name.
#[tactic(auto, unfolding(crate::specs::Named::is_stub_type))]
fn is_stub_type(alloc: Global, table: &Table, name: &Name) -> Result<bool, NoMemory>
    ensures { IfOk result (λ there. there ≡ is_stub_type table.now name.now) }
{
    let names = split(alloc, name.as_str())?;
    let mut looks = looks_of(alloc, table, name);
    match looks.imported(Part::Stub, names.as_slice())? {
        Finds::One(_) => Ok(true),
        Finds::Nothing => Ok(false),
        Finds::Several => Ok(false),
    }
}

// Adds a text, and each prefix of it that ends before a dot.
fn add_prefixes(alloc: Global, names: &mut Names, name: &Name) -> Result<(), NoMemory>
    ensures { OnOk result (names.new ≡ with_names names.old (prefixes_in name.now)) }
{
    let parts = split(alloc, name.as_str())?;
    let Some((first, others)) = parts.as_slice().split_first() else {
        return Ok(());
    };
    let mut prefix = String::from_str(alloc, *first)?;
    names.insert(prefix.as_str())?;
    for part in others {
        prefix = longer(alloc, prefix.as_str(), *part)?;
        names.insert(prefix.as_str())?;
    }
    Ok(())
}

// Adds the units that a question about a name names.
fn add_named_units(
    alloc: Global,
    names: &mut Names,
    table: &Table,
    question: NameQuestion,
    name: &Name,
) -> Result<(), NoMemory>
    ensures { OnOk result (names.new ≡ with_names names.old (named_units table.now question name.now)) }
{
    match question {
        NameQuestion::TypeElement => {
            if is_stub_type(alloc, table, name)? {
                return Ok(());
            }
            add_prefixes(alloc, names, name)
        }
        NameQuestion::PackageElement => Ok(()),
        NameQuestion::AnnotatedWith => Ok(()),
    }
}

// Adds the units of the elements that a question names.
#[tactic(auto, unfolding(child_questions::specs::NamedElements::question_elements), using(crate::proofs::NamedUnits::adding))]
fn add_question_elements(names: &mut Names, question: &Question) -> Result<(), NoMemory>
    ensures { OnOk result (names.new ≡ with_units names.old (question_elements question.now)) }
{
    match question {
        Question::Name(_, _) => Ok(()),
        Question::Element(_, at) => add_element(names, at),
        Question::Mirror(_, mirror) => add_mirror(names, mirror),
        Question::Mirrors(_, one, other) => {
            add_mirror(names, one)?;
            add_mirror(names, other)
        }
        Question::ValuesWithDefaults { element, .. } => add_element(names, element),
        Question::Overrides {
            overrider,
            overridden,
            in_type,
        } => {
            add_element(names, overrider)?;
            add_element(names, overridden)?;
            add_element(names, in_type)
        }
        Question::MemberType { container, element } => {
            add_mirror(names, container)?;
            add_element(names, element)
        }
        Question::DeclaredType { element, arguments } => {
            add_element(names, element)?;
            add_mirrors(names, arguments.as_slice())
        }
        Question::Roots => Ok(()),
    }
}

/// Adds the units that a question names.
#[tactic(auto, unfolding(crate::specs::Named::names_of))]
pub fn add_named(
    alloc: Global,
    names: &mut Names,
    table: &Table,
    question: &Question,
) -> Result<(), NoMemory>
    ensures { OnOk result (names.new ≡ with_names names.old (names_of table.now question.now)) }
{
    match question {
        Question::Name(of, name) => add_named_units(alloc, names, table, *of, name),
        _ => add_question_elements(names, question),
    }
}

// ---- questions that reach further

// The unit of the unnamed package (JLS 7.4.2).
const UNNAMED: &str = "package-info";

// What the unit of a package has behind the package's name.
const INFO: &str = ".package-info";

// Whether a package stands under this name, if it is there.
#[tactic(auto, unfolding(element_table::specs::TableElements::info_package))]
fn is_info_name(name: &str) -> bool
    ensures { result ≡ is_some (info_package name.now) }
{
    if name == UNNAMED {
        return true;
    }
    if name == INFO {
        return false;
    }
    match name.strip_suffix(INFO) {
        None => false,
        Some(_) => true,
    }
}

// Whether a package is meant, be it there or not.
fn is_package(at: &ElementRef) -> bool
    ensures { result ≡ is_package at.now }
{
    at.path.is_empty() && is_info_name(at.unit.as_str())
}

/// Whether a question asks for a package by its name, or for the types of one.
#[tactic(auto, unfolding(crate::specs::Named::is_wide))]
pub fn is_wide(question: &Question) -> bool
    ensures { result ≡ is_wide question.now }
{
    match question {
        Question::Name(NameQuestion::PackageElement, _) => true,
        Question::Element(ElementQuestion::Enclosed, at) => is_package(at),
        _ => false,
    }
}

// Whether a name is among others.
fn is_among(names: &[Name], name: &Name) -> bool
    ensures { result ≡ list_any (bytes_eq name.now) names.now }
{
    for each in names {
        if name.as_str() == each.as_str() {
            return true;
        }
    }
    false
}

/// Whether a question asks for the roots, or for the elements of an annotation that was not offered.
#[tactic(auto, unfolding(crate::specs::Named::gathers))]
pub fn gathers(offered: &[Name], question: &Question) -> bool
    ensures { result ≡ gathers offered.now question.now }
{
    match question {
        Question::Name(NameQuestion::AnnotatedWith, name) => !is_among(offered, name),
        Question::Roots => true,
        _ => false,
    }
}
