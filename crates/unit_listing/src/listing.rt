// The listing of a unit.
ghost use Rattle.std.specs.Prelude.{◌≡◌, ◌∷◌, [], IfOk};
ghost use Rattle.decl_elements.specs.Shown.{node_of, shown_element};
ghost use Rattle.element_table.specs.TableElements.{reference};
ghost use Rattle.type_texts.specs.Spelling.{IsAdded};
ghost use Rattle.unit_listing.specs.Words.{spaced};
ghost use Rattle.unit_listing.specs.Listing.{indent, is_parameter, line_of, listing, name_word, unit_listing};
ghost use Rattle.unit_listing.specs.Visits.{AddsLine};

use crate::type_words::add_type_words;
use crate::words::{add_modifiers, add_word, kind_word};
use apt_base::{ElementRef, List, Name, NoMemory};
use decl_elements::{Place, Visitor, walk};
use decl_tree::Unit;
use element_table::{Element, Table};
use std::alloc::Global;
use type_resolve::Resolver;

// ---- one line

fn element_at(alloc: Global, root: &Name, path: &[u16]) -> Result<ElementRef, NoMemory>
    ensures { IfOk result (λ at. at ≡ reference root.now path.now) }
{
    let unit = root.copy()?;
    let path = List::from_vec(Vec::from_slice(alloc, path)?);
    Ok(ElementRef { unit, path })
}

// Adds two spaces for each step of a path.
fn add_indent(text: &mut String, path: &[u16]) -> Result<(), NoMemory>
    ensures { IsAdded text.old text.new result (indent path.now) }
{
    for _step in path {
        text.push_str("  ")?;
    }
    Ok(())
}

// Adds the name of an element as a word.
fn add_name(
    alloc: Global,
    table: &Table,
    text: &mut String,
    at: &ElementRef,
    place: Place<'_>,
) -> Result<(), NoMemory>
    ensures { IsAdded text.old text.new result
        (spaced (name_word table.now at.now (node_of place.entry) ∷ [])) }
{
    match table.canonical(alloc, at)? {
        Some(name) => add_word(text, name.as_str()),
        None => add_word(text, place.simple_name()),
    }
}

// Adds the line of an element.
fn add_line(
    alloc: Global,
    resolver: &mut Resolver<'_>,
    text: &mut String,
    at: &ElementRef,
    place: Place<'_>,
) -> Result<(), NoMemory>
    ensures text { IsAdded text.old text.new result (line_of resolver.old at.now (node_of place.entry)) }
    ensures kept { resolver.new ≡ resolver.old }
{
    let element = place.element();
    add_indent(text, at.path.as_slice())?;
    text.push_str(kind_word(&element))?;
    add_modifiers(text, place.modifiers())?;
    add_name(alloc, resolver.table(), text, at, place)?;
    add_type_words(alloc, resolver, text, at, &element)?;
    text.push('\n')?;
    Ok(())
}

// ---- the lines of a unit

fn is_parameter(element: &Element<'_>) -> bool
    ensures { result ≡ is_parameter (shown_element element.now) }
{
    matches!(element, Element::Parameter(_))
}

// The lines of what was visited.
#[derive(Drop)]
struct Lister<'a> {
    alloc: Global,
    // The table, with what is remembered of it.
    resolver: Resolver<'a>,
    // The name of the unit that is walked.
    root: &'a Name,
    text: String,
}

impl<'a> Visitor for Lister<'a> {
    ghost visits = { AddsLine };

    fn visit(&mut self, path: &[u16], place: Place<'_>) -> Result<(), NoMemory> {
        if is_parameter(&place.element()) {
            return Ok(());
        }
        let at = element_at(self.alloc, self.root, path)?;
        add_line(self.alloc, &mut self.resolver, &mut self.text, &at, place)
    }
}

// The lines of the unit of this name.
fn lines(alloc: Global, table: &Table, name: &Name, unit: &Unit) -> Result<Name, NoMemory>
    ensures { IfOk result (λ text. text ≡ unit_listing table.now name.now unit.now) }
{
    let mut lister = Lister {
        alloc,
        resolver: Resolver::new(alloc, table),
        root: name,
        text: String::new(alloc),
    };
    walk(alloc, unit, &mut lister)?;
    Ok(Name::from_string(alloc, lister.text))
}

/// The listing of the unit of this name, of a source or a stub, or `None` where the table has no such unit; a
/// package is one only by its own unit `package-info`. It has a line for each element, in the order of the
/// paths, those that the language adds too (JLS 8.8.9, 8.9.2, 8.9.3) and no parameters of methods and
/// constructors: two spaces for each step of its path, its kind, its modifiers, written or implied, its name,
/// canonical for a type or a package (JLS 6.7), and the types of a field, an enum constant, a method or a
/// constructor. `NoMemory` where there is no memory for it.
#[tactic(auto, unfolding(crate::specs::Listing::listing))]
pub fn list_unit(alloc: Global, table: &Table, name: &Name) -> Result<Option<Name>, NoMemory>
    ensures { IfOk result (λ text. text ≡ listing table.now name.now) }
{
    match table.find(name) {
        None => Ok(None),
        Some(unit) => Ok(Some(lines(alloc, table, name, unit)?)),
    }
}
