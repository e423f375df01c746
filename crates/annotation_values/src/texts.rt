// Parts of constant forms, as they are written.
ghost use Rattle.std.specs.Prelude.{◌≡◌, codes, IfOk};
ghost use Rattle.std.specs.List.{join_by};
ghost use Rattle.std.specs.Option.{option_copied};
ghost use Rattle.decl_tree.specs.declared.annotation.ValueText.{out-ValueText};
ghost use Rattle.decl_elements.specs.Modifiers.{has, is_final, modifiers};
ghost use Rattle.decl_elements.specs.Shown.{node_of};
ghost use Rattle.name_resolve.specs.Shown.{find_of};
ghost use Rattle.annotation_values.specs.Values.{chain_in, is_enum_constant, initialiser};
ghost use Rattle.annotation_values.specs.Remembered.{initialiser_at, joinable_text};

use apt_base::{Name, NoMemory};
use decl_elements::{Place, place_at};
use decl_tree::{ElementValuePair, Member, ValueText};
use name_resolve::Found;
use std::alloc::Global;

const FINAL: u16 = 64;

// ---- names

#[cycle(chains)]
fn add_names<'t>(names: &mut Vec<&'t Name>, form: &'t ValueText) -> Result<(), NoMemory> {
    match form {
        ValueText::Chain(name) => {
            names.push(name)?;
            Ok(())
        }
        ValueText::Joined(items) => add_all(names, items.as_slice()),
        ValueText::Array(items) => add_all(names, items.as_slice()),
        ValueText::Nested(annotation) => add_pairs(names, annotation.values.as_slice()),
        ValueText::Literal(_) => Ok(()),
        ValueText::Negated(_) => Ok(()),
        ValueText::Class(_) => Ok(()),
        ValueText::Other(_) => Ok(()),
    }
}

#[cycle(chains)]
fn add_all<'t>(names: &mut Vec<&'t Name>, forms: &'t [ValueText]) -> Result<(), NoMemory> {
    for form in forms {
        add_names(names, form)?;
    }
    Ok(())
}

#[cycle(chains)]
fn add_pairs<'t>(names: &mut Vec<&'t Name>, pairs: &'t [ElementValuePair]) -> Result<(), NoMemory> {
    for pair in pairs {
        add_names(names, &pair.value)?;
    }
    Ok(())
}

/// The names that stand in a constant form as values.
pub(crate) fn names_in<'t>(alloc: Global, form: &'t ValueText) -> Result<Vec<&'t Name>, NoMemory> {
    let mut names = Vec::new(alloc);
    add_names(&mut names, form)?;
    Ok(names)
}

/// The name that a constant form is as a whole.
pub(crate) fn chain_in(form: &ValueText) -> Option<&Name>
    ensures { option_copied result ≡ chain_in (out-ValueText form.now) }
{
    match form {
        ValueText::Chain(name) => Some(name),
        _ => None,
    }
}

// ---- joined texts

// The text of a literal or a name.
fn joinable_text(form: &ValueText) -> &str
    ensures { result.now ≡ joinable_text (out-ValueText form.now) }
{
    match form {
        ValueText::Literal(text) => text.as_str(),
        ValueText::Chain(text) => text.as_str(),
        _ => "",
    }
}

/// What is written of joined forms, with ` + ` between any two.
pub(crate) fn sum_text(alloc: Global, forms: &[ValueText]) -> Result<Name, NoMemory>
    ensures { IfOk result (λ text. text
        ≡ join_by (λ form. joinable_text (out-ValueText form)) (codes " + ") forms.now) }
{
    let Some((first, others)) = forms.split_first() else {
        return Name::new(alloc, "");
    };
    let mut text = String::from_str(alloc, joinable_text(first))?;
    for form in others {
        text.push_str(" + ")?;
        text.push_str(joinable_text(form))?;
    }
    Ok(Name::from_string(alloc, text))
}

// ---- fields and enum constants

pub(crate) fn is_enum_constant(place: Place<'_>) -> bool
    ensures { result ≡ is_enum_constant (node_of place.entry) }
{
    match place {
        Place::Inside(_, Member::Constant(_)) => true,
        _ => false,
    }
}

/// Whether it is final, as written or implied.
pub(crate) fn is_final(place: Place<'_>) -> bool
    ensures { result ≡ has is_final (modifiers (node_of place.entry)) }
{
    place.modifiers() & FINAL != 0
}

/// The initialiser of a final field, where it is a constant form.
pub(crate) fn initialiser<'a>(place: Place<'a>) -> Option<&'a ValueText>
    ensures { option_copied result ≡ initialiser (node_of place.entry) }
{
    if !is_final(place) {
        return None;
    }
    match place.field() {
        None => None,
        Some(field) => field.constant.as_ref(),
    }
}

/// The same of what was found.
#[tactic(auto, unfolding(name_resolve::specs::Ways::node_at))]
pub(crate) fn initialiser_at<'a>(at: &Found<'a>) -> Option<&'a ValueText>
    ensures { option_copied result ≡ initialiser_at (find_of at.now) }
{
    match place_at(at.unit, at.path.as_slice()) {
        None => None,
        Some(place) => initialiser(place),
    }
}
