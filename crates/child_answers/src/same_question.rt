// Whether two questions are the same.
ghost use Rattle.std.specs.Prelude.{◌≡◌, ◌↔◌, IsTrue};
ghost use Rattle.wire_frames.specs.declared.question.Question.TheVariants as questions;

use apt_base::{ElementRef, Name};
use frame_forms::{ElementQuestion, MirrorQuestion, MirrorsQuestion, NameQuestion};
use type_layers::is_equal;
use type_mirror::Mirror;
use wire_frames::Question;

// ---- rows

fn is_same_of_name(one: NameQuestion, other: NameQuestion) -> bool
    ensures { IsTrue result ↔ one ≡ other }
{
    one == other
}

fn is_same_of_element(one: ElementQuestion, other: ElementQuestion) -> bool
    ensures { IsTrue result ↔ one ≡ other }
{
    one == other
}

fn is_same_of_mirror(one: MirrorQuestion, other: MirrorQuestion) -> bool
    ensures { IsTrue result ↔ one ≡ other }
{
    one == other
}

fn is_same_of_mirrors(one: MirrorsQuestion, other: MirrorsQuestion) -> bool
    ensures { IsTrue result ↔ one ≡ other }
{
    one == other
}

// ---- arguments

fn is_same_name(one: &Name, other: &Name) -> bool
    ensures { IsTrue result ↔ one.now ≡ other.now }
{
    one.as_str() == other.as_str()
}

/// Whether two lists have the same names in the same order. It takes no memory.
pub(crate) fn are_same_names(ones: &[Name], others: &[Name]) -> bool
    ensures { IsTrue result ↔ ones.now ≡ others.now }
{
    if ones.len() != others.len() {
        return false;
    }
    for at in 0..ones.len() {
        if !is_same_name(&ones[at], &others[at]) {
            return false;
        }
    }
    true
}

fn are_same_mirrors(ones: &[Mirror], others: &[Mirror]) -> bool
    ensures { IsTrue result ↔ ones.now ≡ others.now }
{
    if ones.len() != others.len() {
        return false;
    }
    for at in 0..ones.len() {
        if !is_equal(&ones[at], &others[at]) {
            return false;
        }
    }
    true
}

// ---- whether a question is of a row, with these arguments

fn is_name_question(question: &Question, of: NameQuestion, name: &Name) -> bool
    ensures { IsTrue result ↔ question.now ≡ questions.Name of name.now }
{
    match question {
        Question::Name(row, other) => is_same_of_name(*row, of) && is_same_name(other, name),
        _ => false,
    }
}

fn is_element_question(question: &Question, of: ElementQuestion, at: &ElementRef) -> bool
    ensures { IsTrue result ↔ question.now ≡ questions.Element of at.now }
{
    match question {
        Question::Element(row, other) => is_same_of_element(*row, of) && other.is_equal(at),
        _ => false,
    }
}

fn is_mirror_question(question: &Question, of: MirrorQuestion, mirror: &Mirror) -> bool
    ensures { IsTrue result ↔ question.now ≡ questions.Mirror of mirror.now }
{
    match question {
        Question::Mirror(row, other) => is_same_of_mirror(*row, of) && is_equal(other, mirror),
        _ => false,
    }
}

fn is_mirrors_question(
    question: &Question,
    of: MirrorsQuestion,
    one: &Mirror,
    other: &Mirror,
) -> bool
    ensures { IsTrue result ↔ question.now ≡ questions.Mirrors of one.now other.now }
{
    match question {
        Question::Mirrors(row, first, second) => {
            is_same_of_mirrors(*row, of) && is_equal(first, one) && is_equal(second, other)
        }
        _ => false,
    }
}

fn is_values_question(question: &Question, at: &ElementRef, number: u16) -> bool
    ensures { IsTrue result ↔ question.now ≡ questions.ValuesWithDefaults at.now number }
{
    match question {
        Question::ValuesWithDefaults {
            element,
            annotation,
        } => *annotation == number && element.is_equal(at),
        _ => false,
    }
}

fn is_overrides_question(
    question: &Question,
    one: &ElementRef,
    other: &ElementRef,
    within: &ElementRef,
) -> bool
    ensures { IsTrue result ↔ question.now ≡ questions.Overrides one.now other.now within.now }
{
    match question {
        Question::Overrides {
            overrider,
            overridden,
            in_type,
        } => overrider.is_equal(one) && overridden.is_equal(other) && in_type.is_equal(within),
        _ => false,
    }
}

fn is_member_question(question: &Question, of: &Mirror, at: &ElementRef) -> bool
    ensures { IsTrue result ↔ question.now ≡ questions.MemberType of.now at.now }
{
    match question {
        Question::MemberType { container, element } => {
            element.is_equal(at) && is_equal(container, of)
        }
        _ => false,
    }
}

fn is_declared_question(question: &Question, at: &ElementRef, of: &[Mirror]) -> bool
    ensures { IsTrue result ↔ question.now ≡ questions.DeclaredType at.now of.now }
{
    match question {
        Question::DeclaredType { element, arguments } => {
            element.is_equal(at) && are_same_mirrors(arguments.as_slice(), of)
        }
        _ => false,
    }
}

/// Whether two questions are the same: of one row, with equal arguments. It takes no memory.
pub(crate) fn is_same_question(one: &Question, other: &Question) -> bool
    ensures { IsTrue result ↔ one.now ≡ other.now }
{
    match other {
        Question::Name(of, name) => is_name_question(one, *of, name),
        Question::Element(of, at) => is_element_question(one, *of, at),
        Question::Mirror(of, mirror) => is_mirror_question(one, *of, mirror),
        Question::Mirrors(of, first, second) => is_mirrors_question(one, *of, first, second),
        Question::ValuesWithDefaults {
            element,
            annotation,
        } => is_values_question(one, element, *annotation),
        Question::Overrides {
            overrider,
            overridden,
            in_type,
        } => is_overrides_question(one, overrider, overridden, in_type),
        Question::MemberType { container, element } => is_member_question(one, container, element),
        Question::DeclaredType { element, arguments } => {
            is_declared_question(one, element, arguments.as_slice())
        }
        Question::Roots => matches!(one, Question::Roots),
    }
}
