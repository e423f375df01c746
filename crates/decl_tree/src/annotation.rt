// Annotations and their values, as they are written.
ghost use Rattle.std.specs.Prelude.{◌≡◌, IfOk};

use crate::type_text::TypeText;
use apt_base::{List, Name, NoMemory, copy_optional_name};
use std::alloc::Global;

/// An annotation as it is written (JLS 9.7): the name of its interface and its elements. A lone value has the name `value` (JLS 9.7.3).
#[cycle(annotation)]
#[derive(Drop)]
pub struct AnnotationText {
    pub name: Name,
    pub values: List<ElementValuePair>,
}

/// The name of an element and its value (JLS 9.7.1).
#[cycle(annotation)]
#[derive(Drop)]
pub struct ElementValuePair {
    pub name: Name,
    pub value: ValueText,
}

/// A constant as it is written: in an annotation, as the default of an element or as the initialiser of a field.
#[cycle(annotation)]
#[derive(Drop)]
pub enum ValueText {
    /// A literal (JLS 3.10), as its whole token.
    Literal(Name),
    /// A numeral behind a `-`, without the `-`.
    Negated(Name),
    /// Two or more literals or chains of names that `+` joins.
    Joined(List<ValueText>),
    /// A class literal (JLS 15.8.2).
    Class(TypeText),
    /// A name, or names that dots join.
    Chain(Name),
    /// Values in braces (JLS 9.7.1, 10.6).
    Array(List<ValueText>),
    /// An annotation as a value.
    Nested(AnnotationText),
    /// Any other expression, as its tokens joined by one space.
    Other(Name),
}

#[cycle(copy_annotation)]
fn copy_pairs(alloc: Global, items: &[ElementValuePair]) -> Result<List<ElementValuePair>, NoMemory>
    ensures { IfOk result (λ list. list ≡ items.now) }
{
    let mut copies = List::new(alloc);
    for each in items {
        copies.push(each.copy(alloc)?)?;
    }
    Ok(copies)
}

#[cycle(copy_annotation)]
fn copy_values(alloc: Global, items: &[ValueText]) -> Result<List<ValueText>, NoMemory>
    ensures { IfOk result (λ list. list ≡ items.now) }
{
    let mut copies = List::new(alloc);
    for each in items {
        copies.push(each.copy(alloc)?)?;
    }
    Ok(copies)
}

impl AnnotationText {
    /// An equal annotation.
    #[cycle(copy_annotation)]
    pub fn copy(&self, alloc: Global) -> Result<AnnotationText, NoMemory>
        ensures { IfOk result (λ annotation. annotation ≡ self.now) }
    {
        Ok(AnnotationText {
            name: self.name.copy()?,
            values: copy_pairs(alloc, self.values.as_slice())?,
        })
    }
}

impl ElementValuePair {
    /// An equal pair.
    #[cycle(copy_annotation)]
    pub fn copy(&self, alloc: Global) -> Result<ElementValuePair, NoMemory>
        ensures { IfOk result (λ pair. pair ≡ self.now) }
    {
        Ok(ElementValuePair {
            name: self.name.copy()?,
            value: self.value.copy(alloc)?,
        })
    }
}

impl ValueText {
    /// An equal value.
    #[cycle(copy_annotation)]
    pub fn copy(&self, alloc: Global) -> Result<ValueText, NoMemory>
        ensures { IfOk result (λ value. value ≡ self.now) }
    {
        match self {
            ValueText::Literal(text) => Ok(ValueText::Literal(text.copy()?)),
            ValueText::Negated(text) => Ok(ValueText::Negated(text.copy()?)),
            ValueText::Joined(items) => {
                Ok(ValueText::Joined(copy_values(alloc, items.as_slice())?))
            }
            ValueText::Class(of) => Ok(ValueText::Class(of.copy(alloc)?)),
            ValueText::Chain(text) => Ok(ValueText::Chain(text.copy()?)),
            ValueText::Array(items) => Ok(ValueText::Array(copy_values(alloc, items.as_slice())?)),
            ValueText::Nested(annotation) => Ok(ValueText::Nested(annotation.copy(alloc)?)),
            ValueText::Other(text) => Ok(ValueText::Other(text.copy()?)),
        }
    }
}

/// Equal annotations.
pub(crate) fn copy_annotations(
    alloc: Global,
    items: &[AnnotationText],
) -> Result<List<AnnotationText>, NoMemory>
    ensures { IfOk result (λ list. list ≡ items.now) }
{
    let mut copies = List::new(alloc);
    for each in items {
        copies.push(each.copy(alloc)?)?;
    }
    Ok(copies)
}

/// An equal value, where there is one.
pub(crate) fn copy_value(
    alloc: Global,
    value: &Option<ValueText>,
) -> Result<Option<ValueText>, NoMemory>
    ensures { IfOk result (λ copy. copy ≡ value.now) }
{
    match value {
        None => Ok(None),
        Some(value) => Ok(Some(value.copy(alloc)?)),
    }
}
