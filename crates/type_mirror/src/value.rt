// Values of annotation elements, and annotations.
ghost use Rattle.std.specs.Prelude.{◌≡◌, IfOk};

use crate::mirror::Mirror;
use apt_base::{ElementRef, List, Name, NoMemory};
use std::alloc::Global;

/// The two types of integer literals (JLS 3.10.1).
#[derive(Clone, Copy, PartialEq, Eq)]
pub enum WholeKind {
    Int,
    Long,
}

/// The value of an annotation element (JLS 9.7.1) or of a constant, as `AnnotationValue` of `javax.lang.model.element` shows it.
#[cycle(value)]
#[derive(Drop)]
pub enum Value {
    /// A boolean literal (JLS 3.10.3).
    Truth(bool),
    /// An integer literal, or one behind a `-`. What an `int` cannot hold is no value of its kind in Java, but can stand here.
    Whole(WholeKind, i64),
    /// A character literal (JLS 3.10.4) by its number.
    Character(u32),
    /// A string literal (JLS 3.10.5), or what `+` joins of such literals and of constants that are texts (JLS 15.28).
    Text(Name),
    /// A class literal (JLS 15.8.2) by its type.
    Class(Mirror),
    /// An enum constant (JLS 8.9.1) by its element.
    Constant(ElementRef),
    /// Values in braces.
    Array(List<Value>),
    /// An annotation.
    Nested(Annotation),
    /// What is none of these: its tokens with a space between each two, or the spellings of what `+` joins with ` + ` between them.
    Other(Name),
    /// A floating-point literal (JLS 3.10.2) as it was written, and a `-` before it.
    Floating(Name),
}

/// An annotation with the values that are written in it (JLS 9.7), as `AnnotationMirror` of `javax.lang.model.element` shows it.
#[cycle(value)]
#[derive(Drop)]
pub struct Annotation {
    /// `Declared` for an annotation interface, else `Error` with the name as it was written.
    pub annotation_type: Mirror,
    pub values: List<NamedValue>,
}

/// A value with the name of its element (JLS 9.7.1).
#[cycle(value)]
#[derive(Drop)]
pub struct NamedValue {
    pub name: Name,
    pub value: Value,
}

#[cycle(copy_value)]
fn copy_values(alloc: Global, items: &[Value]) -> Result<List<Value>, NoMemory>
    ensures { IfOk result (λ list. list ≡ items.now) }
{
    let mut copies = List::new(alloc);
    for each in items {
        copies.push(each.copy(alloc)?)?;
    }
    Ok(copies)
}

#[cycle(copy_value)]
fn copy_named(alloc: Global, items: &[NamedValue]) -> Result<List<NamedValue>, NoMemory>
    ensures { IfOk result (λ list. list ≡ items.now) }
{
    let mut copies = List::new(alloc);
    for each in items {
        copies.push(each.copy(alloc)?)?;
    }
    Ok(copies)
}

impl Value {
    /// An equal value.
    #[cycle(copy_value)]
    pub fn copy(&self, alloc: Global) -> Result<Value, NoMemory>
        ensures { IfOk result (λ value. value ≡ self.now) }
    {
        match self {
            Value::Truth(truth) => Ok(Value::Truth(*truth)),
            Value::Whole(kind, number) => Ok(Value::Whole(*kind, *number)),
            Value::Character(number) => Ok(Value::Character(*number)),
            Value::Text(text) => Ok(Value::Text(text.copy()?)),
            Value::Class(of) => Ok(Value::Class(of.copy(alloc)?)),
            Value::Constant(element) => Ok(Value::Constant(element.copy(alloc)?)),
            Value::Array(items) => Ok(Value::Array(copy_values(alloc, items.as_slice())?)),
            Value::Nested(annotation) => Ok(Value::Nested(annotation.copy(alloc)?)),
            Value::Other(text) => Ok(Value::Other(text.copy()?)),
            Value::Floating(text) => Ok(Value::Floating(text.copy()?)),
        }
    }
}

impl Annotation {
    /// An equal annotation.
    #[cycle(copy_value)]
    pub fn copy(&self, alloc: Global) -> Result<Annotation, NoMemory>
        ensures { IfOk result (λ annotation. annotation ≡ self.now) }
    {
        Ok(Annotation {
            annotation_type: self.annotation_type.copy(alloc)?,
            values: copy_named(alloc, self.values.as_slice())?,
        })
    }
}

impl NamedValue {
    /// An equal value with an equal name.
    #[cycle(copy_value)]
    pub fn copy(&self, alloc: Global) -> Result<NamedValue, NoMemory>
        ensures { IfOk result (λ named. named ≡ self.now) }
    {
        Ok(NamedValue {
            name: self.name.copy()?,
            value: self.value.copy(alloc)?,
        })
    }
}
