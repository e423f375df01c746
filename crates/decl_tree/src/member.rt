// Members, parameters and type parameters.
ghost use Rattle.std.specs.Prelude.{◌≡◌, IfOk};

use crate::annotation::{AnnotationText, ValueText, copy_annotations, copy_value};
use crate::type_text::{TypeText, copy_types};
use apt_base::{List, Name, NoMemory, copy_optional_name};
use std::alloc::Global;

/// A type parameter (JLS 8.1.2). Without written bounds its list is empty.
#[derive(Drop)]
pub struct TypeParam {
    pub name: Name,
    pub annotations: List<AnnotationText>,
    /// The types behind `extends`, in their order.
    pub bounds: List<TypeText>,
}

/// A formal parameter (JLS 8.4.1). The last one of a method of variable arity has an array type.
#[derive(Drop)]
pub struct Param {
    pub name: Name,
    /// The written modifiers, a bit each, as in `TypeDecl`.
    pub modifiers: u16,
    pub annotations: List<AnnotationText>,
    /// Its type.
    pub of: TypeText,
}

/// A field (JLS 8.3, 9.3).
#[derive(Drop)]
pub struct FieldDecl {
    pub name: Name,
    /// The written modifiers, a bit each, as in `TypeDecl`.
    pub modifiers: u16,
    pub annotations: List<AnnotationText>,
    /// The text of the doc comment, where there is one.
    pub doc: Option<Name>,
    /// Its type.
    pub of: TypeText,
    /// The initialiser, where it is wholly a constant form.
    pub constant: Option<ValueText>,
}

/// A method (JLS 8.4, 9.4), or an element of an annotation interface (JLS 9.6.1).
#[derive(Drop)]
pub struct MethodDecl {
    pub name: Name,
    /// The written modifiers, a bit each, as in `TypeDecl`.
    pub modifiers: u16,
    pub annotations: List<AnnotationText>,
    /// The text of the doc comment, where there is one.
    pub doc: Option<Name>,
    /// The type parameters (JLS 8.4.4).
    pub parameters: List<TypeParam>,
    /// The type of the result, `void` included (JLS 8.4.5).
    pub result: TypeText,
    /// The formal parameters (JLS 8.4.1).
    pub arguments: List<Param>,
    /// Whether the last formal parameter takes any number of arguments.
    pub varargs: bool,
    /// The types of the `throws` clause (JLS 8.4.6).
    pub thrown: List<TypeText>,
    /// The default of an element (JLS 9.6.2).
    pub default: Option<ValueText>,
}

/// A constructor (JLS 8.8).
#[derive(Drop)]
pub struct ConstructorDecl {
    /// The written modifiers, a bit each, as in `TypeDecl`.
    pub modifiers: u16,
    pub annotations: List<AnnotationText>,
    /// The text of the doc comment, where there is one.
    pub doc: Option<Name>,
    /// The type parameters (JLS 8.8.4).
    pub parameters: List<TypeParam>,
    /// The formal parameters (JLS 8.8.1).
    pub arguments: List<Param>,
    /// Whether the last formal parameter takes any number of arguments.
    pub varargs: bool,
    /// The types of the `throws` clause (JLS 8.8.5).
    pub thrown: List<TypeText>,
}

/// An enum constant (JLS 8.9.1).
#[derive(Drop)]
pub struct ConstantDecl {
    pub name: Name,
    pub annotations: List<AnnotationText>,
    /// The text of the doc comment, where there is one.
    pub doc: Option<Name>,
    /// Whether it has a class body.
    pub body: bool,
}

/// Equal type parameters.
pub(crate) fn copy_type_params(
    alloc: Global,
    items: &[TypeParam],
) -> Result<List<TypeParam>, NoMemory>
    ensures { IfOk result (λ list. list ≡ items.now) }
{
    let mut copies = List::new(alloc);
    for each in items {
        copies.push(each.copy(alloc)?)?;
    }
    Ok(copies)
}

fn copy_params(alloc: Global, items: &[Param]) -> Result<List<Param>, NoMemory>
    ensures { IfOk result (λ list. list ≡ items.now) }
{
    let mut copies = List::new(alloc);
    for each in items {
        copies.push(each.copy(alloc)?)?;
    }
    Ok(copies)
}

impl TypeParam {
    /// An equal type parameter.
    pub fn copy(&self, alloc: Global) -> Result<TypeParam, NoMemory>
        ensures { IfOk result (λ parameter. parameter ≡ self.now) }
    {
        Ok(TypeParam {
            name: self.name.copy()?,
            annotations: copy_annotations(alloc, self.annotations.as_slice())?,
            bounds: copy_types(alloc, self.bounds.as_slice())?,
        })
    }
}

impl Param {
    /// An equal parameter.
    pub fn copy(&self, alloc: Global) -> Result<Param, NoMemory>
        ensures { IfOk result (λ parameter. parameter ≡ self.now) }
    {
        Ok(Param {
            name: self.name.copy()?,
            modifiers: self.modifiers,
            annotations: copy_annotations(alloc, self.annotations.as_slice())?,
            of: self.of.copy(alloc)?,
        })
    }
}

impl FieldDecl {
    /// An equal field.
    pub fn copy(&self, alloc: Global) -> Result<FieldDecl, NoMemory>
        ensures { IfOk result (λ field. field ≡ self.now) }
    {
        Ok(FieldDecl {
            name: self.name.copy()?,
            modifiers: self.modifiers,
            annotations: copy_annotations(alloc, self.annotations.as_slice())?,
            doc: copy_optional_name(&self.doc)?,
            of: self.of.copy(alloc)?,
            constant: copy_value(alloc, &self.constant)?,
        })
    }
}

impl MethodDecl {
    /// An equal method.
    pub fn copy(&self, alloc: Global) -> Result<MethodDecl, NoMemory>
        ensures { IfOk result (λ method. method ≡ self.now) }
    {
        Ok(MethodDecl {
            name: self.name.copy()?,
            modifiers: self.modifiers,
            annotations: copy_annotations(alloc, self.annotations.as_slice())?,
            doc: copy_optional_name(&self.doc)?,
            parameters: copy_type_params(alloc, self.parameters.as_slice())?,
            result: self.result.copy(alloc)?,
            arguments: copy_params(alloc, self.arguments.as_slice())?,
            varargs: self.varargs,
            thrown: copy_types(alloc, self.thrown.as_slice())?,
            default: copy_value(alloc, &self.default)?,
        })
    }
}

impl ConstructorDecl {
    /// An equal constructor.
    pub fn copy(&self, alloc: Global) -> Result<ConstructorDecl, NoMemory>
        ensures { IfOk result (λ constructor. constructor ≡ self.now) }
    {
        Ok(ConstructorDecl {
            modifiers: self.modifiers,
            annotations: copy_annotations(alloc, self.annotations.as_slice())?,
            doc: copy_optional_name(&self.doc)?,
            parameters: copy_type_params(alloc, self.parameters.as_slice())?,
            arguments: copy_params(alloc, self.arguments.as_slice())?,
            varargs: self.varargs,
            thrown: copy_types(alloc, self.thrown.as_slice())?,
        })
    }
}

impl ConstantDecl {
    /// An equal enum constant.
    pub fn copy(&self, alloc: Global) -> Result<ConstantDecl, NoMemory>
        ensures { IfOk result (λ constant. constant ≡ self.now) }
    {
        Ok(ConstantDecl {
            name: self.name.copy()?,
            annotations: copy_annotations(alloc, self.annotations.as_slice())?,
            doc: copy_optional_name(&self.doc)?,
            body: self.body,
        })
    }
}
