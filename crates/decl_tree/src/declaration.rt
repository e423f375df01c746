// Type declarations.
ghost use Rattle.std.specs.Prelude.{◌≡◌, IfOk};

use crate::annotation::{AnnotationText, copy_annotations};
use crate::member::{
    ConstantDecl, ConstructorDecl, FieldDecl, MethodDecl, TypeParam, copy_type_params,
};
use crate::type_text::{TypeText, copy_type, copy_types};
use apt_base::{List, Name, NoMemory, copy_optional_name};
use std::alloc::Global;

/// What a type declaration declares.
#[derive(Clone, Copy, PartialEq, Eq)]
pub enum TypeKind {
    Enum,
    Class,
    AnnotationType,
    Interface,
}

/// A class, interface, enum or annotation interface (JLS 8.1, 9.1, 8.9, 9.6), without bodies of members.
#[cycle(declaration)]
#[derive(Drop)]
pub struct TypeDecl {
    pub kind: TypeKind,
    /// The simple name.
    pub name: Name,
    /// The written modifiers, a bit each: public, protected, private, abstract, default, static, final, transient, volatile, synchronized, native, strictfp, the lowest first.
    pub modifiers: u16,
    pub annotations: List<AnnotationText>,
    /// The text of the doc comment, where there is one, without its markers and with LF at the ends of its lines.
    pub doc: Option<Name>,
    /// The type parameters (JLS 8.1.2, 9.1.2).
    pub parameters: List<TypeParam>,
    /// The type behind the `extends` of a class (JLS 8.1.4).
    pub superclass: Option<TypeText>,
    /// The types behind `implements`, or behind the `extends` of an interface (JLS 8.1.5, 9.1.3).
    pub interfaces: List<TypeText>,
    pub members: List<Member>,
}

/// A member of a type, in the order of the source. Initialisers are none.
#[cycle(declaration)]
#[derive(Drop)]
pub enum Member {
    Field(FieldDecl),
    Method(MethodDecl),
    Constructor(ConstructorDecl),
    Constant(ConstantDecl),
    /// A member type (JLS 8.5, 9.5).
    Nested(TypeDecl),
}

#[cycle(copy_declaration)]
fn copy_members(alloc: Global, items: &[Member]) -> Result<List<Member>, NoMemory>
    ensures { IfOk result (λ list. list ≡ items.now) }
{
    let mut copies = List::new(alloc);
    for each in items {
        copies.push(each.copy(alloc)?)?;
    }
    Ok(copies)
}

impl TypeDecl {
    /// An equal declaration.
    #[cycle(copy_declaration)]
    pub fn copy(&self, alloc: Global) -> Result<TypeDecl, NoMemory>
        ensures { IfOk result (λ declaration. declaration ≡ self.now) }
    {
        Ok(TypeDecl {
            kind: self.kind,
            name: self.name.copy()?,
            modifiers: self.modifiers,
            annotations: copy_annotations(alloc, self.annotations.as_slice())?,
            doc: copy_optional_name(&self.doc)?,
            parameters: copy_type_params(alloc, self.parameters.as_slice())?,
            superclass: copy_type(alloc, &self.superclass)?,
            interfaces: copy_types(alloc, self.interfaces.as_slice())?,
            members: copy_members(alloc, self.members.as_slice())?,
        })
    }
}

impl Member {
    /// An equal member.
    #[cycle(copy_declaration)]
    pub fn copy(&self, alloc: Global) -> Result<Member, NoMemory>
        ensures { IfOk result (λ member. member ≡ self.now) }
    {
        match self {
            Member::Field(field) => Ok(Member::Field(field.copy(alloc)?)),
            Member::Method(method) => Ok(Member::Method(method.copy(alloc)?)),
            Member::Constructor(constructor) => Ok(Member::Constructor(constructor.copy(alloc)?)),
            Member::Constant(constant) => Ok(Member::Constant(constant.copy(alloc)?)),
            Member::Nested(declaration) => Ok(Member::Nested(declaration.copy(alloc)?)),
        }
    }
}
