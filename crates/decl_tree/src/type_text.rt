// Types as they are written.
ghost use Rattle.std.specs.Prelude.{◌≡◌, IfOk};

use apt_base::{Around, List, Name, NoMemory, copy_around};
use std::alloc::Global;

/// A primitive type (JLS 4.2), or `void` as the result of a method (JLS 8.4.5) or in a class literal (JLS 15.8.2).
#[derive(Clone, Copy, PartialEq, Eq)]
pub enum PrimitiveKind {
    Boolean,
    Byte,
    Short,
    Int,
    Long,
    Char,
    Float,
    Double,
    Void,
}

/// One name of a class type and the type arguments behind it. `None` where no `<` stands there.
#[cycle(type_text)]
#[derive(Drop)]
pub struct NamedPart {
    pub name: Name,
    pub arguments: Option<List<TypeText>>,
}

/// A type around which nothing stands.
#[cycle(type_text)]
#[derive(Drop)]
pub enum BaseType {
    Primitive(PrimitiveKind),
    /// A class type or a type variable: its names, which dots join.
    Named(List<NamedPart>),
    /// `?` without a bound (JLS 4.5.1).
    Wildcard,
}

/// A type as it is written (JLS 4): a base, and what stands around it, from the outside in. So `? extends int[]` is `Extends`, `Array` around `int`.
///
/// A type nests by its type arguments alone: any number of brackets and wildcards are copied, spelled and dropped without recursion.
#[cycle(type_text)]
#[derive(Drop)]
pub struct TypeText {
    pub around: List<Around>,
    pub base: BaseType,
}

/// Equal types.
#[cycle(copy_type)]
pub(crate) fn copy_types(alloc: Global, items: &[TypeText]) -> Result<List<TypeText>, NoMemory>
    ensures { IfOk result (λ list. list ≡ items.now) }
{
    let mut copies = List::new(alloc);
    for each in items {
        copies.push(each.copy(alloc)?)?;
    }
    Ok(copies)
}

#[cycle(copy_type)]
fn copy_parts(alloc: Global, items: &[NamedPart]) -> Result<List<NamedPart>, NoMemory>
    ensures { IfOk result (λ list. list ≡ items.now) }
{
    let mut copies = List::new(alloc);
    for each in items {
        copies.push(each.copy(alloc)?)?;
    }
    Ok(copies)
}

impl NamedPart {
    /// An equal part.
    #[cycle(copy_type)]
    pub fn copy(&self, alloc: Global) -> Result<NamedPart, NoMemory>
        ensures { IfOk result (λ part. part ≡ self.now) }
    {
        let name = self.name.copy()?;
        let arguments = match &self.arguments {
            None => None,
            Some(list) => Some(copy_types(alloc, list.as_slice())?),
        };
        Ok(NamedPart { name, arguments })
    }
}

impl BaseType {
    /// An equal base.
    #[cycle(copy_type)]
    pub fn copy(&self, alloc: Global) -> Result<BaseType, NoMemory>
        ensures { IfOk result (λ base. base ≡ self.now) }
    {
        match self {
            BaseType::Primitive(kind) => Ok(BaseType::Primitive(*kind)),
            BaseType::Named(parts) => Ok(BaseType::Named(copy_parts(alloc, parts.as_slice())?)),
            BaseType::Wildcard => Ok(BaseType::Wildcard),
        }
    }
}

impl TypeText {
    /// An equal type.
    #[cycle(copy_type)]
    pub fn copy(&self, alloc: Global) -> Result<TypeText, NoMemory>
        ensures { IfOk result (λ text. text ≡ self.now) }
    {
        Ok(TypeText {
            around: copy_around(alloc, &self.around)?,
            base: self.base.copy(alloc)?,
        })
    }
}

/// An equal type, where there is one.
pub(crate) fn copy_type(alloc: Global, of: &Option<TypeText>) -> Result<Option<TypeText>, NoMemory>
    ensures { IfOk result (λ copy. copy ≡ of.now) }
{
    match of {
        None => Ok(None),
        Some(of) => Ok(Some(of.copy(alloc)?)),
    }
}
