// Types, and what else a type mirror stands for.
ghost use Rattle.std.specs.Prelude.{◌≡◌, IfOk};

use apt_base::{Around, Boxed, ElementRef, List, Name, NoMemory, copy_around};
use std::alloc::Global;

/// A primitive type (JLS 4.2).
#[derive(Clone, Copy, PartialEq, Eq)]
pub enum PrimitiveKind {
    Boolean,
    Byte,
    Short,
    Int,
    Long,
    Char,
    Float,
    Double,
}

/// What a `TypeMirror` of `javax.lang.model.type` stands for: a base, and what stands around it, from the outside in. So `? extends int[]` is `Extends`, `Array` around `int`.
///
/// A mirror holds others in its base alone: any number of arrays and wildcards are copied, measured, replaced in and dropped without recursion.
#[cycle(mirror)]
#[derive(Drop)]
pub struct Mirror {
    pub around: List<Around>,
    pub base: BaseMirror,
}

/// A mirror around which nothing stands.
#[cycle(mirror)]
#[derive(Drop)]
pub enum BaseMirror {
    /// A primitive type (JLS 4.2), as `PrimitiveType` shows it.
    Primitive(PrimitiveKind),
    /// A class or interface type (JLS 4.3), as `DeclaredType` shows it.
    Declared(DeclaredMirror),
    /// A name that means nothing or several things, or an implied one that no file gives, as `ErrorType` shows it.
    Error(Name),
    /// A type variable (JLS 4.4) by its type parameter, as `TypeVariable` shows it.
    Variable(ElementRef),
    /// `?` without a bound (JLS 4.5.1), as `WildcardType` shows it.
    Wildcard,
    /// A method or a constructor (JLS 8.2, 8.4.2, 8.8), as `ExecutableType` shows it.
    Executable(ExecutableMirror),
    /// No type where one could be, as the superclass of an interface: `NoType` of kind `NONE`.
    Nothing,
    /// The result of a method without one (JLS 8.4.5): `NoType` of kind `VOID`.
    Void,
    /// The type of `null` (JLS 4.1), as `NullType` shows it.
    Null,
    /// A package by its name (JLS 7.4): `NoType` of kind `PACKAGE`.
    Package(Name),
}

/// A class or interface type: without arguments also a type that has no parameters, or a raw type (JLS 4.8).
#[cycle(mirror)]
#[derive(Drop)]
pub struct DeclaredMirror {
    /// The class or interface.
    pub element: ElementRef,
    /// The type on whose name, or further out, type arguments were written in front of this one's name.
    pub enclosing: Option<Boxed<Mirror>>,
    /// The type arguments (JLS 4.5.1).
    pub arguments: List<Mirror>,
}

/// The types of a method or constructor.
#[cycle(mirror)]
#[derive(Drop)]
pub struct ExecutableMirror {
    /// Its own type parameters (JLS 8.4.4).
    pub variables: List<ElementRef>,
    /// The types of its formal parameters (JLS 8.4.1).
    pub parameters: List<Mirror>,
    /// The type of its result: `Void` for a constructor.
    pub result: Boxed<Mirror>,
    /// The types that it throws (JLS 8.4.6).
    pub thrown: List<Mirror>,
}

/// Equal elements.
pub(crate) fn copy_elements(
    alloc: Global,
    elements: &[ElementRef],
) -> Result<List<ElementRef>, NoMemory>
    ensures { IfOk result (λ list. list ≡ elements.now) }
{
    let mut copies = List::new(alloc);
    for each in elements {
        copies.push(each.copy(alloc)?)?;
    }
    Ok(copies)
}

#[cycle(copy_mirror)]
fn copy_mirrors(alloc: Global, mirrors: &[Mirror]) -> Result<List<Mirror>, NoMemory>
    ensures { IfOk result (λ list. list ≡ mirrors.now) }
{
    let mut copies = List::new(alloc);
    for each in mirrors {
        copies.push(each.copy(alloc)?)?;
    }
    Ok(copies)
}

#[cycle(copy_mirror)]
fn copy_boxed(alloc: Global, mirror: &Mirror) -> Result<Boxed<Mirror>, NoMemory>
    ensures { IfOk result (λ copy. copy ≡ mirror.now) }
{
    Boxed::new(alloc, mirror.copy(alloc)?)
}

impl Mirror {
    ghost use Rattle.type_mirror.specs.Parts.{plain, wrapped};

    /// The mirror of this base with nothing around it. It takes no memory.
    pub fn plain(alloc: Global, base: BaseMirror) -> Mirror
        ensures { result ≡ plain base }
    {
        Mirror {
            around: List::new(alloc),
            base,
        }
    }

    /// This mirror with more around it, further out.
    pub fn wrapped(self, alloc: Global, around: &List<Around>) -> Result<Mirror, NoMemory>
        ensures { IfOk result (λ mirror. mirror ≡ wrapped around.now self) }
    {
        let Mirror {
            around: inner,
            base,
        } = self;
        let mut all = Vec::from_slice(alloc, around.as_slice())?;
        all.extend_from_slice(inner.as_slice())?;
        Ok(Mirror {
            around: List::from_vec(all),
            base,
        })
    }

    /// An equal mirror.
    #[cycle(copy_mirror)]
    pub fn copy(&self, alloc: Global) -> Result<Mirror, NoMemory>
        ensures { IfOk result (λ mirror. mirror ≡ self.now) }
    {
        Ok(Mirror {
            around: copy_around(alloc, &self.around)?,
            base: self.base.copy(alloc)?,
        })
    }
}

impl BaseMirror {
    /// An equal base.
    #[cycle(copy_mirror)]
    pub fn copy(&self, alloc: Global) -> Result<BaseMirror, NoMemory>
        ensures { IfOk result (λ base. base ≡ self.now) }
    {
        match self {
            BaseMirror::Primitive(kind) => Ok(BaseMirror::Primitive(*kind)),
            BaseMirror::Declared(declared) => Ok(BaseMirror::Declared(declared.copy(alloc)?)),
            BaseMirror::Error(text) => Ok(BaseMirror::Error(text.copy()?)),
            BaseMirror::Variable(element) => Ok(BaseMirror::Variable(element.copy(alloc)?)),
            BaseMirror::Wildcard => Ok(BaseMirror::Wildcard),
            BaseMirror::Executable(executable) => {
                Ok(BaseMirror::Executable(executable.copy(alloc)?))
            }
            BaseMirror::Nothing => Ok(BaseMirror::Nothing),
            BaseMirror::Void => Ok(BaseMirror::Void),
            BaseMirror::Null => Ok(BaseMirror::Null),
            BaseMirror::Package(name) => Ok(BaseMirror::Package(name.copy()?)),
        }
    }
}

impl DeclaredMirror {
    /// An equal class or interface type.
    #[cycle(copy_mirror)]
    pub fn copy(&self, alloc: Global) -> Result<DeclaredMirror, NoMemory>
        ensures { IfOk result (λ declared. declared ≡ self.now) }
    {
        let enclosing = match &self.enclosing {
            None => None,
            Some(mirror) => Some(copy_boxed(alloc, mirror.get())?),
        };
        Ok(DeclaredMirror {
            element: self.element.copy(alloc)?,
            enclosing,
            arguments: copy_mirrors(alloc, self.arguments.as_slice())?,
        })
    }
}

impl ExecutableMirror {
    /// Equal types of a method or constructor.
    #[cycle(copy_mirror)]
    pub fn copy(&self, alloc: Global) -> Result<ExecutableMirror, NoMemory>
        ensures { IfOk result (λ executable. executable ≡ self.now) }
    {
        Ok(ExecutableMirror {
            variables: copy_elements(alloc, self.variables.as_slice())?,
            parameters: copy_mirrors(alloc, self.parameters.as_slice())?,
            result: copy_boxed(alloc, self.result.get())?,
            thrown: copy_mirrors(alloc, self.thrown.as_slice())?,
        })
    }
}
