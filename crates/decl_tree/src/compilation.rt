// Compilation units, one for each top-level type.
ghost use Rattle.std.specs.Prelude.{◌≡◌, true, IfOk};
ghost use Rattle.decl_tree.specs.Legal.{is_legal};

use crate::annotation::{AnnotationText, copy_annotations};
use crate::declaration::TypeDecl;
use crate::shared::Shared;
use apt_base::{List, Name, NoMemory, copy_optional_name};
use std::alloc::Global;
use std::marker::Model;

/// The four forms of an import (JLS 7.5).
#[derive(Clone, Copy, PartialEq, Eq)]
pub enum ImportKind {
    Single,
    OnDemand,
    StaticSingle,
    StaticOnDemand,
}

/// An import, without `import`, `static` and `.*`.
#[derive(Drop)]
pub struct Import {
    pub kind: ImportKind,
    /// The name of a type, a package or a static member.
    pub name: Name,
}

/// One top-level type of a file with what its file says around it, or a file `package-info.java`. It need not be legal: a `Unit` is. The units of one file share its imports and the names of its types.
#[derive(Drop)]
pub struct UnitText {
    /// The package's name, empty for the unnamed package (JLS 7.4).
    pub package: Name,
    /// The imports of the file, in their order.
    pub imports: Shared<List<Import>>,
    /// The simple names of all top-level types of the file, its own among them; none for a package.
    pub siblings: Shared<List<Name>>,
    pub body: Body,
}

/// What a unit declares.
#[derive(Drop)]
pub enum Body {
    /// A top-level type.
    Declared(TypeDecl),
    /// The annotations and the text of the doc comment of a package (JLS 7.4.1).
    Info(List<AnnotationText>, Option<Name>),
}

impl Import {
    /// An equal import.
    pub fn copy(&self) -> Result<Import, NoMemory>
        ensures { IfOk result (λ import. import ≡ self.now) }
    {
        Ok(Import {
            kind: self.kind,
            name: self.name.copy()?,
        })
    }
}

impl UnitText {
    /// An equal text.
    pub fn copy(&self, alloc: Global) -> Result<UnitText, NoMemory>
        ensures { IfOk result (λ text. text ≡ self.now) }
    {
        Ok(UnitText {
            package: self.package.copy()?,
            imports: self.imports.share()?,
            siblings: self.siblings.share()?,
            body: self.body.copy(alloc)?,
        })
    }
}

impl Body {
    /// An equal body.
    pub fn copy(&self, alloc: Global) -> Result<Body, NoMemory>
        ensures { IfOk result (λ body. body ≡ self.now) }
    {
        match self {
            Body::Declared(declaration) => Ok(Body::Declared(declaration.copy(alloc)?)),
            Body::Info(annotations, doc) => Ok(Body::Info(
                copy_annotations(alloc, annotations.as_slice())?,
                copy_optional_name(doc)?,
            )),
        }
    }
}

/// A unit that is legal: its names, child lists and texts and what nests in it are within their limits, its modifiers are of the twelve, and what `+` joins are two or more literals or chains. Contracts see it as its text; each value of this type is legal, and equal ones may share their text.
#[derive(Drop)]
pub struct Unit {
    text: Shared<UnitText>,
}

impl Model for Unit {
    ghost use Rattle.std.specs.Prelude.{◌≡◌, true};
    ghost use Rattle.decl_tree.specs.declared.compilation.UnitText.{UnitText};
    ghost use Rattle.decl_tree.specs.Legal.{is_legal};
    ghost use Rattle.decl_tree.specs.contracts.annotation.AnnotationText as annotation;
    ghost use Rattle.decl_tree.specs.contracts.declaration.TypeDecl as declaration;
    ghost use Rattle.std.specs.Coded.{codes};

    ghost Value = { UnitText };

    ghost coded = { Prim.hlevel (codes, annotation.the_row.coded, declaration.the_row.coded) };

    ghost view = { λ u. u.text };

    ghost invariant = { λ u. is_legal u.text ≡ true };
}

impl Unit {
    /// The unit with this text, which is legal, as a condition.
    pub fn new(alloc: Global, text: UnitText) -> Result<Unit, NoMemory>
        requires { is_legal text ≡ true }
        ensures { IfOk result (λ unit. unit ≡ text) }
    {
        Ok(Unit {
            text: Shared::new(alloc, text)?,
        })
    }

    /// Its text.
    pub fn text(&self) -> &UnitText
        ensures value { result.now ≡ self.now }
        ensures legal { is_legal result.now ≡ true }
    {
        self.text.get()
    }

    /// An equal unit, which shares the text. It takes no memory, and fails only where more share it than are counted.
    pub fn copy(&self) -> Result<Unit, NoMemory>
        ensures { IfOk result (λ unit. unit ≡ self.now) }
    {
        Ok(Unit {
            text: self.text.share()?,
        })
    }
}
