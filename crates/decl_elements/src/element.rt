// What an element is.
use decl_tree::{Member, Param, TypeDecl, TypeParam, Unit};

/// What stands at a place, one variant for each kind of element (JSR 269, `ElementKind`). Each part is borrowed from the unit. An option is `None` exactly where no source has the element.
#[derive(Clone, Copy)]
pub enum Element<'a> {
    /// A package (JLS 7.4), with its unit `package-info` where there is one.
    Package(Option<&'a Unit>),
    /// An enum (JLS 8.9).
    Enum(&'a TypeDecl),
    /// A class (JLS 8.1).
    Class(&'a TypeDecl),
    /// An annotation interface (JLS 9.6).
    AnnotationType(&'a TypeDecl),
    /// An interface (JLS 9.1).
    Interface(&'a TypeDecl),
    /// An enum constant (JLS 8.9.1).
    EnumConstant(&'a Member),
    /// A field (JLS 8.3, 9.3).
    Field(Option<&'a Member>),
    /// A parameter of a method or a constructor (JLS 8.4.1). The one of `valueOf` is in no source.
    Parameter(Option<&'a Param>),
    /// A method (JLS 8.4, 9.4). `values` and `valueOf` of an enum (JLS 8.9.3) are in no source.
    Method(Option<&'a Member>),
    /// A constructor (JLS 8.8). A default one (JLS 8.8.9) is in no source.
    Constructor(Option<&'a Member>),
    /// A type parameter (JLS 8.1.2, 8.4.4).
    TypeParameter(&'a TypeParam),
}
