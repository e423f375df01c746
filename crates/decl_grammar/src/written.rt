// What the parts of a declaration mean, before the declaration is whole: values of the grammar.
use apt_base::{List, Name};
use decl_tree::{
    AnnotationText, Around, Member, Param, TypeDecl, TypeKind, TypeParam, TypeText, ValueText,
};

/// The line of an element's name, and those of its written children in the order of its child list.
#[cycle(lines)]
#[derive(Drop)]
pub struct Lines {
    pub line: u32,
    pub children: List<Lines>,
}

/// A name with its line: that of what is declared, or of a package, whose line is that of its `package`.
#[derive(Drop)]
pub struct NameAt {
    pub name: Name,
    pub line: u32,
}

/// A type parameter with the line of its name.
#[derive(Drop)]
pub struct TypeParamAt {
    pub param: TypeParam,
    pub line: u32,
}

/// A parameter with the line of its name.
#[derive(Drop)]
pub struct ParamAt {
    pub param: Param,
    pub line: u32,
}

/// A member with its lines.
#[derive(Drop)]
pub struct MemberAt {
    pub member: Member,
    pub lines: Lines,
}

/// A type with its lines.
#[derive(Drop)]
pub struct TypeAt {
    pub declaration: TypeDecl,
    pub lines: Lines,
}

/// Modifiers as they are written: a bit each, as in `TypeDecl`, and the annotations among them.
#[derive(Drop)]
pub struct Modifiers {
    pub bits: u16,
    pub annotations: List<AnnotationText>,
}

/// Parameters as they are written, and whether the last one takes any number of arguments.
#[derive(Drop)]
pub struct Params {
    pub params: List<ParamAt>,
    pub varargs: bool,
}

/// What stands behind the name of a method or of a constructor.
#[derive(Drop)]
pub struct Signature {
    pub params: Params,
    /// The brackets behind the parameters.
    pub dims: List<Around>,
    pub thrown: List<TypeText>,
    pub default: Option<ValueText>,
}

/// A name with the brackets behind it, and its value where that is kept.
#[derive(Drop)]
pub struct Declarator {
    pub name: NameAt,
    pub dims: List<Around>,
    pub constant: Option<ValueText>,
}

/// A type without its modifiers and its doc comment.
#[derive(Drop)]
pub struct TypeRest {
    pub kind: TypeKind,
    pub name: NameAt,
    pub parameters: List<TypeParamAt>,
    pub superclass: Option<TypeText>,
    pub interfaces: List<TypeText>,
    pub members: List<MemberAt>,
}

/// A member without its modifiers and its doc comment.
#[derive(Drop)]
pub enum Unmodified {
    /// A `;` or an initialiser (JLS 8.6, 8.7).
    Nothing,
    /// Fields of one declaration (JLS 8.3).
    Fields(TypeText, List<Declarator>),
    Method(List<TypeParamAt>, TypeText, NameAt, Signature),
    /// The line of its name, its type parameters, and what stands behind the name.
    Constructor(u32, List<TypeParamAt>, Signature),
    Nested(TypeRest),
}

/// What ends a parameter, behind its type and the brackets there (JLS 8.4.1).
#[derive(Drop)]
pub enum ParamEnd {
    /// Its name, and the brackets behind it.
    Named(NameAt, List<Around>),
    /// `...` and its name: it takes any number of arguments.
    AnyNumber(NameAt),
    /// `this`, with a name and a `.` before it or without: the receiver, which is no parameter (JLS 8.4).
    Receiver,
}

/// What may stand behind the type and the name of a member.
#[derive(Clone, Copy, PartialEq, Eq)]
pub enum MemberRest {
    /// The rest of a method or of fields.
    Any,
    /// The rest of a method.
    Method,
    /// The rest of an element of an annotation interface or of fields.
    Element,
}
