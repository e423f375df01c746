// The rows of the table of questions: which question is asked, by the forms of its arguments, and what it wants
// them to be.
ghost use Rattle.std.specs.Prelude.{◌≡◌};
ghost use Rattle.frame_forms.specs.QuestionTable.{asked_of_name, asked_of_element, asked_of_mirror, asked_of_mirrors, question_tag, question_at};

/// What a question wants an element to be, in the kinds of JSR 269.
#[derive(Clone, Copy, Debug, PartialEq, Eq)]
pub enum WantedElement {
    /// Any element.
    Any,
    /// A class, an enum, an interface or an annotation interface.
    TypeElement,
    /// A method or a constructor.
    Executable,
    /// A type or an executable.
    Parameterizable,
    /// A method.
    Method,
    /// A field, and no enum constant.
    Field,
    /// A type parameter.
    TypeParameter,
}

/// What a question wants a mirror to be.
#[derive(Clone, Copy, Debug, PartialEq, Eq)]
pub enum WantedMirror {
    /// Any mirror.
    Any,
    /// No package.
    NoPackage,
    /// No package and no executable.
    NoPackageOrExecutable,
    /// An executable.
    Executable,
    /// A primitive type.
    Primitive,
    /// One of the eight boxes.
    PrimitiveBox,
    /// What an array may have as its item: no package, executable or wildcard, neither `Void` nor `Nothing`.
    ArrayItem,
}

/// The questions about a name.
#[derive(Clone, Copy, Debug, PartialEq, Eq)]
pub enum NameQuestion {
    /// The type with this canonical name.
    TypeElement,
    /// The package with this name.
    PackageElement,
    /// The elements of the round's roots that carry the annotation with this canonical name.
    AnnotatedWith,
}

/// The questions about an element.
#[derive(Clone, Copy, Debug, PartialEq, Eq)]
pub enum ElementQuestion {
    /// What the element is.
    Info,
    /// The element around it; of a top-level type its package.
    Enclosing,
    /// The elements in it, without type parameters.
    Enclosed,
    /// The type parameters of a type or executable.
    TypeParameters,
    /// The parameters of an executable.
    Parameters,
    /// The package that it is in.
    PackageOf,
    /// Its documentation comment.
    DocComment,
    /// The annotations that are written on it.
    Annotations,
    /// The annotations that are written on it, then the inherited ones.
    AllAnnotations,
    /// The default value of a method of an annotation interface.
    DefaultValue,
    /// The constant value of a field.
    ConstantValue,
    /// The members of a type, the inherited ones included.
    AllMembers,
    /// The type of the element.
    TypeOf,
    /// The superclass of a type.
    Superclass,
    /// The interfaces of a type.
    Interfaces,
    /// The bounds of a type parameter.
    Bounds,
}

/// The questions about a mirror.
#[derive(Clone, Copy, Debug, PartialEq, Eq)]
pub enum MirrorQuestion {
    /// The direct supertypes, the superclass first.
    DirectSupertypes,
    /// The erasure (JLS 4.6).
    Erasure,
    /// The class that boxes a primitive type (JLS 5.1.7).
    Boxed,
    /// The primitive type that unboxing gives (JLS 5.1.8).
    Unboxed,
    /// The element of a declared type or a type variable.
    AsElement,
    /// The type as a text.
    PrintType,
    /// The array type with this component type.
    ArrayType,
}

/// The questions about two mirrors.
#[derive(Clone, Copy, Debug, PartialEq, Eq)]
pub enum MirrorsQuestion {
    /// Whether the two are the same type.
    SameType,
    /// Whether the first is a subtype of the second.
    Subtype,
    /// Whether the first is assignable to the second.
    Assignable,
    /// Whether the first contains the second, as type arguments (JLS 4.5.1).
    Contains,
    /// Whether the first executable's signature is a subsignature of the second's (JLS 8.4.2).
    Subsignature,
}

/// A row of the table of questions. The groups have one form of arguments each: a name, an element, a mirror, two
/// mirrors. The other rows have a form of their own.
#[derive(Clone, Copy, Debug, PartialEq, Eq)]
pub enum QuestionRow {
    /// A question about a name.
    Name(NameQuestion),
    /// A question about an element.
    Element(ElementQuestion),
    /// A question about a mirror.
    Mirror(MirrorQuestion),
    /// A question about two mirrors.
    Mirrors(MirrorsQuestion),
    /// The values of an annotation on an element, then the defaults of its other elements.
    ValuesWithDefaults,
    /// Whether a method overrides another one in a type (JLS 8.4.8.1).
    Overrides,
    /// The type of a member as it is in a type.
    MemberType,
    /// The declared type of an element with these arguments.
    DeclaredType,
    /// The round's roots, in order.
    Roots,
}

impl NameQuestion {
    /// The tag of the question.
    pub fn tag(self) -> u8
        ensures { result ≡ (asked_of_name self).tag }
    {
        match self {
            NameQuestion::TypeElement => 80,
            NameQuestion::PackageElement => 81,
            NameQuestion::AnnotatedWith => 114,
        }
    }
}

impl ElementQuestion {
    /// The tag of the question, and what it wants the element to be.
    pub fn row(self) -> (u8, WantedElement)
        ensures tag { result.0 ≡ (asked_of_element self).tag }
        ensures wanted { result.1 ≡ (asked_of_element self).wanted }
    {
        match self {
            ElementQuestion::Info => (82, WantedElement::Any),
            ElementQuestion::Enclosing => (83, WantedElement::Any),
            ElementQuestion::Enclosed => (84, WantedElement::Any),
            ElementQuestion::TypeParameters => (85, WantedElement::Parameterizable),
            ElementQuestion::Parameters => (86, WantedElement::Executable),
            ElementQuestion::PackageOf => (87, WantedElement::Any),
            ElementQuestion::DocComment => (88, WantedElement::Any),
            ElementQuestion::Annotations => (89, WantedElement::Any),
            ElementQuestion::AllAnnotations => (90, WantedElement::Any),
            ElementQuestion::DefaultValue => (92, WantedElement::Method),
            ElementQuestion::ConstantValue => (93, WantedElement::Field),
            ElementQuestion::AllMembers => (94, WantedElement::TypeElement),
            ElementQuestion::TypeOf => (96, WantedElement::Any),
            ElementQuestion::Superclass => (97, WantedElement::TypeElement),
            ElementQuestion::Interfaces => (98, WantedElement::TypeElement),
            ElementQuestion::Bounds => (99, WantedElement::TypeParameter),
        }
    }
}

impl MirrorQuestion {
    /// The tag of the question, and what it wants the mirror to be.
    pub fn row(self) -> (u8, WantedMirror)
        ensures tag { result.0 ≡ (asked_of_mirror self).tag }
        ensures wanted { result.1 ≡ (asked_of_mirror self).wanted }
    {
        match self {
            MirrorQuestion::DirectSupertypes => (105, WantedMirror::NoPackageOrExecutable),
            MirrorQuestion::Erasure => (106, WantedMirror::NoPackage),
            MirrorQuestion::Boxed => (107, WantedMirror::Primitive),
            MirrorQuestion::Unboxed => (108, WantedMirror::PrimitiveBox),
            MirrorQuestion::AsElement => (110, WantedMirror::Any),
            MirrorQuestion::PrintType => (111, WantedMirror::Any),
            MirrorQuestion::ArrayType => (113, WantedMirror::ArrayItem),
        }
    }
}

impl MirrorsQuestion {
    /// The tag of the question, and what it wants both mirrors to be.
    pub fn row(self) -> (u8, WantedMirror)
        ensures tag { result.0 ≡ (asked_of_mirrors self).tag }
        ensures wanted { result.1 ≡ (asked_of_mirrors self).wanted }
    {
        match self {
            MirrorsQuestion::SameType => (100, WantedMirror::Any),
            MirrorsQuestion::Subtype => (101, WantedMirror::NoPackageOrExecutable),
            MirrorsQuestion::Assignable => (102, WantedMirror::NoPackageOrExecutable),
            MirrorsQuestion::Contains => (103, WantedMirror::NoPackageOrExecutable),
            MirrorsQuestion::Subsignature => (104, WantedMirror::Executable),
        }
    }
}

impl QuestionRow {
    /// The tag of the row.
    pub fn tag(self) -> u8
        ensures { result ≡ question_tag self }
    {
        match self {
            QuestionRow::Name(question) => question.tag(),
            QuestionRow::Element(question) => question.row().0,
            QuestionRow::Mirror(question) => question.row().0,
            QuestionRow::Mirrors(question) => question.row().0,
            QuestionRow::ValuesWithDefaults => 91,
            QuestionRow::Overrides => 95,
            QuestionRow::MemberType => 109,
            QuestionRow::DeclaredType => 112,
            QuestionRow::Roots => 115,
        }
    }

    /// The row with this tag, if a question has it.
    #[tactic(auto, unfolding(crate::specs::QuestionTable::question_at))]
    pub fn at(tag: u8) -> Option<QuestionRow>
        ensures { result ≡ question_at tag }
    {
        let row = match tag {
            80 => QuestionRow::Name(NameQuestion::TypeElement),
            81 => QuestionRow::Name(NameQuestion::PackageElement),
            82 => QuestionRow::Element(ElementQuestion::Info),
            83 => QuestionRow::Element(ElementQuestion::Enclosing),
            84 => QuestionRow::Element(ElementQuestion::Enclosed),
            85 => QuestionRow::Element(ElementQuestion::TypeParameters),
            86 => QuestionRow::Element(ElementQuestion::Parameters),
            87 => QuestionRow::Element(ElementQuestion::PackageOf),
            88 => QuestionRow::Element(ElementQuestion::DocComment),
            89 => QuestionRow::Element(ElementQuestion::Annotations),
            90 => QuestionRow::Element(ElementQuestion::AllAnnotations),
            91 => QuestionRow::ValuesWithDefaults,
            92 => QuestionRow::Element(ElementQuestion::DefaultValue),
            93 => QuestionRow::Element(ElementQuestion::ConstantValue),
            94 => QuestionRow::Element(ElementQuestion::AllMembers),
            95 => QuestionRow::Overrides,
            96 => QuestionRow::Element(ElementQuestion::TypeOf),
            97 => QuestionRow::Element(ElementQuestion::Superclass),
            98 => QuestionRow::Element(ElementQuestion::Interfaces),
            99 => QuestionRow::Element(ElementQuestion::Bounds),
            100 => QuestionRow::Mirrors(MirrorsQuestion::SameType),
            101 => QuestionRow::Mirrors(MirrorsQuestion::Subtype),
            102 => QuestionRow::Mirrors(MirrorsQuestion::Assignable),
            103 => QuestionRow::Mirrors(MirrorsQuestion::Contains),
            104 => QuestionRow::Mirrors(MirrorsQuestion::Subsignature),
            105 => QuestionRow::Mirror(MirrorQuestion::DirectSupertypes),
            106 => QuestionRow::Mirror(MirrorQuestion::Erasure),
            107 => QuestionRow::Mirror(MirrorQuestion::Boxed),
            108 => QuestionRow::Mirror(MirrorQuestion::Unboxed),
            109 => QuestionRow::MemberType,
            110 => QuestionRow::Mirror(MirrorQuestion::AsElement),
            111 => QuestionRow::Mirror(MirrorQuestion::PrintType),
            112 => QuestionRow::DeclaredType,
            113 => QuestionRow::Mirror(MirrorQuestion::ArrayType),
            114 => QuestionRow::Name(NameQuestion::AnnotatedWith),
            115 => QuestionRow::Roots,
            _ => return None,
        };
        Some(row)
    }
}
