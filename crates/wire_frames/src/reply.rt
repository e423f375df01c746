// The host's answers in a round.
ghost use Rattle.std.specs.Prelude.{◌≡◌, IfOk};

use crate::copying::copy_all;
use apt_base::{ElementRef, List, Name, NoMemory, copy_names};
use std::alloc::Global;
use type_mirror::{Annotation, Mirror, Value};

/// What became of a creation.
#[derive(Clone, Copy, Debug, PartialEq, Eq)]
pub enum Created {
    /// The file is created.
    Accepted,
    /// A file of that name is there already.
    Exists,
    /// Files of that kind can't be created: class files, which no host of sources makes.
    Unsupported,
    /// The name is none of a file or a type.
    BadName,
    /// The file is too large.
    TooLarge,
}

/// Why a question, a creation or a message is not answered.
#[derive(Clone, Copy, Debug, PartialEq, Eq)]
pub enum Refused {
    /// An element that it names is not there.
    NoSuch,
    /// An argument isn't of the kind that the question asks for.
    WrongKind,
    /// The question has no answer within 64 steps from a type to its supertypes, bounds or arguments.
    TooDeep,
    /// The answer would be too large.
    TooLarge,
}

/// What an element is, as `Element` of `javax.lang.model.element` shows it.
#[derive(Drop)]
pub struct Info {
    /// The number of its kind: 0 for a package, 1 an enum, 2 a class, 3 an annotation interface, 4 an interface, 5 an enum constant, 6 a field, 7 a parameter, 8 a method, 9 a constructor, 10 a type parameter.
    pub kind: u8,
    /// Its modifiers, written or implied, as bits from the lowest one on: public, protected, private, abstract, default, static, final, transient, volatile, synchronized, native, strictfp.
    pub modifiers: u16,
    /// Its simple name.
    pub simple: Name,
    /// The canonical name of a type or package; empty for others.
    pub canonical: Name,
    /// Whether it is a method or constructor of variable arity (JLS 8.4.1).
    pub varargs: bool,
}

/// The host's answer to a child's frame in a round.
#[derive(Drop)]
pub enum Reply {
    /// Elements, in the order that the question gives.
    Elements(List<ElementRef>),
    /// What an element is.
    Info(Info),
    /// Texts: none or one.
    Texts(List<Name>),
    /// Annotations, in order.
    Annotations(List<Annotation>),
    /// Values with a name each, in order.
    Values(List<(Name, Value)>),
    /// Mirrors, in order.
    Mirrors(List<Mirror>),
    /// Yes or no.
    Truth(bool),
    /// To a creation.
    Created(Created),
    /// To a message.
    Noted,
    /// To what is not answered.
    Refused(Refused),
}

impl Info {
    /// Equal facts of an element. It fails only when memory runs out.
    pub fn copy(&self) -> Result<Info, NoMemory>
        ensures { IfOk result (λ info. info ≡ self.now) }
    {
        Ok(Info {
            kind: self.kind,
            modifiers: self.modifiers,
            simple: self.simple.copy()?,
            canonical: self.canonical.copy()?,
            varargs: self.varargs,
        })
    }
}

impl Reply {
    /// An equal reply. It fails only when memory runs out.
    pub fn copy(&self, alloc: Global) -> Result<Reply, NoMemory>
        ensures { IfOk result (λ reply. reply ≡ self.now) }
    {
        match self {
            Reply::Elements(elements) => {
                Ok(Reply::Elements(copy_all(alloc, elements.as_slice())?))
            }
            Reply::Info(info) => Ok(Reply::Info(info.copy()?)),
            Reply::Texts(texts) => Ok(Reply::Texts(copy_names(alloc, texts.as_slice())?)),
            Reply::Annotations(annotations) => {
                Ok(Reply::Annotations(copy_all(alloc, annotations.as_slice())?))
            }
            Reply::Values(values) => Ok(Reply::Values(copy_all(alloc, values.as_slice())?)),
            Reply::Mirrors(mirrors) => Ok(Reply::Mirrors(copy_all(alloc, mirrors.as_slice())?)),
            Reply::Truth(truth) => Ok(Reply::Truth(*truth)),
            Reply::Created(created) => Ok(Reply::Created(*created)),
            Reply::Noted => Ok(Reply::Noted),
            Reply::Refused(refused) => Ok(Reply::Refused(*refused)),
        }
    }
}
