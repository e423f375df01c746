// What a child asks in a round.
ghost use Rattle.std.specs.Prelude.{◌≡◌, IfOk};
ghost use Rattle.wire_frames.specs.Frames.{question_row};

use crate::copying::{copy_both, copy_three};
use apt_base::{ElementRef, List, Name, NoMemory};
use frame_forms::{ElementQuestion, MirrorQuestion, MirrorsQuestion, NameQuestion, QuestionRow};
use std::alloc::Global;
use type_mirror::Mirror;

/// A child's question in a round, as the methods of `Elements`, `Types` and `RoundEnvironment` of JSR 269 put it: a
/// row of the table of questions, and its arguments.
#[derive(Drop)]
pub enum Question {
    /// A question about a name.
    Name(NameQuestion, Name),
    /// A question about an element.
    Element(ElementQuestion, ElementRef),
    /// A question about a mirror.
    Mirror(MirrorQuestion, Mirror),
    /// A question about two mirrors.
    Mirrors(MirrorsQuestion, Mirror, Mirror),
    /// The values of an annotation on an element, then the defaults of its other elements.
    ValuesWithDefaults {
        /// The element.
        element: ElementRef,
        /// The number of the annotation among those that are present on it, the written ones first, from 0.
        annotation: u16,
    },
    /// Whether a method overrides another one (JLS 8.4.8.1).
    Overrides {
        /// The method that may override.
        overrider: ElementRef,
        /// The method that may be overridden.
        overridden: ElementRef,
        /// The type as a member of which the first one is seen.
        in_type: ElementRef,
    },
    /// The type of a member as it is in a type.
    MemberType {
        /// The type.
        container: Mirror,
        /// The member.
        element: ElementRef,
    },
    /// The declared type of an element with these arguments.
    DeclaredType {
        /// The type.
        element: ElementRef,
        /// As many as it has parameters, or none.
        arguments: List<Mirror>,
    },
    /// The round's roots, in order.
    Roots,
}

impl Question {
    /// The row of the question.
    pub fn row(&self) -> QuestionRow
        ensures { result ≡ question_row self.now }
    {
        match self {
            Question::Name(question, _) => QuestionRow::Name(*question),
            Question::Element(question, _) => QuestionRow::Element(*question),
            Question::Mirror(question, _) => QuestionRow::Mirror(*question),
            Question::Mirrors(question, _, _) => QuestionRow::Mirrors(*question),
            Question::ValuesWithDefaults { .. } => QuestionRow::ValuesWithDefaults,
            Question::Overrides { .. } => QuestionRow::Overrides,
            Question::MemberType { .. } => QuestionRow::MemberType,
            Question::DeclaredType { .. } => QuestionRow::DeclaredType,
            Question::Roots => QuestionRow::Roots,
        }
    }

    /// An equal question. It fails only when memory runs out.
    pub fn copy(&self, alloc: Global) -> Result<Question, NoMemory>
        ensures { IfOk result (λ question. question ≡ self.now) }
    {
        match self {
            Question::Name(question, name) => Ok(Question::Name(*question, name.copy()?)),
            Question::Element(question, element) => {
                Ok(Question::Element(*question, element.copy(alloc)?))
            }
            Question::Mirror(question, mirror) => Ok(Question::Mirror(
                *question,
                mirror.copy(alloc)?,
            )),
            Question::Mirrors(question, one, other) => {
                let (one, other) = copy_both(alloc, one, other)?;
                Ok(Question::Mirrors(*question, one, other))
            }
            Question::ValuesWithDefaults {
                element,
                annotation,
            } => {
                Ok(Question::ValuesWithDefaults {
                    element: element.copy(alloc)?,
                    annotation: *annotation,
                })
            }
            Question::Overrides {
                overrider,
                overridden,
                in_type,
            } => {
                let (overrider, overridden, in_type) = copy_three(
                    alloc, overrider, overridden, in_type,
                )?;
                Ok(Question::Overrides {
                    overrider,
                    overridden,
                    in_type,
                })
            }
            Question::MemberType { container, element } => {
                let (container, element) = copy_both(alloc, container, element)?;
                Ok(Question::MemberType { container, element })
            }
            Question::DeclaredType { element, arguments } => {
                let (element, arguments) = copy_both(alloc, element, arguments)?;
                Ok(Question::DeclaredType { element, arguments })
            }
            Question::Roots => Ok(Question::Roots),
        }
    }
}
