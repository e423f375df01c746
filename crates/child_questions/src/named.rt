// Whether all elements that a frame names are there. None of these calls takes memory.
ghost use Rattle.std.specs.Prelude.{◌≡◌};
ghost use Rattle.child_questions.specs.NamedElements.{are_all_there, question_elements};
ghost use Rattle.child_questions.specs.NamedElements.{creation_elements, message_elements};

use element_table::Table;
use type_queries::{all_there, are_there, each_is_there};
use type_relations::is_there;
use wire_frames::{Creation, Message, Question};

/// Whether each element that the question names is there, also those within its mirrors. It takes no memory.
#[tactic(auto, unfolding(crate::specs::NamedElements::question_elements), using(crate::proofs::AllThere::there))]
pub fn is_question_there(table: &Table, question: &Question) -> bool
    ensures { result ≡ are_all_there table.now (question_elements question.now) }
{
    match question {
        Question::Name(_, _) => true,
        Question::Element(_, at) => is_there(table, at),
        Question::Mirror(_, mirror) => are_there(table, mirror),
        Question::Mirrors(_, one, other) => are_there(table, one) && are_there(table, other),
        Question::ValuesWithDefaults { element, .. } => is_there(table, element),
        Question::Overrides {
            overrider,
            overridden,
            in_type,
        } => {
            is_there(table, overrider) && is_there(table, overridden) && is_there(table, in_type)
        }
        Question::MemberType { container, element } => {
            are_there(table, container) && is_there(table, element)
        }
        Question::DeclaredType { element, arguments } => {
            is_there(table, element) && all_there(table, arguments.as_slice())
        }
        Question::Roots => true,
    }
}

/// Whether each originating element of the file is there. It takes no memory.
pub fn is_creation_there(table: &Table, creation: &Creation) -> bool
    ensures { result ≡ are_all_there table.now (creation_elements creation.now) }
{
    match creation {
        Creation::Source { origins, .. } => each_is_there(table, origins.as_slice()),
        Creation::Resource { origins, .. } => each_is_there(table, origins.as_slice()),
        Creation::Class { origins, .. } => each_is_there(table, origins.as_slice()),
    }
}

/// Whether the element at which the message is printed is there, if it names one. It takes no memory.
#[tactic(auto, using(crate::proofs::AllThere::there))]
pub fn is_message_there(table: &Table, message: &Message) -> bool
    ensures { result ≡ are_all_there table.now (message_elements message.now) }
{
    match &message.element {
        None => true,
        Some(at) => is_there(table, at),
    }
}
