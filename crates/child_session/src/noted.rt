// What is noted of a round while it goes on.
ghost use Rattle.std.specs.Prelude.{◌≡◌, OnOk};
ghost use Rattle.child_session.specs.Notes.{nothing_noted, with_question};
ghost use Rattle.child_session.specs.Replies.{shown_of};

use apt_base::{List, Names, NoMemory};
use element_table::Table;
use named_units::{add_named, gathers, is_wide};
use round_env::RoundEnv;
use std::alloc::Global;
use wire_frames::{Message, Question};

/// What is noted of a round while it goes on.
#[derive(Drop)]
pub struct Noted {
    /// The messages that were printed, in order.
    pub messages: List<Message>,
    /// Whether a creation was answered with another answer than `Accepted`.
    pub refused: bool,
    /// The units that questions named.
    pub asked: Names,
    /// Whether a question asked for a package by its name, or for the types of one.
    pub wide: bool,
    /// Whether a question asked for the roots, or for the elements of an annotation that was not offered.
    pub gathered: bool,
}

impl Noted {
    /// Nothing is noted yet. It takes no memory.
    pub fn new(alloc: Global) -> Noted
        ensures { result ≡ nothing_noted }
    {
        Noted {
            messages: List::new(alloc),
            refused: false,
            asked: Names::new(alloc),
            wide: false,
            gathered: false,
        }
    }

    /// Notes a question.
    pub fn add_question(
        &mut self,
        alloc: Global,
        table: &Table,
        env: &RoundEnv,
        question: &Question,
    ) -> Result<(), NoMemory>
        ensures { OnOk result (self.new ≡ with_question (shown_of table.now env.now) self.old question.now) }
    {
        add_named(alloc, &mut self.asked, table, question)?;
        self.wide = self.wide || is_wide(question);
        self.gathered = self.gathered || gathers(env.offered.as_slice(), question);
        Ok(())
    }
}
