// The replies over one table, of which what was found out is remembered.
ghost use Rattle.std.specs.Prelude.{◌≡◌, true, IfOk, IfSome};
ghost use Rattle.annotation_values.specs.ElementValues as elements;
ghost use Rattle.wire_frames.specs.Frames.{spelling};
ghost use Rattle.wire_frames.specs.declared.frame.Frame.TheVariants as frames;
ghost use Rattle.wire_frames.specs.declared.reply.Reply.TheVariants as replies;
ghost use Rattle.child_questions.specs.Verdicts.{Given, Gives};
ghost use Rattle.child_questions.specs.WantedKinds.{is_admitted, is_element};
ghost use Rattle.frame_forms.specs.QuestionTable.{asked_of_element};
ghost use Rattle.child_answers.specs.Replies.{answer_to, element_answer, judged_answer, mirrors_answer, reply_by};
ghost use Rattle.child_answers.specs.Replies.{reply_of, values_answer, with_value};
ghost use Rattle.child_answers.specs.Remembered.{frame_of};

use crate::annotated::unnamed;
use crate::answers::{admitted, fault_of};
use crate::comparing::{about_mirrors, truth};
use crate::elements::about_element;
use crate::known_frames::KnownFrames;
use crate::relations::Relations;
use crate::replies::{framed, refused, unless_too_large};
use annotation_values::ElementValues;
use apt_base::{ElementRef, List, NoMemory};
use child_questions::{QueryFault, stop_of};
use element_table::Table;
use frame_forms::{ElementQuestion, MirrorsQuestion};
use round_env::RoundEnv;
use std::alloc::Global;
use std::marker::Model;
use std::mem;
use type_mirror::Mirror;
use wire_frames::{Question, Reply};

/// The replies over one table, which remembers what it found out for earlier questions: the frames of their replies,
/// what annotations and constants are worth, the types of questions on subtypes and contained arguments with their
/// direct supertypes, and the answers to these. So it may last as long as the table. Contracts see the table alone,
/// since no reply depends on what was asked before.
///
/// What is remembered is bounded: at most `MOST_FRAMES` frames, which count with their questions as at most
/// `MOST_FRAME_BYTES`, else all of them are forgotten before one more; when a question is asked, at most `MOST_TYPES`
/// types, else all of them are forgotten first; at most 1,048,576 answers; and of values what `ElementValues`
/// remembers. Where a question is out of memory, all is forgotten and it is asked once more. So a budget that earlier
/// questions used up refuses none.
#[derive(Drop)]
pub struct Answering<'a> {
    alloc: Global,
    table: &'a Table,
    values: ElementValues<'a>,
    relations: Relations<'a>,
    frames: KnownFrames,
}

impl<'a> Model for Answering<'a> {
    ghost use Rattle.element_table.specs.TypeTable.{TypeTable};
    ghost use Rattle.element_table.specs.Held.{table_code};
    ghost use Rattle.child_answers.specs.Remembered.{AreOver};

    ghost Value = { TypeTable };

    ghost coded = { table_code };

    ghost view = { λ a. a.table.now };

    ghost invariant = { λ a. AreOver a.table.now a.values a.relations a.frames };
}

impl<'a> Answering<'a> {
    /// Nothing is remembered yet.
    pub fn new(alloc: Global, table: &'a Table) -> Result<Answering<'a>, NoMemory>
        ensures { IfOk result (λ answering. answering ≡ table.now) }
    {
        let values = ElementValues::new(alloc, table)?;
        let relations = Relations::new(alloc, table);
        Ok(Answering {
            alloc,
            table,
            values,
            relations,
            frames: KnownFrames::new(alloc),
        })
    }

    /// The table over which it answers.
    pub fn table(&self) -> &'a Table
        ensures { result.now ≡ self.now }
    {
        self.table
    }

    // Forgets all frames.
    fn forget_frames(&mut self)
        ensures { self.new ≡ self.old }
    {
        let many = mem::replace(&mut self.frames, KnownFrames::new(self.alloc));
        drop(many);
    }

    // Forgets all.
    fn forget(&mut self) -> Result<(), NoMemory>
        ensures { self.new ≡ self.old }
    {
        self.forget_frames();
        let none = ElementValues::new(self.alloc, self.table)?;
        let many = mem::replace(&mut self.values, none);
        drop(many);
        self.relations.forget();
        Ok(())
    }

    // ---- annotations and values

    fn annotations(&mut self, at: &ElementRef) -> Result<Reply, QueryFault>
        ensures value { Gives result (Given (replies.Annotations (elements.mirrors self.old at.now))) }
        ensures kept { self.new ≡ self.old }
    {
        let list = self.values.mirrors(at)?;
        Ok(Reply::Annotations(list))
    }

    fn all_annotations(&mut self, at: &ElementRef) -> Result<Reply, QueryFault>
        ensures value { Gives result (Given (replies.Annotations (elements.all_mirrors self.old at.now))) }
        ensures kept { self.new ≡ self.old }
    {
        let list = self.values.all_mirrors(at)?;
        Ok(Reply::Annotations(list))
    }

    fn default_value(&mut self, at: &ElementRef) -> Result<Reply, QueryFault>
        ensures value { Gives result (with_value (elements.default_of self.old at.now)) }
        ensures kept { self.new ≡ self.old }
    {
        let value = self.values.default_of(at)?;
        let list = unnamed(self.alloc, value)?;
        Ok(Reply::Values(list))
    }

    fn constant_value(&mut self, at: &ElementRef) -> Result<Reply, QueryFault>
        ensures value { Gives result (with_value (elements.constant_of self.old at.now)) }
        ensures kept { self.new ≡ self.old }
    {
        let value = self.values.constant_of(at)?;
        let list = unnamed(self.alloc, value)?;
        Ok(Reply::Values(list))
    }

    #[tactic(auto, unfolding(crate::specs::Replies::values_answer))]
    fn annotation_values(&mut self, at: &ElementRef, number: u16) -> Result<Reply, QueryFault>
        ensures value { Gives result (values_answer self.old at.now number) }
        ensures kept { self.new ≡ self.old }
    {
        match self.values.values_with_defaults(at, number)? {
            None => Err(QueryFault::WrongKind),
            Some(values) => Ok(Reply::Values(values)),
        }
    }

    // ---- groups

    #[tactic(auto, unfolding(crate::specs::Replies::element_answer))]
    fn about_element(
        &mut self,
        question: ElementQuestion,
        at: &ElementRef,
    ) -> Result<Reply, QueryFault>
        requires { is_element self.old (asked_of_element question).wanted at.now ≡ true }
        ensures value { Gives result (element_answer self.old question at.now) }
        ensures kept { self.new ≡ self.old }
    {
        match question {
            ElementQuestion::Annotations => self.annotations(at),
            ElementQuestion::AllAnnotations => self.all_annotations(at),
            ElementQuestion::DefaultValue => self.default_value(at),
            ElementQuestion::ConstantValue => self.constant_value(at),
            _ => about_element(self.alloc, self.table, question, at),
        }
    }

    #[tactic(auto, unfolding(crate::specs::Replies::mirrors_answer))]
    fn about_mirrors(
        &mut self,
        question: MirrorsQuestion,
        one: &Mirror,
        other: &Mirror,
    ) -> Result<Reply, QueryFault>
        ensures value { Gives result (mirrors_answer self.old question one.now other.now) }
        ensures kept { self.new ≡ self.old }
    {
        match question {
            MirrorsQuestion::Subtype => {
                let answer = self.relations.subtype(one, other)?;
                truth(answer)
            }
            MirrorsQuestion::Contains => {
                let answer = self.relations.contained(one, other)?;
                truth(answer)
            }
            _ => about_mirrors(self.alloc, self.table, question, one, other),
        }
    }

    // The answer to a question whose arguments are what is wanted.
    #[tactic(auto, unfolding(crate::specs::Replies::answer_to, child_questions::specs::WantedKinds::is_admitted))]
    fn admitted(&mut self, env: &RoundEnv, question: &Question) -> Result<Reply, QueryFault>
        requires { is_admitted self.old question.now ≡ true }
        ensures value { Gives result (answer_to self.old env.now.roots question.now) }
        ensures kept { self.new ≡ self.old }
    {
        match question {
            Question::Element(of, at) => self.about_element(*of, at),
            Question::Mirrors(of, one, other) => self.about_mirrors(*of, one, other),
            Question::ValuesWithDefaults {
                element,
                annotation,
            } => self.annotation_values(element, *annotation),
            _ => admitted(self.alloc, self.table, env, question),
        }
    }

    // ---- replies

    // The answer to a question, or what stands against it.
    #[tactic(auto, unfolding(crate::specs::Replies::judged_answer), using(crate::proofs::JudgedAnswers::judging))]
    fn judged(&mut self, env: &RoundEnv, question: &Question) -> Result<Reply, QueryFault>
        ensures value { Gives result (judged_answer self.old env.now.roots question.now) }
        ensures kept { self.new ≡ self.old }
    {
        match stop_of(self.alloc, self.table, question)? {
            Some(stop) => Err(fault_of(stop)),
            None => self.admitted(env, question),
        }
    }

    // The same, asked once more where it was out of memory.
    fn judged_again(&mut self, env: &RoundEnv, question: &Question) -> Result<Reply, QueryFault>
        ensures value { Gives result (judged_answer self.old env.now.roots question.now) }
        ensures kept { self.new ≡ self.old }
    {
        self.relations.make_room();
        match self.judged(env, question) {
            Ok(reply) => Ok(reply),
            Err(QueryFault::Memory) => {
                self.forget()?;
                self.judged(env, question)
            }
            Err(fault) => Err(fault),
        }
    }

    // The reply, however large it is.
    #[tactic(auto, using(crate::proofs::ToldReplies::telling))]
    fn reply(&mut self, env: &RoundEnv, question: &Question) -> Result<Reply, NoMemory>
        ensures value { IfOk result
            (λ told. told ≡ reply_by (judged_answer self.old env.now.roots question.now)) }
        ensures kept { self.new ≡ self.old }
    {
        match self.judged_again(env, question) {
            Ok(reply) => Ok(reply),
            Err(fault) => {
                let told = refused(fault)?;
                Ok(told)
            }
        }
    }

    /// The reply to a question in a round (`reply_of`): the first of NoSuch, WrongKind, TooDeep and TooLarge that
    /// stands against it, or else what its row of the table of questions names. The only error is `NoMemory`.
    #[tactic(auto, unfolding(crate::specs::Replies::reply_of))]
    pub fn answer(&mut self, env: &RoundEnv, question: &Question) -> Result<Reply, NoMemory>
        ensures value { IfOk result (λ reply. reply ≡ reply_of self.old env.now.roots question.now) }
        ensures kept { self.new ≡ self.old }
    {
        let given = self.reply(env, question)?;
        let told = unless_too_large(given)?;
        Ok(told)
    }

    // ---- frames

    // The frame of the reply, if it is remembered, and memory is there for a copy.
    fn known_frame(&self, env: &RoundEnv, question: &Question) -> Option<List<u8>>
        ensures { IfSome result (λ bytes. bytes ≡ frame_of self.now env.now.roots question.now) }
    {
        let frame = self.frames.find(self.table, &env.roots, question)?;
        match Vec::from_slice(self.alloc, frame.as_slice()) {
            Ok(bytes) => Some(List::from_vec(bytes)),
            Err(_) => None,
        }
    }

    // Remembers the frame of the reply. Out of memory forgets all frames.
    fn remember(&mut self, env: &RoundEnv, question: &Question, frame: &List<u8>)
        requires { frame.now ≡ frame_of self.old env.now.roots question.now }
        ensures { self.new ≡ self.old }
    {
        match self
            .frames
            .remember(self.table, &env.roots, question, frame)
        {
            Ok(()) => {}
            Err(_) => self.forget_frames(),
        }
    }

    // The frame of the reply.
    #[tactic(auto, unfolding(crate::specs::Replies::reply_of))]
    fn new_frame(&mut self, env: &RoundEnv, question: &Question) -> Result<List<u8>, NoMemory>
        ensures value { IfOk result (λ bytes. bytes ≡ frame_of self.old env.now.roots question.now) }
        ensures kept { self.new ≡ self.old }
    {
        let given = self.reply(env, question)?;
        let bytes = framed(self.alloc, given)?;
        Ok(bytes)
    }

    /// The bytes of the frame of the reply, as they are sent: of a question that was asked before those that were sent
    /// then, where they are remembered. The only error is `NoMemory`.
    pub fn frame(&mut self, env: &RoundEnv, question: &Question) -> Result<List<u8>, NoMemory>
        ensures value { IfOk result
            (λ bytes. bytes ≡ spelling (frames.Reply (reply_of self.old env.now.roots question.now))) }
        ensures kept { self.new ≡ self.old }
    {
        if let Some(bytes) = self.known_frame(env, question) {
            return Ok(bytes);
        }
        let bytes = self.new_frame(env, question)?;
        self.remember(env, question, &bytes);
        Ok(bytes)
    }
}
