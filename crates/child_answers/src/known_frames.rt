// The frames of replies to earlier questions.
ghost use Rattle.std.specs.Prelude.{◌≡◌, true, [], IsTrue, IfSome, OnOk};
ghost use Rattle.child_answers.specs.Remembered.{depends_on_roots, frame_of, AreFrames, IsFrame, ReadAlike};

use crate::digest::{Digest, digest_of};
use crate::places::{MOST_STEPS, Place, Places};
use crate::same_question::{are_same_names, is_same_question};
use apt_base::{List, Name, NoMemory, copy_names};
use element_table::Table;
use frame_forms::NameQuestion;
use std::alloc::Global;
use std::mem;
use wire_frames::Question;

/// How many frames are remembered at most.
pub const MOST_FRAMES: usize = 65_536;

/// How many bytes they and their questions are counted as at most.
pub const MOST_FRAME_BYTES: usize = 67_108_864;

// As how many bytes one of them is counted at most, with its question.
const MOST_OF_ONE: usize = 4_194_304;

/// A question, and the frame of its reply.
#[derive(Drop)]
pub(crate) struct KnownFrame {
    pub question: Question,
    pub frame: List<u8>,
}

/// Such frames, for the roots of one round.
#[derive(Drop)]
pub(crate) struct KnownFrames {
    alloc: Global,
    roots: List<Name>,
    list: Vec<KnownFrame>,
    // Where each stands in the list, by the hash of its question.
    places: Places,
    // As how many bytes all of them are counted.
    size: usize,
}

/// Whether the reply to a question is one about the roots of the round.
#[tactic(auto, unfolding(crate::specs::Remembered::depends_on_roots))]
fn depends_on_roots(question: &Question) -> bool
    ensures { result ≡ depends_on_roots question.now }
{
    match question {
        Question::Name(NameQuestion::AnnotatedWith, _) => true,
        Question::Roots => true,
        _ => false,
    }
}

impl KnownFrames {
    /// Nothing is remembered yet. It takes no memory.
    pub fn new(alloc: Global) -> KnownFrames
        ensures { result.list.items ≡ [] }
    {
        KnownFrames {
            alloc,
            roots: List::new(alloc),
            list: Vec::new(alloc),
            places: Places::new(alloc),
            size: 0,
        }
    }

    // Whether the reply to a question is the same for these roots as for those that it has.
    #[tactic(auto, using(crate::proofs::RememberedFrames::alike))]
    fn is_of(&self, roots: &List<Name>, question: &Question) -> bool
        ensures { IsTrue result → ReadAlike self.now.roots roots.now question.now }
    {
        if !depends_on_roots(question) {
            return true;
        }
        are_same_names(self.roots.as_slice(), roots.as_slice())
    }

    // What stands at a place.
    fn at(&self, _table: &Table, place: Place) -> Option<&KnownFrame>
        requires { AreFrames _table.now self.now.roots self.now.list.items }
        ensures { IfSome result (λ known. IsFrame _table.now self.now.roots known.now) }
    {
        self.list.as_slice().get(place.number as usize)
    }

    // The frame at a place, if it is the one of this question.
    fn frame_at(&self, _table: &Table, place: Place, question: &Question) -> Option<&List<u8>>
        requires { AreFrames _table.now self.now.roots self.now.list.items }
        ensures { IfSome result (λ frame. frame.now ≡ frame_of _table.now self.now.roots question.now) }
    {
        let known = self.at(_table, place)?;
        if !is_same_question(&known.question, question) {
            return None;
        }
        Some(&known.frame)
    }

    // The frame of the question for the roots that it has.
    fn search(&self, _table: &Table, question: &Question) -> Option<&List<u8>>
        requires { AreFrames _table.now self.now.roots self.now.list.items }
        ensures { IfSome result (λ frame. frame.now ≡ frame_of _table.now self.now.roots question.now) }
    {
        let hash = digest_of(question).hash;
        for step in 0..MOST_STEPS {
            let Some(place) = self.places.get(hash, step) else {
                return None;
            };
            if place.hash == hash {
                if let Some(frame) = self.frame_at(_table, place, question) {
                    return Some(frame);
                }
            }
        }
        None
    }

    /// The frame of the reply to a question in a round with these roots, if it is remembered. It takes no memory, and
    /// looks at `MOST_STEPS` questions at most.
    pub fn find(&self, _table: &Table, roots: &List<Name>, question: &Question) -> Option<&List<u8>>
        requires { AreFrames _table.now self.now.roots self.now.list.items }
        ensures { IfSome result (λ frame. frame.now ≡ frame_of _table.now roots.now question.now) }
    {
        if !self.is_of(roots, question) {
            return None;
        }
        self.search(_table, question)
    }

    // Forgets all, and is of these roots.
    fn begin(&mut self, roots: &List<Name>) -> Result<(), NoMemory>
        ensures roots { OnOk result (self.new.roots ≡ roots.now) }
        ensures list { self.new.list.items ≡ [] }
    {
        self.list.clear();
        let places = mem::replace(&mut self.places, Places::new(self.alloc));
        drop(places);
        self.size = 0;
        let copy = copy_names(self.alloc, roots.as_slice())?;
        let former = mem::replace(&mut self.roots, copy);
        drop(former);
        Ok(())
    }

    // Whether another frame is remembered beside the ones that it has.
    fn has_room(&self, size: usize) -> bool {
        self.list.len() < MOST_FRAMES && self.size.saturating_add(size) <= MOST_FRAME_BYTES
    }

    // Adds a frame for the roots that it has.
    fn add(
        &mut self,
        _table: &Table,
        question: &Question,
        digest: Digest,
        frame: &List<u8>,
    ) -> Result<(), NoMemory>
        requires right { AreFrames _table.now self.old.roots self.old.list.items }
        requires frame { frame.now ≡ frame_of _table.now self.old.roots question.now }
        ensures { AreFrames _table.now self.new.roots self.new.list.items }
    {
        let hash = digest.hash;
        let number = u32::try_from(self.list.len()).map_err(|_| NoMemory)?;
        let known = KnownFrame {
            question: question.copy(self.alloc)?,
            frame: List::from_vec(Vec::from_slice(self.alloc, frame.as_slice())?),
        };
        self.list.push(known)?;
        self.size = self.size.saturating_add(digest.size);
        self.places.add(Place { hash, number })
    }

    // The same for these roots, to which it goes over.
    fn add_anew(
        &mut self,
        _table: &Table,
        roots: &List<Name>,
        question: &Question,
        digest: Digest,
        frame: &List<u8>,
    ) -> Result<(), NoMemory>
        requires { frame.now ≡ frame_of _table.now roots.now question.now }
        ensures { AreFrames _table.now self.new.roots self.new.list.items }
    {
        self.begin(roots)?;
        self.add(_table, question, digest, frame)
    }

    /// Remembers the frame of the reply to a question in a round with these roots, unless it is too large. Where there
    /// is no room for it, or where the others are for other roots and this one is about them, all are forgotten before.
    pub fn remember(
        &mut self,
        _table: &Table,
        roots: &List<Name>,
        question: &Question,
        frame: &List<u8>,
    ) -> Result<(), NoMemory>
        requires right { AreFrames _table.now self.old.roots self.old.list.items }
        requires frame { frame.now ≡ frame_of _table.now roots.now question.now }
        ensures { AreFrames _table.now self.new.roots self.new.list.items }
    {
        let Digest { hash, size } = digest_of(question);
        let size = size.saturating_add(frame.len());
        let digest = Digest { hash, size };
        if size > MOST_OF_ONE {
            return Ok(());
        }
        if self.list.is_empty() || !self.has_room(size) || !self.is_of(roots, question) {
            return self.add_anew(_table, roots, question, digest, frame);
        }
        self.add(_table, question, digest, frame)
    }
}
