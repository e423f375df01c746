// The search by levels of supertypes: each question that is asked gets its answers with no level, with one,
// and so on, until all of them are steady.
ghost use Rattle.std.specs.Prelude.{◌≡◌, ◌+◌, ◌<◌, true, false, length, take, filter, nat_lt, vec_len, IfErr, OnErr};
ghost use Rattle.name_resolve.specs.Remembered.{IsQuestion, AreQuestions, IsWanted, AreRight, AreSteady, IsNext, IsNextAnswer, AreUnsettled, Stays, KeepsFront};

use crate::finds::Finds;
use crate::member_types::{MemberTypes, Settled, key_of};
use crate::memory::{Question, Stop, Wanted};
use apt_base::{MAX_TYPE_STEPS, NoMemory};
use call_effort::Effort;

/// The levels of supertypes through which a look-up goes.
pub(crate) const LEVELS: usize = MAX_TYPE_STEPS as usize;

// How many questions are remembered at most from one look-up to the next one.
const MOST_KEPT: usize = 32_768;

// How many there are at most: those that are remembered, and 65,536 more of one look-up.
const MOST_QUESTIONS: usize = 98_304;

impl<'a> MemberTypes<'a> {
    // Asks a question, unless it was asked before. Its type declares none of the name, so that nothing is
    // found without any level. Out of memory beyond 98,304 questions.
    fn ask(&mut self, wanted: Wanted<'a>) -> Result<(), NoMemory>
        requires wanted { IsQuestion self.old.table.now wanted }
        requires right { AreRight self.old }
        ensures right { AreRight self.new }
        ensures stays { Stays self.old self.new }
        ensures front { KeepsFront self.old self.new (vec_len self.old.questions) }
    {
        let Wanted { of, name } = wanted;
        let place = self.questions.len();
        if place >= MOST_QUESTIONS {
            return Err(NoMemory);
        }
        let key = key_of(self.alloc, &of, name.as_str())?;
        if self.places.contains_key(key.as_str()) {
            return Ok(());
        }
        let answers = vec![in self.alloc; Finds::Nothing]?;
        self.questions.push(Question { of, name, answers })?;
        self.places.insert(key, place)?;
        Ok(())
    }

    // Asks those of these questions that were not asked before.
    fn ask_all(&mut self, all: Vec<Wanted<'a>>) -> Result<(), NoMemory>
        requires wanted { AreQuestions self.old.table.now all.items }
        requires right { AreRight self.old }
        ensures right { AreRight self.new }
        ensures stays { Stays self.old self.new }
        ensures front { KeepsFront self.old self.new (vec_len self.old.questions) }
    {
        for wanted in all {
            self.ask(wanted)?;
        }
        Ok(())
    }

    // What is found of a question with one level more than in its last answer.
    fn next_answer(&self, place: usize, effort: &mut Effort) -> Result<Finds<'a>, Stop<'a>>
        requires known { place < length self.now.questions.items }
        requires right { AreRight self.now }
        ensures value { IsNext self.now place result }
        ensures wanted { IfErr result (IsWanted self.now.table.now) }
    {
        let question = &self.questions[place];
        let Some(levels) = question.answers.len().checked_sub(1) else {
            return Err(Stop::Memory);
        };
        let finds = self.inherited(levels, &question.of, question.name.as_str(), effort)?;
        Ok(finds)
    }

    // Gives a question its next answer.
    fn add_answer(&mut self, place: usize, finds: Finds<'a>) -> Result<(), NoMemory>
        requires known { place < length self.old.questions.items }
        requires unsettled { AreUnsettled self.old place }
        requires right { AreRight self.old }
        requires next { IsNextAnswer self.old place finds }
        ensures right { AreRight self.new }
        ensures stays { Stays self.old self.new }
        ensures front { KeepsFront self.old self.new place }
    {
        self.questions[place].answers.push(finds)?;
        Ok(())
    }

    // Gives the questions from a place on their answers with up to this many levels. What these ask for is
    // asked, and gets its own answers before. Those in front of the place stay as they are.
    #[cycle(answering)]
    fn answer_from(
        &mut self,
        first: usize,
        levels: usize,
        effort: &mut Effort,
    ) -> Result<(), NoMemory>
        requires unsettled { AreUnsettled self.old first }
        requires right { AreRight self.old }
        ensures right { AreRight self.new }
        ensures stays { Stays self.old self.new }
        ensures front { KeepsFront self.old self.new first }
    {
        let mut place = first;
        for _ in 0..usize::MAX {
            if place >= self.questions.len() {
                return Ok(());
            }
            if self.questions[place].answers.len() > levels {
                place += 1;
                continue;
            }
            self.answer_next(place, levels, effort)?;
        }
        Err(NoMemory)
    }

    // Gives a question its next answer, which is one with up to this many levels; or asks what that one needs
    // and gives this its answers with fewer levels.
    #[cycle(answering)]
    fn answer_next(
        &mut self,
        place: usize,
        levels: usize,
        effort: &mut Effort,
    ) -> Result<(), NoMemory>
        requires known { place < length self.old.questions.items }
        requires unsettled { AreUnsettled self.old place }
        requires right { AreRight self.old }
        ensures right { AreRight self.new }
        ensures stays { Stays self.old self.new }
        ensures front { KeepsFront self.old self.new place }
    {
        match self.next_answer(place, effort) {
            Ok(finds) => self.add_answer(place, finds),
            Err(Stop::Memory) => Err(NoMemory),
            Err(Stop::Wanted(wanted)) => self.ask_below(wanted, levels, effort),
        }
    }

    // Asks questions, and gives them their answers with fewer levels than this.
    #[cycle(answering)]
    fn ask_below(
        &mut self,
        wanted: Vec<Wanted<'a>>,
        levels: usize,
        effort: &mut Effort,
    ) -> Result<(), NoMemory>
        requires wanted { AreQuestions self.old.table.now wanted.items }
        requires right { AreRight self.old }
        ensures right { AreRight self.new }
        ensures stays { Stays self.old self.new }
        ensures front { KeepsFront self.old self.new (vec_len self.old.questions) }
    {
        let place = self.questions.len();
        self.ask_all(wanted)?;
        for fewer in 1..levels {
            self.answer_from(place, fewer, effort)?;
        }
        Ok(())
    }

    // Whether the same is found of each question with a number of levels and with the next one, and of those
    // that are settled with all from the first number on. Only those that are not settled are looked at.
    fn are_steady(&self, fewer: usize, levels: usize) -> bool
        ensures { result ≡ true → AreSteady self.now fewer levels }
    {
        if fewer < self.settled.levels {
            return false;
        }
        for place in self.settled.count..self.questions.len() {
            let question = &self.questions[place];
            if !question.is_steady(fewer, levels) {
                return false;
            }
        }
        true
    }

    // Settles all questions where they are steady, as then the same is found with all further levels; or
    // tells that they are not.
    fn settle(&mut self, fewer: usize, levels: usize) -> bool
        requires next { levels ≡ fewer + 1 }
        requires right { AreRight self.old }
        ensures right { AreRight self.new }
        ensures table { self.new.table.now ≡ self.old.table.now }
        ensures questions { self.new.questions.items ≡ self.old.questions.items }
        ensures unsettled { result ≡ false → self.new.settled ≡ self.old.settled }
    {
        if !self.are_steady(fewer, levels) {
            return false;
        }
        let count = self.questions.len();
        self.settled = Settled {
            count,
            levels: fewer,
        };
        true
    }

    // Asks questions and gives them their answers, as `learn` does. Where it runs out of memory those that
    // were asked before are as they were, and none of the new ones is settled.
    fn search(&mut self, wanted: Vec<Wanted<'a>>, effort: &mut Effort) -> Result<(), NoMemory>
        requires wanted { AreQuestions self.old.table.now wanted.items }
        requires right { AreRight self.old }
        ensures right { AreRight self.new }
        ensures table { self.new.table.now ≡ self.old.table.now }
        ensures front { KeepsFront self.old self.new (vec_len self.old.questions) }
        ensures unsettled { OnErr result (self.new.settled ≡ self.old.settled) }
    {
        let first = self.questions.len();
        self.ask_all(wanted)?;
        for fewer in 0..LEVELS {
            self.answer_from(first, fewer + 1, effort)?;
            if self.settle(fewer, fewer + 1) {
                return Ok(());
            }
        }
        Ok(())
    }

    // Forgets the questions from a place on, and where they stand.
    fn forget_from(&mut self, place: usize)
        ensures questions { self.new.questions.items ≡ take place self.old.questions.items }
        ensures places { self.new.places.entries ≡ filter (λ e. nat_lt e.1 place) self.old.places.entries }
        ensures stays { Stays self.old self.new }
    {
        self.questions.truncate(place);
        self.places.retain(|_, at| *at < place);
    }

    /// Whether at most 32,768 questions are remembered, and all of them are settled: a question that never is
    /// takes all later searches through 64 levels. It takes no memory.
    pub(crate) fn are_few(&self) -> bool {
        self.questions.len() <= MOST_KEPT && self.settled.count == self.questions.len()
    }

    /// Asks questions that were not asked before, and gives them and all that they ask for in turn their
    /// answers: with no level, with one and so on, until none of them changes any more or all 64 levels are
    /// gone through. Out of memory beyond 98,304 questions, or where the look-up has no steps left: then all
    /// that was asked is forgotten again, so that no question is left with too few answers.
    pub(crate) fn learn(
        &mut self,
        wanted: Vec<Wanted<'a>>,
        effort: &mut Effort,
    ) -> Result<(), NoMemory>
        requires wanted { AreQuestions self.old.table.now wanted.items }
        requires right { AreRight self.old }
        ensures right { AreRight self.new }
        ensures table { self.new.table.now ≡ self.old.table.now }
        ensures forgotten { OnErr result (self.new.questions.items ≡ self.old.questions.items) }
    {
        let first = self.questions.len();
        match self.search(wanted, effort) {
            Ok(()) => Ok(()),
            Err(fault) => {
                self.forget_from(first);
                Err(fault)
            }
        }
    }
}
