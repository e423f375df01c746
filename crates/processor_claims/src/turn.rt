// Who is asked in a round, one after another.
ghost use Rattle.std.specs.Prelude.{◌≡◌, ◌==◌, ◌&&◌, ◌<◌, ◌≤◌, ◌^◌, ℕ, Bool, List, true, false, [], not, length, filter, slice_set, if◌then◌else◌, IfOk, IfNone, IfSome, OnSome};
ghost use Rattle.apt_base.specs.Limits.{max_processors};
ghost use Rattle.processor_claims.specs.Patterns.{supports, supports_all};
ghost use Rattle.processor_claims.specs.Asked.{asked, offer_of, positions};
ghost use Rattle.processor_claims.specs.Turns.{offered, is_open, claimed_at, asks, waiting_count, with_asked, IsComing, IsWithin, IsOver, Asks, AsksNobody, TakesAnswer};
ghost use Rattle.processor_claims.specs.Candidates.{candidate_of, candidates_of};

use crate::supported::{supports, supports_all};
use crate::{Pattern, Supported};
use apt_base::{List, Name, NoMemory};
use std::alloc::Global;
use std::collections::VecDeque;

/// A processor that may be asked.
#[derive(Drop)]
pub(crate) struct Candidate {
    /// Its number in the order of discovery.
    number: u16,
    /// Whether it was asked in an earlier round.
    contributed: bool,
    /// Whether it supports `*`.
    supports_all: bool,
    /// The positions of the names that it supports, ascending.
    supported: List<u32>,
}

/// The processors that a round asks, one after another in the order of discovery (JSR 269, the discovery process).
///
/// `specs/Asked` says which processors are asked with which names, and `specs/Turns` how contracts see a turn while it is used: for each list of answers to come, the processors that are still to be asked with what each is offered.
#[derive(Drop)]
pub struct Turn {
    alloc: Global,
    // Those that were not gone through yet.
    waiting: VecDeque<Candidate>,
    // For each name that the round offers, whether it was not claimed.
    unclaimed: Vec<bool>,
    // Whether the empty set is offered and was not claimed.
    empty_set: bool,
    // What the one that is being asked was offered, and whether it supports `*`.
    offered: List<u32>,
    supports_all: bool,
}

// The names that a round offers.
fn names_to_offer(present: &List<Name>, last: bool) -> &[Name]
    ensures { result.now ≡ (offer_of present.now last).names }
{
    if last { &[] } else { present.as_slice() }
}

// Whether a round offers the empty set.
fn offers_empty_set(present: &List<Name>, last: bool) -> bool
    ensures { result ≡ (offer_of present.now last).empty_set }
{
    present.is_empty() && !last
}

fn supported_positions(
    alloc: Global,
    patterns: &[Pattern],
    names: &[Name],
) -> Result<List<u32>, NoMemory>
    requires { length names.now < 2 ^ 32 }
    ensures { IfOk result (λ list. list ≡ positions (supports patterns.now) 0 names.now) }
{
    let mut list = List::new(alloc);
    for (at, name) in names.iter().enumerate() {
        if supports(patterns, name) {
            list.push(at as u32)?;
        }
    }
    Ok(list)
}

fn candidate_for(
    alloc: Global,
    number: u16,
    processor: &Supported,
    contributed: bool,
    names: &[Name],
) -> Result<Candidate, NoMemory>
    requires { length names.now < 2 ^ 32 }
    ensures { IfOk result (λ candidate. candidate ≡ candidate_of names.now number processor.now contributed) }
{
    let patterns = processor.patterns.as_slice();
    Ok(Candidate {
        number,
        contributed,
        supports_all: supports_all(patterns),
        supported: supported_positions(alloc, patterns, names)?,
    })
}

fn candidates(
    alloc: Global,
    processors: &[Supported],
    contributed: &[bool],
    names: &[Name],
) -> Result<VecDeque<Candidate>, NoMemory>
    requires same { length processors.now ≡ length contributed.now }
    requires few { length processors.now ≤ max_processors }
    requires names { length names.now < 2 ^ 32 }
    ensures { IfOk result (λ list. list.items ≡ candidates_of names.now 0 processors.now contributed.now) }
{
    let mut list = VecDeque::new(alloc);
    for (number, processor) in processors.iter().enumerate() {
        let candidate = candidate_for(alloc, number as u16, processor, contributed[number], names)?;
        list.push_back(candidate)?;
    }
    Ok(list)
}

// The positions of the names that were not claimed.
fn unclaimed_of(unclaimed: &Vec<bool>, positions: List<u32>) -> List<u32>
    ensures { result ≡ filter (is_open unclaimed.now.items) positions }
{
    let mut positions = positions.into_vec();
    positions.retain(|at| unclaimed.get(*at as usize).copied().unwrap_or(false));
    List::from_vec(positions)
}

fn claim_one(unclaimed: &mut Vec<bool>, at: usize)
    ensures { unclaimed.new.items ≡ slice_set unclaimed.old.items at false }
{
    if at < unclaimed.len() {
        unclaimed[at] = false;
    }
}

fn claim(unclaimed: &mut Vec<bool>, positions: &[u32])
    ensures { unclaimed.new.items ≡ claimed_at positions.now unclaimed.old.items }
{
    for at in positions {
        claim_one(unclaimed, *at as usize);
    }
}

impl Turn {
    /// The turn of a round: `contributed` says which of the processors were asked in an earlier round, `present` are the present names, and `last` says whether it is the last round. Nobody is asked yet.
    ///
    /// What a processor declared of its claims plays no part: `next` takes the answer of each.
    pub fn new(
        alloc: Global,
        processors: &List<Supported>,
        contributed: &List<bool>,
        present: &List<Name>,
        last: bool,
    ) -> Result<Turn, NoMemory>
        requires same { length processors.now ≡ length contributed.now }
        requires few { length processors.now ≤ max_processors }
        requires names { length present.now < 2 ^ 32 }
        ensures coming { IfOk result (IsComing (asked processors.now contributed.now present.now last)) }
        ensures within { IfOk result (λ turn. IsWithin (length processors.now) (length present.now) turn) }
        ensures nothing { IfOk result (λ turn. offered turn ≡ []) }
        ensures waiting { IfOk result (λ turn. waiting_count turn ≡ length processors.now) }
    {
        let names = names_to_offer(present, last);
        Ok(Turn {
            alloc,
            waiting: candidates(alloc, processors.as_slice(), contributed.as_slice(), names)?,
            unclaimed: vec![in alloc; true; names.len()]?,
            empty_set: offers_empty_set(present, last),
            offered: List::new(alloc),
            supports_all: false,
        })
    }

    // Takes the answer of the one that is being asked.
    #[tactic(auto, unfolding(crate::specs::Turns::coming))]
    fn take_answer(&mut self, claimed: bool)
        ensures coming { TakesAnswer self.old claimed self.new }
        ensures waiting { waiting_count self.new ≡ waiting_count self.old }
    {
        if claimed {
            claim(&mut self.unclaimed, self.offered.as_slice());
            self.empty_set = self.empty_set && !self.supports_all;
        }
    }

    // Asks a candidate, or says that it is not asked.
    fn ask(&mut self, candidate: Candidate) -> bool
        ensures asks { result ≡ asks candidate self.old.unclaimed.items self.old.empty_set }
        ensures turn { self.new ≡ with_asked candidate self.old }
    {
        self.offered = unclaimed_of(&self.unclaimed, candidate.supported);
        self.supports_all = candidate.supports_all;
        !self.offered.is_empty() || candidate.contributed || (self.empty_set && self.supports_all)
    }

    /// The number of the processor that is asked next, or `None` exactly where no processor is left; every later call then gives `None` too. `claimed` is the answer of the one that was asked before; in the first call it has no meaning. It takes no memory.
    pub fn next(&mut self, claimed: bool) -> Option<u16>
        ensures nobody { IfNone result (AsksNobody self.old claimed) }
        ensures asks { IfSome result (λ number. Asks self.old claimed number self.new) }
        ensures over { IfNone result (IsOver self.new) }
        ensures fewer { OnSome result (waiting_count self.new < waiting_count self.old) }
    {
        self.take_answer(claimed);
        while let Some(candidate) = self.waiting.pop_front() {
            let number = candidate.number;
            if self.ask(candidate) {
                return Some(number);
            }
        }
        self.offered = List::new(self.alloc);
        None
    }

    /// The positions in the present names of those that are offered to the processor that is being asked, ascending. It takes no memory.
    pub fn offered(&self) -> &List<u32>
        ensures { result.now ≡ offered self.now }
    {
        &self.offered
    }
}
