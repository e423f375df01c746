// A child with one of the processors, frame by frame.
ghost use Rattle.std.specs.Prelude.{◌≡◌, IfOk};
ghost use Rattle.local_procs.specs.Plans.{Ends, done, sendable};
ghost use Rattle.local_procs.specs.Says.{annotation_of, claim_of, options_of, hello_of, is_offered, after_roots, answer_by, goes, begins, step, Unbegun};
ghost use Rattle.local_procs.specs.Stages.{registry_plan};
ghost use Rattle.local_procs.specs.Walks.{plan_of_walk};
ghost use Rattle.local_procs.specs.Places.{at_of, shown, answer_of, stands_at, said_by, StaysLocal};

use crate::Local;
use crate::contents::{elements_in, frame_of_roots};
use crate::registry::{RegistryStage, RegistryStep, registers, registry_next};
use crate::walk::{Walk, walk_by, walk_on};
use apt_base::{Claim, List, Name, Names, NoMemory};
use frame_breaches::{Breach, stray};
use std::alloc::Global;
use wire_frames::{Frame, Hello, Refused, Reply, is_too_large};

/// Where a child stands.
#[derive(Drop)]
pub(crate) enum Place {
    /// Nothing came yet.
    Unbegun,
    /// Between rounds, with the names that it remembers.
    Rests(Names),
    /// It waits for the roots of its round.
    Roots,
    /// It goes from root to root.
    Walks(Walk),
    /// It is `registry`, and waits in its round.
    Registers(RegistryStage),
}

/// A frame that a child sends, and where it stands then.
pub(crate) type Said = (Frame, Place);

// The annotation that a processor supports.
fn annotation_of(local: Local) -> &'static str
    ensures { result.now ≡ annotation_of local }
{
    match local {
        Local::Builder => "apt.demo.Builder",
        Local::Checker => "apt.demo.Checked",
        Local::Chain => "apt.demo.Chain",
        Local::Registry => "apt.demo.Registered",
    }
}

fn claim_of(local: Local) -> Claim
    ensures { result ≡ claim_of local }
{
    match local {
        Local::Builder => Claim::Always,
        Local::Checker => Claim::Never,
        Local::Chain => Claim::Always,
        Local::Registry => Claim::Always,
    }
}

fn options_of(alloc: Global, local: Local) -> Result<List<Name>, NoMemory>
    ensures { IfOk result (λ options. options ≡ options_of local) }
{
    let mut options = List::new(alloc);
    match local {
        Local::Builder => {
            let isolating = Name::new(alloc, "org.gradle.annotation.processing.isolating")?;
            options.push(isolating)?;
            Ok(options)
        }
        Local::Checker => Ok(options),
        Local::Chain => Ok(options),
        Local::Registry => {
            let aggregating = Name::new(alloc, "org.gradle.annotation.processing.aggregating")?;
            options.push(aggregating)?;
            Ok(options)
        }
    }
}

fn hello_of(alloc: Global, local: Local) -> Result<Hello, NoMemory>
    ensures { IfOk result (λ hello. hello ≡ hello_of local) }
{
    let mut patterns = List::new(alloc);
    patterns.push(Name::new(alloc, annotation_of(local))?)?;
    Ok(Hello {
        patterns,
        options: options_of(alloc, local)?,
        claim: claim_of(local),
    })
}

fn is_offered(name: &str, offered: &[Name]) -> bool
    ensures { result ≡ is_offered name.now offered.now }
{
    for each in offered {
        if name == each.as_str() {
            return true;
        }
    }
    false
}

// The round is done, and these names are remembered.
fn done_with(local: Local, kept: Names) -> Said
    ensures { answer_of local result ≡ answer_by local (Ends kept) }
{
    match local {
        Local::Builder => (Frame::Done { claimed: true }, Place::Rests(kept)),
        Local::Checker => (Frame::Done { claimed: false }, Place::Rests(kept)),
        Local::Chain => (Frame::Done { claimed: true }, Place::Rests(kept)),
        Local::Registry => (Frame::Done { claimed: true }, Place::Rests(kept)),
    }
}

fn done(alloc: Global, local: Local) -> Said
    ensures { answer_of local result ≡ answer_by local done }
{
    done_with(local, Names::new(alloc))
}

// What is said by where the walk over the roots stands.
fn walking(alloc: Global, local: Local, walk: Option<(Frame, Walk)>) -> Said
    ensures { answer_of local result ≡ answer_by local (plan_of_walk local walk) }
{
    match walk {
        Some((frame, walk)) => (frame, Place::Walks(walk)),
        None => done(alloc, local),
    }
}

// What is said by what `registry` does next.
fn registering(local: Local, step: RegistryStep) -> Said
    ensures { answer_of local result ≡ answer_by local (registry_plan step) }
{
    match step {
        RegistryStep::Sends(frame, stage) => (frame, Place::Registers(stage)),
        RegistryStep::Ends(kept) => done_with(local, kept),
    }
}

#[tactic(auto, unfolding(crate::specs::Says::after_roots))]
fn after_roots(alloc: Global, local: Local, reply: &Reply) -> Result<Said, NoMemory>
    ensures { IfOk result (λ said. answer_of local said ≡ answer_by local (sendable (after_roots local reply.now))) }
{
    let roots = elements_in(alloc, reply)?;
    let walk = walk_on(alloc, local, roots, 0)?;
    Ok(walking(alloc, local, walk))
}

// A round of one that goes from root to root.
fn goes(alloc: Global, local: Local, there: bool) -> Result<Said, NoMemory>
    ensures { IfOk result (λ said. answer_of local said ≡ answer_by local (sendable (goes local there))) }
{
    if !there {
        return Ok(done(alloc, local));
    }
    let frame = frame_of_roots();
    if is_too_large(&frame) {
        drop(frame);
        return after_roots(alloc, local, &Reply::Refused(Refused::TooLarge));
    }
    Ok((frame, Place::Roots))
}

// A round that begins.
fn begins(
    alloc: Global,
    local: Local,
    offered: &[Name],
    over: bool,
    kept: Names,
) -> Result<Said, NoMemory>
    ensures { IfOk result (λ said. answer_of local said
        ≡ answer_by local (sendable (begins local (is_offered (annotation_of local) offered.now) over kept))) }
{
    let there = is_offered(annotation_of(local), offered);
    match local {
        Local::Registry => {
            let step = registers(alloc, there, over, kept)?;
            Ok(registering(local, step))
        }
        Local::Builder | Local::Checker | Local::Chain => {
            drop(kept);
            goes(alloc, local, there)
        }
    }
}

/// What a child answers to a frame of its host, and where it stands then. A frame that may not come where it stands is
/// the breach of its tag.
#[tactic(auto, unfolding(crate::specs::Says::step))]
pub(crate) fn answer(
    alloc: Global,
    local: Local,
    place: Place,
    frame: &Frame,
) -> Result<Result<Said, Breach>, NoMemory>
    ensures { IfOk result (λ said. shown local said ≡ step local (at_of local place) frame.now) }
{
    match (place, frame) {
        (Place::Unbegun, Frame::Init(_)) => {
            let hello = hello_of(alloc, local)?;
            Ok(Ok((Frame::Hello(hello), Place::Rests(Names::new(alloc)))))
        }
        (Place::Rests(kept), Frame::Round { over, offered, .. }) => {
            let said = begins(alloc, local, offered.as_slice(), *over, kept)?;
            Ok(Ok(said))
        }
        (Place::Roots, Frame::Reply(reply)) => Ok(Ok(after_roots(alloc, local, reply)?)),
        (Place::Walks(walk), Frame::Reply(reply)) => {
            let walk = walk_by(alloc, local, walk, reply)?;
            Ok(Ok(walking(alloc, local, walk)))
        }
        (Place::Registers(stage), Frame::Reply(reply)) => {
            let step = registry_next(alloc, stage, reply)?;
            Ok(Ok(registering(local, step)))
        }
        (place, frame) => {
            drop(place);
            Ok(Err(stray(frame)))
        }
    }
}

/// A child with one of the processors. Contracts see it by `specs/Places`: where it stands, and so what it says to each
/// frame that may come.
#[derive(Drop)]
pub struct Child {
    pub(crate) local: Local,
    pub(crate) place: Place,
}

impl Child {
    /// A child to which nothing came yet. It takes no memory.
    pub fn new(local: Local) -> Child
        ensures stands { stands_at result ≡ Unbegun }
        ensures local { result.local ≡ local }
    {
        Child {
            local,
            place: Place::Unbegun,
        }
    }

    /// What it answers to a frame of its host: one frame, and itself as it stands then. A frame that may not come where it
    /// stands is the breach of its tag. It fails only when memory runs out.
    pub fn answer(
        self,
        alloc: Global,
        frame: &Frame,
    ) -> Result<Result<(Frame, Child), Breach>, NoMemory>
        ensures said { IfOk result (λ said. said_by said ≡ step self.local (stands_at self) frame.now) }
        ensures same { IfOk result (StaysLocal self.local) }
    {
        let Child { local, place } = self;
        match answer(alloc, local, place, frame)? {
            Ok((frame, place)) => Ok(Ok((frame, Child { local, place }))),
            Err(breach) => Ok(Err(breach)),
        }
    }
}
