// The clean run over a project.
ghost use Rattle.std.specs.Prelude.{◌≡◌, ◌≤◌, [], length, IfOk, IfErr};
ghost use Rattle.std.specs.List.Sorted.{IsStrictlyIncreasing};
ghost use Rattle.apt_base.specs.Limits.{max_processors};
ghost use Rattle.apt_outside.specs.Count.{Told};
ghost use Rattle.project_units.specs.Faults.{HasReason, stop_of};
ghost use Rattle.round_engine.specs.Run.{new_filings, none_asked};
ghost use Rattle.round_engine.specs.Clean.{AreNumbered, Closes, Has, HasEachHello, NamesProcessor, Starts, Tries, CleansOver};
ghost use Rattle.round_engine.specs.Shown.{AreListed, CountsTries, IsDueStop, rounds_of_none};
ghost use Rattle.round_engine.specs.Moments.{Over};

use crate::beginning::{Discovered, begin_all, end_all};
use crate::copies::{copy_hellos, copy_past, copy_processed};
use crate::messages::{copy_messages, count_errors, count_warnings};
use crate::numbering::{Made, copy_files, number_files};
use crate::progress::Progress;
use crate::remembering::ended_round;
use crate::rounds::{PastRound, Round, Rounds, first_round, show_rounds};
use apt_base::{List, Name, NoMemory, copy_names};
use apt_filer::{Filer, Placed};
use apt_outside::Children;
use project_units::{Project, Refusal, files_among, unit_names};
use run_entries::Processed;
use std::alloc::Global;
use unit_locations::LocatedTable;
use wire_frames::Hello;

/// What a run came to that was not refused.
#[derive(Drop)]
pub struct Finished {
    /// How many errors were printed. Where there is one, nothing is published.
    pub errors: u64,
    /// How many warnings and mandatory warnings were printed, and how many sources of the last round are not read.
    pub warnings: u64,
    /// How many rounds there were, the last included.
    pub rounds: u32,
    /// How many children were started.
    pub started: u32,
    /// The files, ascending by path.
    pub files: List<Made>,
    /// The messages, in the order of a report.
    pub messages: List<Placed>,
    /// The names of the sources that were created in the last round, ascending.
    pub unread: List<Name>,
    /// The units of the last round with their locations: those of the project, and those of the sources that were created in
    /// earlier rounds and entered.
    pub table: LocatedTable,
    /// What each processor said of itself, in the order of discovery.
    pub hellos: List<Hello>,
    /// All rounds, the last included.
    pub past: List<PastRound>,
    /// What each processor did in each round in which it was asked, by round and then in the order of discovery.
    pub processed: List<Processed>,
}

impl Finished {
    /// An equal run.
    pub fn copy(&self, alloc: Global) -> Result<Finished, NoMemory>
        ensures { IfOk result (λ finished. finished ≡ self.now) }
    {
        Ok(Finished {
            errors: self.errors,
            warnings: self.warnings,
            rounds: self.rounds,
            started: self.started,
            files: copy_files(alloc, self.files.as_slice())?,
            messages: copy_messages(alloc, self.messages.as_slice())?,
            unread: copy_names(alloc, self.unread.as_slice())?,
            table: self.table.copy(alloc)?,
            hellos: copy_hellos(alloc, self.hellos.as_slice())?,
            past: copy_past(alloc, self.past.as_slice())?,
            processed: copy_processed(alloc, self.processed.as_slice())?,
        })
    }
}

// How far a run is before anything was created or printed.
fn first_progress(alloc: Global, project: &Project) -> Result<Progress, NoMemory>
    ensures contributed { IfOk result (λ p. p.contributed.items ≡ none_asked project.now.key.processors) }
    ensures filer { IfOk result (λ p. p.filer ≡ new_filings project.now.initial) }
    ensures messages { IfOk result (λ p. p.messages ≡ []) }
    ensures processed { IfOk result (λ p. p.processed ≡ []) }
    ensures past { IfOk result (λ p. p.past ≡ []) }
{
    let names = unit_names(alloc, &project.initial)?;
    Ok(Progress {
        contributed: vec![in alloc; false; project.key.processors.len()]?,
        filer: Filer::new(alloc, names.as_slice())?,
        messages: List::new(alloc),
        processed: List::new(alloc),
        past: List::new(alloc),
    })
}

// What two rounds over a table come to in which nobody is asked.
fn no_rounds(alloc: Global, project: &LocatedTable) -> Result<Rounds, NoMemory>
    ensures { IfOk result (λ rounds. rounds ≡ rounds_of_none project.now) }
{
    let first = first_round(alloc, project)?;
    let mut past = List::new(alloc);
    past.push(ended_round(alloc, &first)?)?;
    let last = Round {
        number: 2,
        over: true,
        error: false,
        table: first.table,
        roots: List::new(alloc),
    };
    past.push(ended_round(alloc, &last)?)?;
    Ok(Rounds {
        count: last.number,
        made: List::new(alloc),
        messages: List::new(alloc),
        unread: List::new(alloc),
        table: last.table,
        processed: List::new(alloc),
        past,
    })
}

// How many children a run has.
fn count_of(run: &Discovered) -> u32
    requires { AreListed run.now }
    ensures { result ≡ length run.now.group }
{
    run.group.len() as u32
}

/// What a run has of what was made, where its processors said these Hellos.
fn finish_run(
    alloc: Global,
    taken: &[u32],
    started: u32,
    hellos: List<Hello>,
    rounds: Rounds,
) -> Result<Finished, NoMemory>
    requires ascending { IsStrictlyIncreasing taken.now }
    ensures is { IfOk result (Closes rounds started hellos) }
    ensures numbered { IfOk result (λ finished. AreNumbered taken.now finished.files) }
    ensures has { IfOk result (Has rounds.made) }
{
    let errors = count_errors(rounds.messages.as_slice());
    let warnings = count_warnings(rounds.messages.as_slice());
    let warnings = warnings
        .checked_add(rounds.unread.len() as u64)
        .ok_or(NoMemory)?;
    let files = number_files(alloc, taken, files_among(alloc, rounds.made)?)?;
    Ok(Finished {
        errors,
        warnings,
        rounds: rounds.count,
        started,
        files,
        messages: rounds.messages,
        unread: rounds.unread,
        table: rounds.table,
        hellos,
        past: rounds.past,
        processed: rounds.processed,
    })
}

// What a run over a project comes to in which nobody is asked.
fn finish_none(alloc: Global, project: &LocatedTable, taken: &[u32]) -> Result<Finished, NoMemory>
    requires ascending { IsStrictlyIncreasing taken.now }
    ensures is { IfOk result (Closes (rounds_of_none project.now) 0 []) }
    ensures numbered { IfOk result (λ finished. AreNumbered taken.now finished.files) }
    ensures has { IfOk result (Has []) }
{
    let rounds = no_rounds(alloc, project)?;
    finish_run(alloc, taken, 0, List::new(alloc), rounds)
}

/// Runs the rounds over a project, from nothing, with at most 64 processors. All processors are started before round 1, in
/// order, and stopped after the last. A file gets the least number that is neither taken nor an earlier file's; the taken
/// numbers ascend.
///
/// A fault of the children comes only where their count rose. Out of memory may come at any point, and each other refusal comes
/// exactly where the run has it (JSR 269, `Processor`, `RoundEnvironment` and `Filer`). However the call ends, the new children are
/// those of the processors, in order. Each was sent the frames that the run sends it, up to some point, and nothing else. After a
/// fault of the children this may fail for one child, that of the processor that the fault names: the children do not say what
/// became of a frame whose sending failed.
pub fn clean<C: Children>(
    alloc: Global,
    project: &Project,
    taken: &[u32],
    children: &mut C,
) -> Result<Finished, Refusal>
    requires few { length project.now.key.processors ≤ max_processors }
    requires ascending { IsStrictlyIncreasing taken.now }
    ensures reason { HasReason (C.faults children.old) (C.faults children.new) result }
    ensures starts { Starts project.now.key result (C.state children.old) (C.state children.new) }
    ensures started { IfOk result (λ finished. finished.started ≡ length project.now.key.processors) }
    ensures live { (C.state children.new).live ≡ (C.state children.old).live }
    ensures says { Told C.tells ((C.state children.new).says ≡ (C.state children.old).says) }
    ensures counted { Over C.Children children.old children.new (CountsTries result) }
    ensures tried { Over C.Children children.old children.new (Tries project.now.key) }
    ensures numbered { IfOk result (λ finished. AreNumbered taken.now finished.files) }
    ensures named { NamesProcessor project.now.key result }
    ensures due { IfErr result (λ refusal. IsDueStop (stop_of refusal)) }
    ensures cleans { CleansOver C.Children project.now children.old children.new result }
    ensures hellos { IfOk result (HasEachHello project.now.key) }
{
    let progress = first_progress(alloc, project)?;
    let processors = project.key.processors.len();
    if processors == 0 {
        // nobody is asked in the two rounds, whatever the children tell
        return Ok(finish_none(alloc, &project.initial, taken)?);
    }
    let run = begin_all(alloc, children, &project.key)?;
    let outcome = show_rounds(alloc, children, &run, &project.initial, progress);
    let started = count_of(&run);
    end_all(children, run.group);
    match outcome {
        Err(refusal) => Err(refusal),
        Ok(rounds) => Ok(finish_run(alloc, taken, started, run.hellos, rounds)?),
    }
}
