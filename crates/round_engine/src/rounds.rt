// The rounds of a run.
ghost use Rattle.std.specs.Prelude.{◌≡◌, ◌||◌, not, IfOk, IfErr, drop, true, false, []};
ghost use Rattle.project_units.specs.Refusals.{NamesAmong};
ghost use Rattle.project_units.specs.Faults.{stop_of, HasReason};
ghost use Rattle.project_units.specs.Units.{all_of};
ghost use Rattle.project_units.specs.Creations.{creates_source};
ghost use Rattle.round_engine.specs.Run.{next_of};
ghost use Rattle.round_engine.specs.Shown.{AreListed, HasEach, AllLive, AttendsAll, IsDueStop, rounds_until};
ghost use Rattle.round_engine.specs.Moments.{Over, EndsLast, EndsAll};

use crate::asking::ask_all;
use crate::beginning::Discovered;
use crate::messages::has_error;
use crate::progress::Progress;
use apt_base::{List, Name, NoMemory};
use apt_filer::{Filer, Placed, report_order};
use apt_outside::Children;
use element_table::Part;
use project_units::{Refusal, creates_source, enter_all, unread_among};
use run_entries::Processed;
use std::alloc::Global;
use unit_locations::LocatedTable;
use wire_frames::Creation;

// The most rounds of a run, the last included.
const MAX_ROUNDS: u32 = 64;

/// A round.
#[derive(Drop)]
pub struct Round {
    /// Its number, from 1.
    pub number: u32,
    /// Whether it is the last.
    pub over: bool,
    /// Whether an error was printed in the round before.
    pub error: bool,
    /// The units of the project, and of the sources that were created before, with their locations.
    pub table: LocatedTable,
    /// The names of its root units, ascending; the last round has none.
    pub roots: List<Name>,
}

/// What is remembered of a round that came to its end.
#[derive(Drop)]
pub struct PastRound {
    /// The names of its root units, ascending. They are the units that entered before it: before the first round the initial ones.
    pub roots: List<Name>,
    /// The names of the annotations that are present on its roots, ascending.
    pub present: List<Name>,
}

/// What the rounds of a run came to.
#[derive(Drop)]
pub struct Rounds {
    /// How many there were, the last included.
    pub count: u32,
    /// The files that were made, in order.
    pub made: List<Creation>,
    /// The messages, in the order of a report.
    pub messages: List<Placed>,
    /// The names of the sources that were created in the last round, ascending.
    pub unread: List<Name>,
    /// The table of the last round.
    pub table: LocatedTable,
    /// What each processor did in each round in which it was asked, in order.
    pub processed: List<Processed>,
    /// All rounds, the last included.
    pub past: List<PastRound>,
}

/// What was made since there were `count` files.
pub(crate) fn made_since(filer: &Filer, count: usize) -> &[Creation]
    ensures { result.now ≡ drop count filer.now.made }
{
    let made = filer.made();
    if count > made.len() {
        return &[];
    }
    &made[count..]
}

// What was printed since there were `count` messages.
fn printed_since(messages: &[Placed], count: usize) -> &[Placed]
    ensures { result.now ≡ drop count messages.now }
{
    if count > messages.len() {
        return &[];
    }
    &messages[count..]
}

// What the rounds come to of which this was the last, where there were `count` files before it.
fn rounds_until(
    alloc: Global,
    last: Round,
    count: usize,
    progress: Progress,
) -> Result<Rounds, NoMemory>
    ensures { IfOk result (λ rounds. rounds ≡ rounds_until last count progress) }
{
    let mut progress = progress;
    report_order(alloc, &mut progress.messages)?;
    let unread = unread_among(alloc, made_since(&progress.filer, count))?;
    Ok(Rounds {
        count: last.number,
        made: progress.filer.into_made(),
        messages: progress.messages,
        unread,
        table: last.table,
        processed: progress.processed,
        past: progress.past,
    })
}

/// The last round, and what the whole run comes to.
fn finish<C: Children>(
    alloc: Global,
    children: &mut C,
    run: &Discovered,
    last: Round,
    progress: Progress,
) -> Result<Rounds, Refusal>
    requires last { last.over ≡ true }
    requires none { last.roots ≡ [] }
    requires listed { AreListed run.now }
    requires each { HasEach run.now progress }
    requires lives { AllLive run.now.group (C.state children.old) }
    ensures reason { HasReason (C.faults children.old) (C.faults children.new) result }
    ensures named { IfErr result (λ refusal. NamesAmong run.now.names (stop_of refusal)) }
    ensures due { IfErr result (λ refusal. IsDueStop (stop_of refusal)) }
    ensures starts { (C.state children.new).starts ≡ (C.state children.old).starts }
    ensures live { (C.state children.new).live ≡ (C.state children.old).live }
    ensures attends { Over C.Children children.old children.new (AttendsAll run.now.group) }
    ensures ends { EndsLast C.Children run.now last progress children.old children.new result }
{
    let mut progress = progress;
    let count = progress.filer.made().len();
    ask_all(alloc, children, run, &last, &mut progress)?;
    Ok(rounds_until(alloc, last, count, progress)?)
}

// Whether the last round follows one in which an error was printed or not, and these files were made.
fn is_followed_by_last(error: bool, made: &[Creation]) -> bool
    ensures { result ≡ (error || not (creates_source made.now)) }
{
    error || !creates_source(made)
}

/// The first round over a table, of which all source units are roots.
pub(crate) fn first_round(alloc: Global, project: &LocatedTable) -> Result<Round, NoMemory>
    ensures { IfOk result (λ round. round ≡ next_of 1 (all_of project.now)) }
{
    Ok(Round {
        number: 1,
        over: false,
        error: false,
        table: project.copy(alloc)?,
        roots: project.table().names(alloc, Part::Source)?,
    })
}

/// Shows the processors all rounds from the first on. All source units of the project's table are the roots of round 1, and the
/// units of created sources enter a copy of it (JSR 269, `RoundEnvironment`).
pub fn show_rounds<C: Children>(
    alloc: Global,
    children: &mut C,
    run: &Discovered,
    project: &LocatedTable,
    progress: Progress,
) -> Result<Rounds, Refusal>
    requires listed { AreListed run.now }
    requires each { HasEach run.now progress }
    requires lives { AllLive run.now.group (C.state children.old) }
    ensures reason { HasReason (C.faults children.old) (C.faults children.new) result }
    ensures named { IfErr result (λ refusal. NamesAmong run.now.names (stop_of refusal)) }
    ensures due { IfErr result (λ refusal. IsDueStop (stop_of refusal)) }
    ensures starts { (C.state children.new).starts ≡ (C.state children.old).starts }
    ensures live { (C.state children.new).live ≡ (C.state children.old).live }
    ensures attends { Over C.Children children.old children.new (AttendsAll run.now.group) }
    ensures ends { EndsAll C.Children run.now project.now progress children.old children.new result }
{
    let mut progress = progress;
    let mut round = first_round(alloc, project)?;
    for number in 1..MAX_ROUNDS {
        let made = progress.filer.made().len();
        let printed = progress.messages.len();
        ask_all(alloc, children, run, &round, &mut progress)?;
        let error = has_error(printed_since(progress.messages.as_slice(), printed));
        if is_followed_by_last(error, made_since(&progress.filer, made)) {
            let last = Round {
                number: number + 1,
                over: true,
                error,
                table: round.table,
                roots: List::new(alloc),
            };
            return finish(alloc, children, run, last, progress);
        }
        let entered = enter_all(alloc, &mut round.table, made_since(&progress.filer, made))?;
        round.roots = entered;
        round.number = number + 1;
    }
    Err(Refusal::TooManyRounds)
}
