// One build.
ghost use Rattle.std.specs.Prelude.{◌≡◌, ◌≢◌, ◌<◌, ◌≤◌, ◌^◌, All, IfOk, IfErr, length, map, true};
ghost use Rattle.std.specs.List.Sorted.{IsStrictlyIncreasing};
ghost use Rattle.apt_outside.specs.Count.{Told};
ghost use Rattle.project_units.specs.Plans.{names_in};
ghost use Rattle.round_engine.specs.Clean.{AreNumbered};
ghost use Rattle.tree_store.specs.Output.{SameOutside};
ghost use Rattle.apt_base.specs.Fields.{is_text};
ghost use Rattle.tree_store.specs.Storing.{AreDistinct, AreAbsent};
ghost use Rattle.project_reading.specs.Verdicts.{verdict, OrFree, is_tree, is_sink, is_children, HasCause};
ghost use Rattle.project_reading.specs.Endings.{ended, EndsEarly};
ghost use Rattle.apt_host.specs.BuildEndings.{closed, IsConcluded};
ghost use Rattle.apt_host.specs.Making.{concluded, RefusesRun};
ghost use Rattle.apt_host.specs.Listed.{numbered_of, finished_of, FitsEntry};
ghost use Rattle.apt_host.specs.Promises.{LeavesUndone, IsDue};
ghost use Rattle.apt_host.specs.Commands.{MayBuild};
ghost use Rattle.apt_host.specs.Builds.{Builds, Reports, UsesFor, Makes, PlacesMade, Tells};

use crate::publish::{publish, spell, tell_errors};
use crate::report::Summary;
use apt_base::{List, Name, NoMemory};
use apt_outside::{Children, Sink, Tree};
use project_reading::{Status, read_project};
use project_units::Project;
use record_forms::Key;
use round_engine::{Finished, Made, clean};
use std::alloc::Global;
use tree_store::taken_numbers;

/// How a build ends that was not refused.
#[derive(Clone, Copy, Debug, PartialEq, Eq)]
pub enum Ending {
    /// It is published.
    Published,
    /// This many errors were printed, and nothing is published.
    Errors {
        /// How many.
        count: u64,
    },
}

// The names of the processors of a key, in order.
fn names_of(alloc: Global, key: &Key) -> Result<List<Name>, NoMemory>
    ensures { IfOk result (λ names. names ≡ names_in key.now) }
{
    let mut names = List::new(alloc);
    for processor in key.processors.as_slice() {
        names.push(processor.name.copy()?)?;
    }
    Ok(names)
}

/// Runs the rounds over a project, and gives what they came to.
fn make<C: Children>(
    alloc: Global,
    project: &Project,
    taken: &List<u32>,
    children: &mut C,
) -> Result<Finished, Status>
    requires few { length project.now.key.processors ≤ 64 }
    requires ascending { IsStrictlyIncreasing taken.now }
    ensures cause { HasCause is_children (ended result) (C.faults children.old) (C.faults children.new) }
    ensures early { IfErr result (λ status. EndsEarly is_children (verdict status)) }
    ensures live { (C.state children.new).live ≡ (C.state children.old).live }
    ensures says { Told C.tells ((C.state children.new).says ≡ (C.state children.old).says) }
    ensures uses { UsesFor C.Children project.now children.old children.new result }
    ensures started { IfOk result (λ finished. finished.started ≡ length project.now.key.processors) }
    ensures due { IsDue (C.state children.old) (C.state children.new) (ended result) }
    ensures refused { RefusesRun (C.state children.old) (C.state children.new) (ended result) }
    ensures numbered { IfOk result (λ finished. AreNumbered taken.now finished.files) }
    ensures made { Makes C.Children project.now children.old children.new result }
{
    match clean(alloc, project, taken.as_slice(), children) {
        Ok(finished) => Ok(finished),
        Err(refusal) => Err(Status::from(refusal)),
    }
}

/// Publishes what a run came to whose files these are, or tells its errors.
fn conclude_with<T: Tree, W: Sink>(
    alloc: Global,
    names: &List<Name>,
    summary: &Summary,
    files: List<Made>,
    tree: &mut T,
    output: &mut W,
) -> Result<Ending, Status>
    requires count { length files < 2 ^ 32 }
    requires sizes { All FitsEntry files }
    requires texts { All (λ file. is_text file.path ≡ true) files }
    requires distinct { AreDistinct (map numbered_of files) }
    requires absent { Told T.tells (AreAbsent (T.files tree.old) (map numbered_of files)) }
    ensures tree_cause { HasCause is_tree (closed result) (T.faults tree.old) (T.faults tree.new) }
    ensures sink_cause { HasCause is_sink (closed result) (W.faults output.old) (W.faults output.new) }
    ensures concluded { IsConcluded (closed result) }
    ensures answer { OrFree (concluded (finished_of summary.now files)) (closed result) }
    ensures unstored { Told T.tells (summary.now.errors ≢ 0 → T.files tree.new ≡ T.files tree.old) }
    ensures placed { PlacesMade T.Tree (finished_of summary.now files) tree.old tree.new result }
    ensures leaves { Told T.tells (LeavesUndone (closed result) (T.files tree.old) (T.files tree.new)) }
    ensures outside { Told T.tells (SameOutside (T.files tree.old) (T.files tree.new)) }
    ensures written { Tells T.Tree W.Sink names.now (finished_of summary.now files)
        tree.old tree.new output.old output.new result }
{
    let errors = summary.errors;
    if errors > 0 {
        drop(files);
        tell_errors(alloc, names, summary, output)?;
        return Ok(Ending::Errors { count: errors });
    }
    let written = spell(alloc, names, summary, files)?;
    publish(alloc, tree, &written, output)?;
    Ok(Ending::Published)
}

// Publishes what a run came to, or tells its errors.
fn conclude<T: Tree, W: Sink>(
    alloc: Global,
    names: &List<Name>,
    finished: Finished,
    tree: &mut T,
    output: &mut W,
) -> Result<Ending, Status>
    requires count { length finished.files < 2 ^ 32 }
    requires sizes { All FitsEntry finished.files }
    requires texts { All (λ file. is_text file.path ≡ true) finished.files }
    requires distinct { AreDistinct (map numbered_of finished.files) }
    requires absent { Told T.tells (AreAbsent (T.files tree.old) (map numbered_of finished.files)) }
    ensures tree_cause { HasCause is_tree (closed result) (T.faults tree.old) (T.faults tree.new) }
    ensures sink_cause { HasCause is_sink (closed result) (W.faults output.old) (W.faults output.new) }
    ensures concluded { IsConcluded (closed result) }
    ensures answer { OrFree (concluded finished) (closed result) }
    ensures unstored { Told T.tells (finished.errors ≢ 0 → T.files tree.new ≡ T.files tree.old) }
    ensures placed { PlacesMade T.Tree finished tree.old tree.new result }
    ensures leaves { Told T.tells (LeavesUndone (closed result) (T.files tree.old) (T.files tree.new)) }
    ensures outside { Told T.tells (SameOutside (T.files tree.old) (T.files tree.new)) }
    ensures written { Tells T.Tree W.Sink names.now finished tree.old tree.new output.old output.new result }
{
    let Finished {
        errors,
        warnings,
        rounds,
        started,
        files,
        messages,
        unread,
        table,
        hellos,
        past,
        processed,
    } = finished;
    // the store has records of an older form yet
    drop(hellos);
    drop(past);
    drop(processed);
    let summary = Summary {
        started,
        rounds,
        errors,
        warnings,
        messages,
        unread,
        table,
    };
    let concluded = conclude_with(alloc, names, &summary, files, tree, output);
    drop(summary);
    concluded
}

/// One build with these options of the words: reads the project, lists the store, runs the rounds, and publishes what they made
/// or tells the errors.
pub fn build<T: Tree, C: Children, W: Sink>(
    alloc: Global,
    options: &List<(Name, Name)>,
    tree: &mut T,
    children: &mut C,
    output: &mut W,
) -> Result<Ending, Status>
    ensures tree_cause { HasCause is_tree (closed result) (T.faults tree.old) (T.faults tree.new) }
    ensures children { HasCause is_children (closed result) (C.faults children.old) (C.faults children.new) }
    ensures sink_cause { HasCause is_sink (closed result) (W.faults output.old) (W.faults output.new) }
    ensures live { (C.state children.new).live ≡ (C.state children.old).live }
    ensures says { Told C.tells ((C.state children.new).says ≡ (C.state children.old).says) }
    ensures outside { Told T.tells (SameOutside (T.files tree.old) (T.files tree.new)) }
    ensures own { MayBuild (closed result) }
    ensures builds { Builds T.Tree C.Children options.now tree.old tree.new children.old children.new result }
    ensures written { Reports T.Tree C.Children W.Sink options.now
        tree.old tree.new children.old children.new output.old output.new result }
{
    let project = read_project(alloc, options, tree)?;
    let names = names_of(alloc, &project.key)?;
    let taken = taken_numbers(alloc, tree)?;
    let finished = make(alloc, &project, &taken, children)?;
    conclude(alloc, &names, finished, tree, output)
}
