// The top call.
ghost use Rattle.std.specs.Prelude.{◌≡◌, ◌≤◌, map, string_bytes};
ghost use Rattle.apt_outside.specs.Count.{Told};
ghost use Rattle.project_units.specs.Refusals.{BadWords};
ghost use Rattle.apt_host.specs.Words.{cut_at};
ghost use Rattle.apt_host.specs.Shown.{asked};
ghost use Rattle.project_reading.specs.Verdicts.{verdict, Refused, OrMemory, is_tree, is_sink, is_children, HasCause, HasSourceCause, is_finished};
ghost use Rattle.apt_host.specs.BuildEndings.{closed};
ghost use Rattle.apt_host.specs.Texts.{Finishes};
ghost use Rattle.apt_host.specs.Serving.{served};
ghost use Rattle.apt_host.specs.Calls.{Untouched, Unread, KeepsOthers, IsOwn, Does, AddsLine, Writes};

use crate::build::{Ending, build};
use crate::help::help;
use crate::report::refusal;
use crate::words::{Request, read_words};
use apt_outside::{Children, Fault, Sink, Source, Tree};
use local_children::{ServeFault, serve};
use project_reading::Status;
use std::alloc::Global;

fn status_of(outcome: Result<Ending, Status>) -> Status
    ensures { verdict result ≡ closed outcome }
{
    match outcome {
        Ok(Ending::Published) => Status::Done,
        Ok(Ending::Errors { count }) => Status::Errors { count },
        Err(status) => status,
    }
}

fn status_of_child(outcome: Result<(), ServeFault>) -> Status
    ensures { verdict result ≡ served outcome }
{
    match outcome {
        Ok(()) => Status::Done,
        Err(ServeFault::SourceFault) => Status::SourceFault,
        Err(ServeFault::SinkFault) => Status::SinkFault,
        Err(ServeFault::Breach(breach)) => Status::HostBreach { breach },
        Err(ServeFault::Memory) => Status::Memory,
    }
}

// A build that ended with a report.
fn is_reported(status: &Status) -> bool
    ensures { result ≡ is_finished (verdict status.now) }
{
    match status {
        Status::Done | Status::Errors { .. } => true,
        _ => false,
    }
}

/// Writes the line of a refusal.
fn finish<W: Sink>(alloc: Global, status: Status, output: &mut W) -> Status
    ensures status { Finishes (verdict status) (verdict result) }
    ensures later { W.faults output.old ≤ W.faults output.new }
    ensures line { AddsLine W.Sink output.old output.new result }
{
    if is_reported(&status) {
        return status;
    }
    let Ok(line) = refusal(alloc, &status) else {
        return Status::Memory;
    };
    match output.write_all(line.as_bytes()) {
        Err(Fault::Memory) => Status::Memory,
        _ => status,
    }
}

/// Does what the words say over a tree of files, children, a source and a sink. It has no condition.
///
/// There are three commands. `build`, behind which `--full` may stand once and any number of options `KEY=VALUE`, reads
/// the configuration, `apt.json` with the file of services and that of kinds, and the `.java` files below `src` and
/// `stubs`. It runs the processors over them in rounds (JSR 269, `Processor` and `RoundEnvironment`), with these options
/// over those of `apt.json`, and publishes what they created and a report at once, or nothing. Where a processor printed
/// an error the report is written alone. After any other status but success a line says what was refused. After any
/// status but success the former output stands.
///
/// `serve`, behind which the name of a processor stands that the program has itself, is a child of another host: it
/// reads that host's frames from the source until it ends, and writes its own to the sink, and nothing else. It succeeds
/// where the source ends between two frames, the first of which came.
///
/// `help` writes the table of words. Any other words are refused with the position of the first that no line of the table
/// has there.
pub fn run<T: Tree, C: Children, R: Source, W: Sink>(
    alloc: Global,
    words: &[String],
    tree: &mut T,
    children: &mut C,
    input: &mut R,
    output: &mut W,
) -> Status
    // What all commands keep to.
    //
    // A fault of an object comes only where its count rose, and no count falls.
    ensures tree_cause { HasCause is_tree (verdict result) (T.faults tree.old) (T.faults tree.new) }
    ensures children { HasCause is_children (verdict result) (C.faults children.old) (C.faults children.new) }
    ensures source_cause { HasSourceCause (verdict result) (R.faults input.old) (R.faults input.new) }
    ensures sink_cause { HasCause is_sink (verdict result) (W.faults output.old) (W.faults output.new) }

    // `build` alone touches the tree and the children, and changes no file outside `out`. `serve` alone touches the source.
    ensures untouched { Untouched (asked words.now) tree.old tree.new children.old children.new }
    ensures input { Unread (asked words.now) input.old input.new }
    ensures outside { KeepsOthers T.Tree (asked words.now) tree.old tree.new }

    // Every child that was started is stopped, and what the programs of the children say is not changed.
    ensures live { (C.state children.new).live ≡ (C.state children.old).live }
    ensures says { Told C.tells ((C.state children.new).says ≡ (C.state children.old).says) }

    // The answer is one of the command's. Words that are no command are answered as such, or by out of memory.
    ensures own { IsOwn (asked words.now) result }

    // What is written is the text of the command, or a front of it, and then the line of the status; but for `serve`. The text
    // of a build is the clean build's report, which begins with the number of starts. Wherever anything of it stands, the store
    // files of the build stand, whatever the answer. The text of `help` is the table of words.
    ensures written { Writes T.Tree C.Children W.Sink (asked words.now)
        tree.old tree.new children.old children.new output.old output.new result }

    // What the command does. The answer of a build, what it publishes and what it shows to children are the clean build's:
    // `Builds` has each of that. What `serve` writes is what its processor says to the bytes that it read, and its answer how a
    // session over them ends: `ServesFor`.
    ensures does { Does T.Tree C.Children R.Source W.Sink (asked words.now)
        tree.old tree.new children.old children.new input.old input.new output.old output.new result }
{
    match read_words(alloc, words) {
        Ok(Request::Build { options }) => {
            let outcome = build(alloc, &options, tree, children, output);
            finish(alloc, status_of(outcome), output)
        }
        Ok(Request::Serve { local }) => {
            let outcome = serve(alloc, local, input, output);
            status_of_child(outcome)
        }
        Ok(Request::Help) => {
            let status = help(output);
            finish(alloc, status, output)
        }
        Ok(Request::Bad { at }) => finish(alloc, Status::BadWords { at }, output),
        Err(_) => finish(alloc, Status::Memory, output),
    }
}

/// The refusal of a command line with a word that is not UTF-8, where `words` are the words before it. The place,
/// counted from 0, is that of the first word that no command has there: one of `words`, or else the word that is not
/// UTF-8.
pub fn refuse_cut_words<W: Sink>(alloc: Global, words: &[String], output: &mut W) -> Status
    ensures answer { OrMemory (Refused (BadWords (cut_at (map string_bytes words.now)))) (verdict result) }
    ensures later { W.faults output.old ≤ W.faults output.new }
    ensures line { AddsLine W.Sink output.old output.new result }
{
    let count = words.len() as u64;
    let at = match read_words(alloc, words) {
        Ok(Request::Bad { at }) => at.min(count),
        Ok(Request::Build { .. } | Request::Serve { .. } | Request::Help) => count,
        Err(_) => return finish(alloc, Status::Memory, output),
    };
    finish(alloc, Status::BadWords { at }, output)
}
