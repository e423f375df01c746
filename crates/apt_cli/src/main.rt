//! The program: it gives `run` the files of the current folder, child programs over pipes, and the standard input and output.
//!
//! This crate has all of the host that calls the system. It is proved that the objects keep the counts of their failures
//! and the lists of their children. No contract says what a file, a pipe or a stream gives or takes, nor which lines are
//! written to the standard error. That is tested by the programs in `tests/`.
#![tactic(auto)]

mod disk_tree;
mod faults;
mod files;
mod folders;
mod messages;
mod pipe_children;
mod refusals;
mod standard;
mod words;

use apt_host::{Status, refuse_cut_words, run};
use apt_outside::Sink;
use disk_tree::DiskTree;
use pipe_children::PipeChildren;
use refusals::{say_ending, say_usage};
use standard::{StdinSource, StdoutSink, fill_closed_streams};
use std::alloc::Global;
use std::io::Stderr;
use std::process::{ExitCode, Processes, SystemProcess};
use std::rt::Files;
use words::{Words, read_words};

/// Does what the words say in the current folder.
fn call<R: Files + AllocGlobal + Input + Processes<Started = SystemProcess>, W: Sink>(
    alloc: Global,
    rt: &R,
    messages: Stderr,
    words: &[String],
    output: &mut W,
) -> Status {
    let mut tree = DiskTree::new(rt, messages);
    let mut children = PipeChildren::new(alloc, rt, messages);
    let mut input = StdinSource::new(rt.reader(), messages);
    let status = run(alloc, words, &mut tree, &mut children, &mut input, output);
    say_ending(rt, messages, words, &status, &children.talk);
    status
}

/// The refusal of words of which the next one is no text.
fn refuse_cut<W: Sink>(
    alloc: Global,
    messages: Stderr,
    words: &[String],
    output: &mut W,
) -> Status {
    let status = refuse_cut_words(alloc, words, output);
    say_usage(messages);
    status
}

/// The refusal where there is no memory for the words.
fn refuse_memory<W: Sink>(output: &mut W) -> Status {
    let _ = output.write_all(b"refused: Memory\n");
    Status::Memory
}

fn main(rt: HostRuntime) -> ExitCode {
    let alloc = rt.alloc();
    let _closed = fill_closed_streams(&rt);
    let mut output = StdoutSink::new(rt.stdout(), rt.stderr());
    let status = match read_words(alloc, &rt) {
        Ok(Words::Whole(words)) => call(alloc, &rt, rt.stderr(), &words, &mut output),
        Ok(Words::Cut(words)) => refuse_cut(alloc, rt.stderr(), &words, &mut output),
        Err(_) => refuse_memory(&mut output),
    };
    ExitCode::from(status.code())
}
