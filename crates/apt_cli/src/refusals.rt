// What is said of how a call ended, beside its line on the standard output.
use crate::files::read_front;
use apt_base::MAX_FILE_BYTES;
use apt_host::{Place, Refusal, Status};
use cli_messages::{Talk, say_item, say_java_fault, say_line, say_no_object};
use frame_breaches::Breach;
use std::alloc::Global;
use std::fs;
use std::io::{ErrorKind, Stderr};
use std::rt::Files;

/// The file of the configuration whose items are said by their places.
pub const CONFIGURATION: &str = "apt.json";

/// Says why the call ended, where there is more to say than its status. A line that can't be written, or for which
/// there is no memory, is left out.
pub fn say_ending<R: Files + AllocGlobal>(
    rt: &R,
    messages: Stderr,
    words: &[String],
    status: &Status,
    talk: &Talk,
) {
    match status {
        Status::BadWords { .. } => say_usage(messages),
        Status::BadSource { path, place } | Status::BadStub { path, place } => {
            say_bad_file(rt, messages, path.as_str(), *place as usize);
        }
        Status::BadConfig { path, place } => say_bad_config(rt, messages, path.as_str(), place),
        Status::Refused(refusal) => say_refusal(rt.alloc(), messages, refusal, talk),
        Status::HostBreach { breach } => say_host_breach(messages, *breach),
        Status::Done if is_build(words) => say_missing_project(rt, messages),
        _ => {}
    }
}

/// Whether these words, which have a command, are those of a build.
fn is_build(words: &[String]) -> bool {
    match words.first() {
        Some(word) => word.as_str() == "build",
        None => false,
    }
}

/// Says how the host of `serve` left the protocol.
fn say_host_breach(messages: Stderr, breach: Breach) {
    let _ = match breach {
        Breach::Ended { got: 0 } => {
            eprintln!(messages; "apt_cli: the input ended before its first frame")
        }
        Breach::Ended { got } => {
            eprintln!(messages; "apt_cli: the input ended after {got} bytes of a frame")
        }
        Breach::Bad { place, .. } => {
            eprintln!(messages; "apt_cli: a frame of the input is bad, at byte {place} of it")
        }
        Breach::Wrong { tag } => {
            eprintln!(messages; "apt_cli: a frame with tag {tag} may not come there in the input")
        }
    };
}

/// Says why the run was refused, where there is more to say.
fn say_refusal(alloc: Global, messages: Stderr, refusal: &Refusal, talk: &Talk) {
    match refusal {
        Refusal::BadGenerated { path, place } => {
            let path = path.as_str();
            say_java_fault(alloc, messages, path, talk.source_at(path), *place as usize);
        }
        Refusal::Breach { processor, .. } => {
            talk.say_departure(alloc, messages, processor.as_str());
        }
        _ => {}
    }
}

/// Says which words there are.
pub fn say_usage(messages: Stderr) {
    let _ = eprintln!(messages; "apt_cli: usage: build [--full] [KEY=VALUE]..");
    let _ = eprintln!(messages;
        "apt_cli: builds the project in the current folder; KEY=VALUE is an option of its processors"
    );
    let _ = eprintln!(messages; "apt_cli: usage: serve NAME");
    let _ = eprintln!(messages;
        "apt_cli: is the processor NAME, one of the program's own, for the host at its input and output"
    );
    let _ = eprintln!(messages; "apt_cli: usage: help");
    let _ = eprintln!(messages; "apt_cli: prints the words of each command");
}

/// Says it where the current folder has nothing of a project.
fn say_missing_project<R: Files>(rt: &R, messages: Stderr) {
    if is_missing(rt, CONFIGURATION) && is_missing(rt, "src") {
        let _ = eprintln!(messages; "apt_cli: neither src nor apt.json is in this folder");
    }
}

fn is_missing<R: Files>(rt: &R, path: &str) -> bool {
    match fs::symlink_metadata(rt, path) {
        Ok(_) => false,
        Err(error) => error.kind() == ErrorKind::NotFound,
    }
}

/// The bytes of a file; None where it is no longer there or can't be read.
fn read_again<R: Files + AllocGlobal>(rt: &R, path: &str) -> Option<Vec<u8>> {
    read_front(rt, path, MAX_FILE_BYTES).ok()?
}

fn say_bad_file<R: Files + AllocGlobal>(rt: &R, messages: Stderr, path: &str, offset: usize) {
    match read_again(rt, path) {
        Some(text) => say_java_fault(rt.alloc(), messages, path, Some(text.as_slice()), offset),
        None => say_java_fault(rt.alloc(), messages, path, None, offset),
    }
}

fn say_bad_config<R: Files + AllocGlobal>(rt: &R, messages: Stderr, path: &str, place: &Place) {
    let Some(text) = read_again(rt, path) else {
        return;
    };
    let alloc = rt.alloc();
    match place {
        Place::Json => say_no_object(alloc, messages, path, &text),
        Place::Item(item) => say_item(alloc, messages, path, &text, item.as_str()),
        Place::Line(line) => say_line(alloc, messages, path, &text, *line),
    }
}
