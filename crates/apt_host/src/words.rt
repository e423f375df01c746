// The words of a call.
ghost use Rattle.std.specs.Prelude.{◌≡◌, map, string_bytes, true, IfOk, IfErr};
ghost use Rattle.apt_host.specs.Words.{Help, build_of, serve_of, alone, has_line};
ghost use Rattle.apt_host.specs.Shown.{shown_request, asked};

use apt_base::{List, Name, NoMemory};
use local_children::local_named;
use local_procs::Local;
use project_config::option_in;
use std::alloc::Global;

/// What the words of a call ask for.
#[derive(Drop)]
pub enum Request {
    /// One build.
    Build {
        /// The options of the words, as keys and their values, in order.
        options: List<(Name, Name)>,
    },
    /// A child with a processor that the program has itself.
    Serve {
        /// The processor.
        local: Local,
    },
    /// The table of words.
    Help,
    /// The words are none of the table's.
    Bad {
        /// The position of the first word that no line of the table has there, or the number of words where one is missing.
        at: u64,
    },
}

// Reads the words behind `build`.
fn read_build(alloc: Global, words: &[String]) -> Result<Request, NoMemory>
    ensures request { IfOk result (λ request. shown_request request ≡ build_of (map string_bytes words.now)) }
    ensures memory { IfErr result (λ _. has_line (build_of (map string_bytes words.now)) ≡ true) }
{
    let mut full = false;
    let mut options = List::new(alloc);
    for (index, word) in words.iter().enumerate() {
        let at = index as u64 + 1;
        if word.as_str() == "--full" {
            if full {
                return Ok(Request::Bad { at });
            }
            full = true;
        } else {
            let Some((key, value)) = option_in(word.as_str()) else {
                return Ok(Request::Bad { at });
            };
            options.push((Name::new(alloc, key)?, Name::new(alloc, value)?))?;
        }
    }
    Ok(Request::Build { options })
}

// Reads the words behind `serve`: the name of a processor, and nothing more.
fn read_serve(words: &[String]) -> Request
    ensures { shown_request result ≡ serve_of (map string_bytes words.now) }
{
    let Some((name, others)) = words.split_first() else {
        return Request::Bad { at: 1 };
    };
    match local_named(name.as_str()) {
        Some(local) if others.is_empty() => Request::Serve { local },
        Some(_) => Request::Bad { at: 2 },
        None => Request::Bad { at: 1 },
    }
}

// Reads the words behind `help`: there are none.
fn read_help(words: &[String]) -> Request
    ensures { shown_request result ≡ alone Help (map string_bytes words.now) }
{
    if words.is_empty() {
        Request::Help
    } else {
        Request::Bad { at: 1 }
    }
}

/// Reads the words: `build`, and behind it `--full` at most once and any number of options `KEY=VALUE`, in any order;
/// `serve` and the name of a processor that the program has itself; or `help` alone. Only the options take memory.
pub fn read_words(alloc: Global, words: &[String]) -> Result<Request, NoMemory>
    ensures request { IfOk result (λ request. shown_request request ≡ asked words.now) }
    ensures memory { IfErr result (λ _. has_line (asked words.now) ≡ true) }
{
    let Some((word, others)) = words.split_first() else {
        return Ok(Request::Bad { at: 0 });
    };
    if word.as_str() == "build" {
        read_build(alloc, others)
    } else if word.as_str() == "serve" {
        Ok(read_serve(others))
    } else if word.as_str() == "help" {
        Ok(read_help(others))
    } else {
        Ok(Request::Bad { at: 0 })
    }
}
