// What the program says on the standard error of calls that failed and of processors that ended.
ghost use Rattle.std.specs.Prelude.{◌≡◌};
ghost use Rattle.std.specs.IoError.{error_kind};
ghost use Rattle.apt_cli.specs.Failures.{IsFailureOf};

use cli_messages::Shown;
use std::alloc::{AllocError, AllocFailed, Global};
use std::io;
use std::io::{Error, ErrorKind, Stderr};
use std::os::unix::process::ExitStatusExt;
use std::process::ExitStatus;

/// What was tried, as it is said: a verb, and the path, program or stream that it was tried with.
#[derive(Clone, Copy)]
pub struct Attempt<'a> {
    /// What was to be done, as `read` or `send to`.
    pub verb: &'a str,
    /// The path, the program or the stream.
    pub object: &'a str,
}

/// Why a call failed.
#[derive(Drop)]
pub struct Failure {
    /// The path at which it failed, where that may be another than the one that it was tried with.
    pub place: Option<Vec<u8>>,
    pub error: Error,
}

impl<'a> Attempt<'a> {
    /// An attempt to do this with this object.
    pub fn new(verb: &'a str, object: &'a str) -> Self {
        Attempt { verb, object }
    }
}

impl Failure {
    /// What the system answered; a failure is where it was tried.
    pub fn of<T>(outcome: io::Result<T>) -> Result<T, Failure>
        ensures { IsFailureOf outcome result }
    {
        match outcome {
            Ok(value) => Ok(value),
            Err(error) => Err(Failure::from(error)),
        }
    }

    /// A failure at this path. The path is left out where there is no memory for it.
    pub fn at(alloc: Global, place: &[u8], error: Error) -> Self
        ensures { result.error ≡ error }
    {
        Failure {
            place: place.to_vec(alloc).ok(),
            error,
        }
    }

    /// The kind of what the system answered.
    pub fn kind(&self) -> ErrorKind
        ensures { result ≡ error_kind self.now.error }
    {
        self.error.kind()
    }
}

impl From<Error> for Failure {
    ghost from_gives = { λ error failure. failure.error ≡ error };

    fn from(error: Error) -> Self {
        Failure { place: None, error }
    }
}

impl From<AllocError> for Failure {
    fn from(error: AllocError) -> Self {
        Failure::from(Error::from(error))
    }
}

impl<T: Drop> From<AllocFailed<T>> for Failure {
    fn from(error: AllocFailed<T>) -> Self {
        Failure::from(Error::from(error))
    }
}

/// Says what failed, at which path, where that is another than the one that it was tried with, and why. Where the
/// line can't be written nothing is said.
pub fn say_failure(messages: Stderr, attempt: Attempt<'_>, failure: &Failure) {
    let verb = attempt.verb;
    let object = Shown(attempt.object.as_bytes());
    let error = failure.error;
    let _ = match &failure.place {
        Some(place) if place.as_slice() != attempt.object.as_bytes() => {
            let place = Shown(place.as_slice());
            eprintln!(messages; "apt_cli: cannot {verb} {object}: {place}: {error}")
        }
        _ => eprintln!(messages; "apt_cli: cannot {verb} {object}: {error}"),
    };
}

/// Says that a processor has not answered for this many seconds. Where the line can't be written nothing is said.
pub fn say_silence(messages: Stderr, processor: &str, seconds: i32) {
    let processor = Shown(processor.as_bytes());
    let _ = eprintln!(messages;
        "apt_cli: processor {processor} has not answered for {seconds} seconds, and is waited for"
    );
}

/// Says how a processor ended, unless with status 0. Where the line can't be written nothing is said.
pub fn say_end(messages: Stderr, program: &str, status: ExitStatus) {
    let program = Shown(program.as_bytes());
    let _ = match (status.code(), status.signal()) {
        (Some(0), _) | (None, None) => Ok(()),
        (Some(code), _) => eprintln!(messages;
            "apt_cli: processor {program} ended with status {code}"
        ),
        (None, Some(signal)) => eprintln!(messages;
            "apt_cli: processor {program} ended by signal {signal}"
        ),
    };
}
