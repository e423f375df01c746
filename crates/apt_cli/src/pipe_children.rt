// Child programs over pipes.
ghost use Rattle.std.specs.Prelude.{◌≡◌, ◌<◌, ◌≤◌, ◌^◌, ◌-◌, ◌==◌, All, Contains, [], false, length, map, IfOk, Some, None};
ghost use Rattle.std.specs.List.{position};

use crate::faults::Faults;
use crate::messages::{Attempt, Failure, say_end, say_silence};
use crate::standard::{read_some, write_out};
use apt_outside::{Children, Fault};
use cli_messages::Talk;
use libc::net::{POLLIN, poll};
use libc::types::pollfd;
use std::alloc::Global;
use std::io;
use std::io::{Error, ErrorKind, Stderr};
use std::os::fd::AsRawFd;
use std::process::{Child, ChildStdout, Command, OpenProcess, Processes, Stdio, SystemProcess};

/// For how long a child may send nothing before that is said, in seconds.
const PATIENCE: i32 = 5;

/// A program that runs, with this end of its pipes. When it is dropped, its pipes are closed, and its end is waited for
/// and said, unless it ends with status 0.
pub struct Running<P: OpenProcess + Drop> {
    /// The child's number.
    pub number: u32,
    /// The name of its processor.
    pub processor: String,
    /// The word that the program was started by.
    pub name: String,
    /// What the program reads.
    pub input: P::Stdin,
    /// What the program writes.
    pub output: P::Stdout,
    pub program: Child<P>,
    /// How many bytes it has sent.
    pub received: u64,
    pub messages: Stderr,
}

impl<P: OpenProcess + Drop> Drop for Running<P> {
    fn drop(self) {
        let Running {
            number: _,
            processor,
            name,
            input,
            output,
            mut program,
            received: _,
            messages,
        } = self;
        drop(processor);
        drop(input);
        drop(output);
        if let Ok(status) = program.wait() {
            say_end(messages, name.as_str(), status);
        }
    }
}

impl<P: OpenProcess + Drop> Running<P> {
    fn send(&mut self, frame: &[u8]) -> io::Result<()>
        ensures { self.new.number ≡ self.old.number }
    {
        write_out(&mut self.input, frame)
    }

    fn receive(&mut self, room: &mut [u8]) -> io::Result<usize>
        ensures number { self.new.number ≡ self.old.number }
        ensures fits { IfOk result (λ n. n ≤ length room.new) }
    {
        let count = read_some(&mut self.output, room)?;
        self.received = self.received.saturating_add(count as u64);
        Ok(count)
    }
}

/// Starts a program with pipes for its standard input and output. A name without a slash is looked for in `PATH`.
fn start_program<R: Processes>(
    alloc: Global,
    processes: &R,
    messages: Stderr,
    number: u32,
    processor: &str,
    command: &[String],
) -> io::Result<Running<R::Started>>
    ensures number { IfOk result (λ running. running.number ≡ number) }
    ensures left { IfOk result (λ _. number < 2 ^ 32 - 1) }
{
    if number == u32::MAX {
        return Err(Error::new(ErrorKind::QuotaExceeded, "no number is left"));
    }
    let Some((program, arguments)) = command.split_first() else {
        return Err(Error::new(ErrorKind::InvalidInput, "a command without words"));
    };
    let processor = String::from_str(alloc, processor)?;
    let name = String::from_str(alloc, program.as_str())?;
    let mut call = Command::new(alloc, program.as_str())?;
    for argument in arguments {
        call.arg(argument.as_str())?;
    }
    let mut program = call
        .stdin(Stdio::piped())
        .stdout(Stdio::piped())
        .spawn(processes)?;
    match (program.stdin.take(), program.stdout.take()) {
        (Some(input), Some(output)) => Ok(Running {
            number,
            processor,
            name,
            input,
            output,
            program,
            received: 0,
            messages,
        }),
        _ => {
            program.wait()?;
            Err(Error::new(ErrorKind::BrokenPipe, "a program without pipes"))
        }
    }
}

/// Whether a read has not to wait for longer than the seconds of patience.
fn is_ready(output: &ChildStdout) -> bool {
    let mut waited_for = [pollfd {
        fd: output.as_raw_fd(),
        events: POLLIN,
        revents: 0,
    }];
    poll(&mut waited_for, PATIENCE * 1000) != 0
}

impl Running<SystemProcess> {
    /// Waits until there is something to read, or the child's output has ended, and says whom it waits for where that
    /// takes longer than the seconds of patience.
    fn await_answer(&self) {
        if !is_ready(&self.output) {
            say_silence(self.messages, self.processor.as_str(), PATIENCE);
        }
    }
}

/// The word that a program is started by; empty where there is none.
fn first_word(command: &[String]) -> &str {
    match command.first() {
        Some(word) => word.as_str(),
        None => "",
    }
}

/// The child programs that were started, numbered from 0 in the order of their starts. It tells how often it failed, how
/// many were started and which run, and not what they say.
///
/// A send to a program that has ended, or closed its input, is a failure and no signal. A program that neither answers
/// nor ends keeps the host waiting: nothing here has a limit of time. It is said who has sent nothing for some seconds.
#[derive(Drop)]
pub struct PipeChildren<R: Processes> {
    pub alloc: Global,
    pub processes: R,
    /// Those that were started and not stopped, in the order of their starts.
    pub running: Vec<Running<R::Started>>,
    /// How many were started.
    pub starts: u32,
    /// What the child sends that was sent the last frame.
    pub talk: Talk,
    pub faults: Faults,
    ghost numbered: { All (λ running. running.number < starts) running.items },
}

impl<R: Processes + Drop> PipeChildren<R> {
    /// None was started yet.
    pub fn new(alloc: Global, processes: R, messages: Stderr) -> Self
        ensures starts { result.starts ≡ 0 }
        ensures live { result.running.items ≡ [] }
        ensures faults { result.faults.count ≡ 0 }
    {
        PipeChildren {
            alloc,
            processes,
            running: Vec::new(alloc),
            starts: 0,
            talk: Talk::new(alloc),
            faults: Faults::new(messages),
        }
    }

    /// Where a child that runs stands.
    fn place_of(&self, child: u32) -> usize
        requires { Contains (map (λ r. r.number) self.now.running.items) child }
        ensures { position (λ r. r.number == child) self.now.running.items ≡ Some result }
    {
        self.running
            .iter()
            .position(|running| running.number == child)
            .unwrap()
    }
}

impl<R: Processes<Started = SystemProcess> + Drop> Children for PipeChildren<R> {
    ghost tells = { false };

    ghost faults = { λ c. c.faults.count };

    ghost state = { λ c. record {
      starts = c.starts;
      live = map (λ running. running.number) c.running.items;
      says = λ _ _ _. [];
      tried = [];
      known = λ _. None;
    } };

    ghost sound = { λ _ _ _. tt };

    fn start(&mut self, name: &str, command: &[String]) -> Result<u32, Fault> {
        let number = self.starts;
        let messages = self.faults.messages;
        let started = start_program(self.alloc, &self.processes, messages, number, name, command);
        let attempt = Attempt::new("start", first_word(command));
        let running = self.faults.count_failure(attempt, Failure::of(started))?;
        self.running.push(running)?;
        self.starts = number + 1;
        Ok(number)
    }

    fn send(&mut self, child: u32, frame: &[u8]) -> Result<(), Fault> {
        let place = self.place_of(child);
        let received = self.running[place].received;
        self.talk.begin_answer(frame, received);
        let sent = self.running[place].send(frame);
        let attempt = Attempt::new("send to", self.running[place].name.as_str());
        self.faults.count_failure(attempt, Failure::of(sent))
    }

    fn receive(&mut self, child: u32, room: &mut [u8]) -> Result<usize, Fault> {
        let place = self.place_of(child);
        self.running[place].await_answer();
        let received = self.running[place].receive(room);
        self.talk.take(room, &received);
        let attempt = Attempt::new("receive from", self.running[place].name.as_str());
        self.faults.count_failure(attempt, Failure::of(received))
    }

    fn stop(&mut self, child: u32) {
        self.running.retain(|running| running.number != child);
    }
}
