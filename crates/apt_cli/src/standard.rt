// The standard input and output.
ghost use Rattle.std.specs.Prelude.{◌≡◌, ◌≤◌, ◌^◌, ◌-◌, false, [], length, IfOk};

use crate::faults::Faults;
use crate::messages::{Attempt, Failure};
use apt_outside::{Fault, Sink, Source};
use std::fs::{File, OpenOptions};
use std::io;
use std::io::{Error, ErrorKind, Read, Stderr, Write};
use std::os::fd::AsRawFd;
use std::rt::Files;

/// One read into the room, whose count is 0 at the end alone. A read that a signal interrupts is made again.
pub fn read_some<I: Read>(input: &mut I, room: &mut [u8]) -> io::Result<usize>
    ensures { IfOk result (λ n. n ≤ length room.new) }
{
    for _ in 0..u64::MAX {
        match input.read(room) {
            Err(error) if error.kind() == ErrorKind::Interrupted => {}
            outcome => return outcome,
        }
    }
    Err(Error::from(ErrorKind::Interrupted))
}

/// The standard input. It can give as many bytes as a u64 counts, and then reports its end. It tells neither what is
/// left nor what it gave.
#[derive(Drop)]
pub struct StdinSource<I: Read + Drop> {
    pub input: I,
    /// How many bytes it can still give.
    pub supply: u64,
    pub faults: Faults,
}

impl<I: Read + Drop> StdinSource<I> {
    /// Over what reads the standard input.
    pub fn new(input: I, messages: Stderr) -> Self
        ensures supply { result.supply ≡ 2 ^ 64 - 1 }
        ensures faults { result.faults.count ≡ 0 }
    {
        StdinSource {
            input,
            supply: u64::MAX,
            faults: Faults::new(messages),
        }
    }
}

impl<I: Read + Drop> Source for StdinSource<I> {
    ghost tells = { false };

    ghost faults = { λ source. source.faults.count };

    ghost supply = { λ source. source.supply };

    ghost left = { λ _. [] };

    fn read(&mut self, room: &mut [u8]) -> Result<usize, Fault> {
        let most = room.len().min(self.supply as usize);
        let outcome = read_some(&mut self.input, &mut room[..most]);
        let attempt = Attempt::new("read", "the standard input");
        let count = self.faults.count_failure(attempt, Failure::of(outcome))?;
        self.supply -= count as u64;
        Ok(count)
    }
}

/// The standard output. It doesn't tell what was written.
#[derive(Drop)]
pub struct StdoutSink<O: Write + Drop> {
    pub output: O,
    pub faults: Faults,
}

impl<O: Write + Drop> StdoutSink<O> {
    /// Over what writes to the standard output.
    pub fn new(output: O, messages: Stderr) -> Self
        ensures { result.faults.count ≡ 0 }
    {
        StdoutSink {
            output,
            faults: Faults::new(messages),
        }
    }
}

impl<O: Write + Drop> Sink for StdoutSink<O> {
    ghost tells = { false };

    ghost faults = { λ sink. sink.faults.count };

    ghost written = { λ _. [] };

    fn write_all(&mut self, bytes: &[u8]) -> Result<(), Fault> {
        let written = write_out(&mut self.output, bytes);
        let attempt = Attempt::new("write", "the standard output");
        self.faults.count_failure(attempt, Failure::of(written))
    }
}

/// Writes all the bytes, and what a writer still holds.
pub fn write_out<O: Write>(output: &mut O, bytes: &[u8]) -> io::Result<()> {
    output.write_all(bytes)?;
    output.flush()
}

/// Opens `/dev/null` in the place of each standard stream that is closed, so that no file or pipe of the program takes
/// its number. The input stays one that can't be read, and the output one that can't be written; messages are dropped.
pub fn fill_closed_streams<R: Files<File = File>>(rt: &R) -> [Option<File>; 3] {
    let input = open_null(rt, OpenOptions::new().write(true), 0);
    let output = open_null(rt, OpenOptions::new().read(true), 1);
    let messages = open_null(rt, OpenOptions::new().write(true), 2);
    [input, output, messages]
}

/// A new stream takes the least free number, so it is the wanted one only where that was closed.
fn open_null<R: Files<File = File>>(rt: &R, how: &OpenOptions, number: i32) -> Option<File> {
    let file = how.open(rt, "/dev/null").ok()?;
    (file.as_raw_fd() == number).then_some(file)
}
