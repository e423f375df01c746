//! Runs tables of cases over the library and says of each table whether it passed.
//!
//! The words are none, for each table in order, or `--table NAME`. A line `NAME: passed` or `NAME: failed`
//! is printed per table. Status 0 says that all passed, and 1 that a table failed or that a line could not
//! be printed. Other words are answered by `refused` and status 2. Status 3 is out of memory.
#![tactic(auto)]

use std::alloc::{AllocError, Global};
use std::env::Env;
use std::io;
use std::process::ExitCode;
use vector_tables::{Answer, Task, answer_to, status_after, task_of};

// The exit status when memory runs out.
const MEMORY: u8 = 3;

// The task that the words of the call name. The one error is out of memory.
fn read_task<E: Env + AllocGlobal>(alloc: Global, rt: &E) -> Result<Task, AllocError> {
    match std::env::args(rt) {
        Ok(words) => {
            let words: Vec<String> = words.collect(alloc)?;
            task_of(alloc, words.as_slice())
        }
        Err(error) if error.kind() == io::ErrorKind::OutOfMemory => Err(AllocError),
        Err(_) => Ok(Task::Refused),
    }
}

// The answer to the words of the call.
fn answer_words(rt: &HostRuntime) -> Result<Answer, AllocError> {
    let alloc = rt.alloc();
    let task = read_task(alloc, rt)?;
    answer_to(alloc, task)
}

fn main(rt: HostRuntime) -> ExitCode {
    match answer_words(&rt) {
        Ok(answer) => {
            let text = answer.text;
            let printed = print!(rt; "{text}").is_ok();
            ExitCode::from(status_after(answer.status, printed))
        }
        Err(_) => ExitCode::from(MEMORY),
    }
}
