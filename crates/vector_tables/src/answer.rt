// What is printed on a call of the program, and its exit status.
ghost use Rattle.std.specs.Prelude.{◌≡◌, IfOk, max, if◌then◌else◌, string_bytes};
ghost use Rattle.vector_tables.specs.Answers.{Answers, Reports};

use crate::outcome::{outcomes, report, status};
use crate::table::Table;
use crate::words::Task;
use std::alloc::{AllocError, Global};

/// What is printed, and the exit status where that was printed.
#[derive(Drop)]
pub struct Answer {
    /// What is printed.
    pub text: String,
    /// The exit status.
    pub status: u8,
}

impl Answer {
    /// An equal answer. It fails only when memory runs out.
    pub fn copy(&self, alloc: Global) -> Result<Answer, AllocError>
        ensures text { IfOk result (λ answer. string_bytes answer.text ≡ string_bytes self.now.text) }
        ensures status { IfOk result (λ answer. answer.status ≡ self.now.status) }
    {
        Ok(Answer {
            text: String::from_str(alloc, self.text.as_str())?,
            status: self.status,
        })
    }
}

// The answer on tables.
fn run(alloc: Global, tables: &[Table]) -> Result<Answer, AllocError>
    ensures { IfOk result (λ answer. Reports tables.now answer) }
{
    let outcomes = outcomes(alloc, tables)?;
    let text = report(alloc, outcomes.as_slice())?;
    Ok(Answer {
        text,
        status: status(outcomes.as_slice()),
    })
}

/// The answer to a task: a line for each table that is run, with status 0 where all passed and else 1, or the line
/// `refused` with status 2. The one error is out of memory.
pub fn answer_to(alloc: Global, task: Task) -> Result<Answer, AllocError>
    ensures { IfOk result (λ answer. Answers task answer) }
{
    match task {
        Task::Each => run(alloc, &Table::ALL),
        Task::One(table) => run(alloc, &[table]),
        Task::Refused => Ok(Answer {
            text: String::from_str(alloc, "refused\n")?,
            status: 2,
        }),
    }
}

/// The exit status where the lines were printed or not: 1 in place of 0 where they were not.
pub fn status_after(status: u8, printed: bool) -> u8
    ensures { result ≡ (if printed then status else max status 1) }
{
    if printed { status } else { status.max(1) }
}
