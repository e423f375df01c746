// What comes of tables, and the lines on it.
ghost use Rattle.std.specs.Prelude.{◌≡◌, ◌++◌, string_bytes, IfOk, OnOk};
ghost use Rattle.std.specs.List.{flat_map};
ghost use Rattle.vector_tables.specs.Answers.{IsOutcome, AreOutcomes, outcome_line, status_of};

use crate::table::Table;
use std::alloc::{AllocError, Global};

/// The name of a table, and whether it passed.
#[derive(Clone, Copy)]
pub struct Outcome<'a> {
    /// The name of the table.
    pub name: &'a str,
    /// Whether each of its cases passed.
    pub passed: bool,
}

// What comes of a table.
fn outcome_of(alloc: Global, table: Table) -> Result<Outcome<'static>, AllocError>
    ensures { IfOk result (λ outcome. IsOutcome table outcome) }
{
    let passed = table.passes(alloc)?;
    Ok(Outcome {
        name: table.name(),
        passed,
    })
}

/// What comes of these tables, in order. The one error is out of memory.
pub fn outcomes(alloc: Global, tables: &[Table]) -> Result<Vec<Outcome<'static>>, AllocError>
    ensures { IfOk result (λ outcomes. AreOutcomes tables.now outcomes.items) }
{
    let mut outcomes = Vec::new(alloc);
    for table in tables {
        outcomes.push(outcome_of(alloc, *table)?)?;
    }
    Ok(outcomes)
}

// Adds the line of a table.
fn add_line(alloc: Global, text: &mut String, outcome: &Outcome<'_>) -> Result<(), AllocError>
    ensures { OnOk result (string_bytes text.new ≡ string_bytes text.old ++ outcome_line outcome.now) }
{
    let name = outcome.name;
    let word = if outcome.passed { "passed" } else { "failed" };
    let line = format!(in alloc; "{name}: {word}\n")?;
    text.push_str(line.as_str())?;
    Ok(())
}

/// A line for each table, in order: its name, and `passed` or `failed`. The one error is out of memory.
pub fn report(alloc: Global, outcomes: &[Outcome<'_>]) -> Result<String, AllocError>
    ensures { IfOk result (λ text. string_bytes text ≡ flat_map outcome_line outcomes.now) }
{
    let mut text = String::new(alloc);
    for outcome in outcomes {
        add_line(alloc, &mut text, outcome)?;
    }
    Ok(text)
}

/// The exit status of a run of tables: 0 where all passed, and else 1.
pub fn status(outcomes: &[Outcome<'_>]) -> u8
    ensures { result ≡ status_of outcomes.now }
{
    for outcome in outcomes {
        if !outcome.passed {
            return 1;
        }
    }
    0
}
