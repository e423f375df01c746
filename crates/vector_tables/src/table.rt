// The tables of cases, and their names.
ghost use Rattle.std.specs.Prelude.{◌≡◌, IfOk, MatchOption};
ghost use Rattle.std.specs.List.{All};
ghost use Rattle.vector_tables.specs.Cases.{Tells, IsPassed};
ghost use Rattle.vector_tables.specs.Answers.{name_of, AllHold, HasNoTable};

use crate::case::{Case, passes};
use crate::frame_case::all_frames_pass;
use crate::frame_table::frame_cases;
use crate::token_table::token_cases;
use std::alloc::{AllocError, Global};

/// A table of cases.
#[derive(Clone, Copy)]
pub enum Table {
    /// The characters and tokens of files.
    Tokens,
    /// The frames between the host and a processor, byte by byte.
    Frames,
}

impl Table {
    /// Each table, in the order in which they are run.
    pub const ALL: [Table; 2] = [Table::Tokens, Table::Frames];

    /// Its name.
    pub fn name(self) -> &'static str
        ensures { result.now ≡ name_of self }
    {
        match self {
            Table::Tokens => "tokens",
            Table::Frames => "frames",
        }
    }

    /// The table with this name, and None exactly where none has it.
    pub fn named(name: &str) -> Option<Table>
        ensures { MatchOption result (HasNoTable name.now) (λ table. name.now ≡ name_of table) }
    {
        if name == "tokens" {
            return Some(Table::Tokens);
        }
        if name == "frames" {
            return Some(Table::Frames);
        }
        None
    }

    /// It passes exactly where each of its rows holds. The one error is out of memory.
    pub fn passes(self, alloc: Global) -> Result<bool, AllocError>
        ensures { IfOk result (λ passed. Tells passed (AllHold self)) }
    {
        match self {
            Table::Tokens => all_pass(alloc, token_cases()),
            Table::Frames => all_frames_pass(alloc, frame_cases()),
        }
    }
}

/// These cases pass exactly where each of them does. The one error is out of memory.
pub fn all_pass(alloc: Global, cases: &[Case<'_>]) -> Result<bool, AllocError>
    ensures { IfOk result (λ passed. Tells passed (All IsPassed cases.now)) }
{
    for case in cases {
        if !passes(alloc, case)? {
            return Ok(false);
        }
    }
    Ok(true)
}
