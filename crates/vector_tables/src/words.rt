// The words that the program is called with.
ghost use Rattle.std.specs.Prelude.{map, string_bytes, IfOk};
ghost use Rattle.clap.specs.Words.{FailsBy};
ghost use Rattle.vector_tables.specs.Words.{faults_of, IsTableWord, IsNamed, AsksFor};

use crate::table::Table;
use clap::error::ErrorKind;
use clap::{Arg, ArgAction, Command, Error};
use std::alloc::{AllocError, Global};

/// What the words ask for.
#[derive(Clone, Copy)]
pub enum Task {
    /// Each table in order.
    Each,
    /// One table.
    One(Table),
    /// Nothing that there is.
    Refused,
}

/// The task of these words, the program's own name first: each table where nothing follows it, and one table for
/// `--table NAME`. Other words are refused. The one error is out of memory.
pub fn task_of(alloc: Global, words: &[String]) -> Result<Task, AllocError>
    ensures { IfOk result (AsksFor (map string_bytes words.now)) }
{
    match table_word(alloc, words) {
        Ok(None) => Ok(Task::Each),
        Ok(Some(name)) => Ok(task_named(name)),
        Err(error) if error.kind() == ErrorKind::OutOfMemory => Err(AllocError),
        Err(_) => Ok(Task::Refused),
    }
}

fn task_named(name: &str) -> Task
    ensures { IsNamed name.now result }
{
    match Table::named(name) {
        Some(table) => Task::One(table),
        None => Task::Refused,
    }
}

// The word after `--table`, where it is there. A call for help is no such call.
fn table_word<'a>(alloc: Global, words: &'a [String]) -> Result<Option<&'a str>, Error>
    ensures word { IfOk result (IsTableWord (map string_bytes words.now)) }
    ensures kinds { FailsBy (faults_of (map string_bytes words.now)) result }
{
    let table = Arg::new(alloc, "table")
        .long("table")
        .action(ArgAction::Set);
    let command = Command::new(alloc, "apt_vectors")
        .disable_help_flag(true)
        .arg(table)?;
    let matches = command.try_get_matches_from(words)?;
    Ok(matches.get_str("table"))
}
