// What a run remembers of its rounds and of its processors.
ghost use Rattle.std.specs.Prelude.{◌≡◌, ◌<◌, ◌^◌, ◌++◌, length, map, IfOk, OnOk};
ghost use Rattle.std.specs.FinMap as fin;
ghost use Rattle.apt_base.specs.Names.{with_names};
ghost use Rattle.run_entries.specs.Outputs.{file_of, root_name};
ghost use Rattle.round_engine.specs.Run.{present_in};
ghost use Rattle.round_engine.specs.Remembering.{past_round, roots_with, with_present, annotated_before, units_for, is_beyond, processed_by};

use crate::rounds::{PastRound, Round};
use apt_base::{Kind, List, Name, Names, NoMemory, copy_names};
use beyond_reach::is_beyond as asked_beyond;
use child_session::Answer;
use element_table::Table;
use round_env::{RoundEnv, present, present_on};
use run_entries::{GeneratedFile, Processed, annotated_roots, copy_messages};
use std::alloc::Global;
use wire_frames::Creation;

// ---- rounds

/// What is remembered of a round that came to its end, on whose roots annotations of these names are present.
pub(crate) fn past_round(
    alloc: Global,
    round: &Round,
    present: List<Name>,
) -> Result<PastRound, NoMemory>
    requires { present ≡ present_in round.now }
    ensures { IfOk result (λ past. past ≡ past_round round.now) }
{
    Ok(PastRound {
        roots: copy_names(alloc, round.roots.as_slice())?,
        present,
    })
}

/// The same of a round in which nobody is asked.
pub(crate) fn ended_round(alloc: Global, round: &Round) -> Result<PastRound, NoMemory>
    ensures { IfOk result (λ past. past ≡ past_round round.now) }
{
    let present = present(alloc, round.table.table(), &round.roots)?;
    past_round(alloc, round, present)
}

// ---- processors

/// These roots, each with the names of the annotations that are present on it.
pub(crate) fn roots_with(
    alloc: Global,
    table: &Table,
    roots: &[Name],
) -> Result<List<(Name, List<Name>)>, NoMemory>
    ensures { IfOk result (λ list. list ≡ roots_with table.now roots.now) }
{
    let mut list = List::new(alloc);
    for root in roots {
        let present = present_on(alloc, table, root)?;
        list.push((root.copy()?, present))?;
    }
    Ok(list)
}

// The set of the names that are present on one of these roots.
fn set_of_present(alloc: Global, roots: &[(Name, List<Name>)]) -> Result<Names, NoMemory>
    ensures { IfOk result (λ names. names ≡ with_present fin.empty roots.now) }
{
    let mut names = Names::new(alloc);
    for root in roots {
        add_present(&mut names, root.1.as_slice())?;
    }
    Ok(names)
}

fn add_present(names: &mut Names, present: &[Name]) -> Result<(), NoMemory>
    ensures { OnOk result (names.new ≡ with_names names.old present.now) }
{
    for name in present {
        names.insert(name.as_str())?;
    }
    Ok(())
}

/// The names of the annotations that are present on the roots of a round, each once and ascending, by those on each root. No
/// memory holds 2^32 names, so that these too are answered with `NoMemory`.
pub(crate) fn present_among(
    alloc: Global,
    round: &Round,
    roots: &[(Name, List<Name>)],
) -> Result<List<Name>, NoMemory>
    requires { roots.now ≡ roots_with round.now.table.table round.now.roots }
    ensures names { IfOk result (λ names. names ≡ present_in round.now) }
    ensures few { IfOk result (λ names. length names < 2 ^ 32) }
{
    let set = set_of_present(alloc, roots)?;
    let names = set.list()?;
    if u32::try_from(names.len()).is_err() {
        return Err(NoMemory);
    }
    Ok(names)
}

// Adds the names of roots.
fn add_names(names: &mut List<Name>, roots: &[(Name, List<Name>)]) -> Result<(), NoMemory>
    ensures { OnOk result (names.new ≡ names.old ++ map root_name roots.now) }
{
    for root in roots {
        names.push(root.0.copy()?)?;
    }
    Ok(())
}

// The roots that were annotated for the processor of this number in earlier rounds.
fn annotated_before(
    alloc: Global,
    number: u16,
    before: &[Processed],
) -> Result<List<Name>, NoMemory>
    ensures { IfOk result (λ names. names ≡ annotated_before number before.now) }
{
    let mut names = List::new(alloc);
    for done in before {
        if done.processor == number {
            add_names(&mut names, done.annotated.as_slice())?;
        }
    }
    Ok(names)
}

// The units on which the replies to a processor of this kind may hang: each root that an isolating one is shown, and each
// unit that was annotated for an aggregating one up to now.
fn units_for(
    alloc: Global,
    kind: Kind,
    env: &RoundEnv,
    number: u16,
    before: &[Processed],
    annotated: &[(Name, List<Name>)],
) -> Result<List<Name>, NoMemory>
    ensures { IfOk result (λ units. units ≡ units_for kind env.now number before.now annotated.now) }
{
    match kind {
        Kind::Isolating => copy_names(alloc, env.roots.as_slice()),
        Kind::Aggregating => {
            let mut units = annotated_before(alloc, number, before)?;
            add_names(&mut units, annotated)?;
            Ok(units)
        }
        Kind::Dynamic | Kind::Undeclared => Ok(List::new(alloc)),
    }
}

// Whether a question of it was beyond reach.
fn is_beyond(
    alloc: Global,
    kind: Kind,
    table: &Table,
    env: &RoundEnv,
    number: u16,
    before: &[Processed],
    annotated: &[(Name, List<Name>)],
    answer: &Answer,
) -> Result<bool, NoMemory>
    ensures { IfOk result (λ beyond. beyond
        ≡ is_beyond kind table.now env.now number before.now annotated.now answer.now) }
{
    let units = units_for(alloc, kind, env, number, before, annotated)?;
    let asked = answer.asked.as_slice();
    asked_beyond(
        alloc,
        kind,
        table,
        units.as_slice(),
        asked,
        answer.wide,
        answer.gathered,
    )
}

// The files of creations.
fn files_of(alloc: Global, made: &[Creation]) -> Result<List<GeneratedFile>, NoMemory>
    ensures { IfOk result (λ files. files ≡ map file_of made.now) }
{
    let mut files = List::new(alloc);
    for creation in made {
        files.push(GeneratedFile::of(alloc, creation)?)?;
    }
    Ok(files)
}

/// What a processor of this kind and number did that was shown this of a round and gave this: the files that it made, and its
/// answer. `roots` are the roots of the round with the names that are present on each, and `before` is what processors did
/// before it.
pub(crate) fn processed_of(
    alloc: Global,
    kind: Kind,
    table: &Table,
    roots: &[(Name, List<Name>)],
    env: &RoundEnv,
    number: u16,
    before: &[Processed],
    made: &[Creation],
    answer: &Answer,
) -> Result<Processed, NoMemory>
    requires { roots.now ≡ roots_with table.now env.now.roots }
    ensures { IfOk result (λ done. done
        ≡ processed_by kind table.now env.now number before.now made.now answer.now) }
{
    let annotated = annotated_roots(alloc, roots, env.offered.as_slice())?;
    let beyond = is_beyond(
        alloc,
        kind,
        table,
        env,
        number,
        before,
        annotated.as_slice(),
        answer,
    )?;
    let files = files_of(alloc, made)?;
    let messages = copy_messages(alloc, answer.messages.as_slice())?;
    Ok(Processed {
        round: env.number,
        processor: number,
        kind,
        offered: copy_names(alloc, env.offered.as_slice())?,
        annotated,
        files,
        messages,
        refused: answer.refused,
        beyond,
    })
}
