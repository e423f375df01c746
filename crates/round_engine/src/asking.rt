// The processors that are asked in a round, one after another.
ghost use Rattle.std.specs.Prelude.{◌≡◌, ◌<◌, ◌^◌, ◌++◌, length, drop, map, slice_index_or, slice_set, true, [], ◌∷◌, IfOk, IfErr, OnOk};
ghost use Rattle.std.specs.List.{AllByRecursion};
ghost use Rattle.project_units.specs.Refusals.{NamesAmong};
ghost use Rattle.project_units.specs.Faults.{stop_of, HasReason};
ghost use Rattle.round_engine.specs.Run.{env_of, kind_among, most_questions, present_in, showing};
ghost use Rattle.round_engine.specs.Remembering.{past_round, processed_by, roots_with};
ghost use Rattle.processor_claims.specs.Turns.{IsWithin, waiting_count};
ghost use Rattle.round_engine.specs.Shown.{AreListed, HasEach, AllLive, AttendsAll, IsDueStop, IsTurnOf};
ghost use Rattle.round_engine.specs.Moments.{Over, AsksOne, TakesTurns, Asks};

use crate::beginning::Discovered;
use crate::messages::place;
use crate::progress::Progress;
use crate::remembering::{past_round, present_among, processed_of, roots_with};
use crate::rounds::{PastRound, Round, made_since};
use crate::session_fault::refusal_by;
use apt_base::{Claim, Kind, List, Name, NoMemory, copy_names};
use apt_filer::Filer;
use apt_outside::Children;
use child_session::{Answer, Answering, Showing, show_round};
use element_table::Table;
use processor_claims::Turn;
use project_units::Refusal;
use round_env::RoundEnv;
use run_entries::{Processed, settled_kind};
use std::alloc::Global;

// How often a child may ask in a round that is shown to it so. More than fits is answered as out of memory.
fn most_questions(env: &RoundEnv) -> Result<u32, NoMemory>
    ensures { IfOk result (λ most. most ≡ most_questions env.now) }
{
    let most = (env.roots.len() as u64).checked_mul(4096).ok_or(NoMemory)?;
    let most = most.checked_add(65_536).ok_or(NoMemory)?;
    u32::try_from(most).map_err(|_| NoMemory)
}

// The names at these positions, which a processor is offered.
fn offered_names(alloc: Global, present: &[Name], positions: &[u32]) -> Result<List<Name>, NoMemory>
    requires { AllByRecursion (λ at. at < length present.now) positions.now }
    ensures { IfOk result (λ names. names ≡ map (λ at. slice_index_or present.now at []) positions.now) }
{
    let mut names = List::new(alloc);
    for at in positions {
        names.push(present[*at as usize].copy()?)?;
    }
    Ok(names)
}

// What a processor is shown of a round in which it is offered these names.
fn env_of(alloc: Global, round: &Round, offered: List<Name>) -> Result<RoundEnv, NoMemory>
    ensures { IfOk result (λ env. env ≡ env_of round.now offered) }
{
    Ok(RoundEnv {
        number: round.number,
        over: round.over,
        error: round.error,
        offered,
        roots: copy_names(alloc, round.roots.as_slice())?,
    })
}

// The same for the child of a processor that declared this of its claims.
fn showing_of(env: RoundEnv, claim: Claim) -> Result<Showing, NoMemory>
    ensures { IfOk result (λ shown. shown ≡ showing env claim) }
{
    let limit = most_questions(&env)?;
    Ok(Showing { limit, claim, env })
}

fn set_contributed(contributed: &mut Vec<bool>, number: usize)
    requires { number < length contributed.old.items }
    ensures { contributed.new.items ≡ slice_set contributed.old.items number true }
{
    contributed[number] = true;
}

// The kind of the processor of this number: the one that it declares, or that its Hello settles.
fn kind_of(run: &Discovered, number: usize) -> Kind
    requires kinds { number < length run.now.kinds }
    requires hellos { number < length run.now.hellos }
    ensures { result ≡ kind_among run.now.kinds run.now.hellos number }
{
    let declared = run.kinds.as_slice()[number];
    let hello = &run.hellos.as_slice()[number];
    settled_kind(declared, hello.options.as_slice())
}

// Adds what a processor of this kind and number did that was shown this and answered so, where there were `count` files before.
fn remember(
    alloc: Global,
    kind: Kind,
    table: &Table,
    roots: &[(Name, List<Name>)],
    env: &RoundEnv,
    number: u16,
    filer: &Filer,
    count: usize,
    answer: &Answer,
    processed: &mut List<Processed>,
) -> Result<(), NoMemory>
    requires { roots.now ≡ roots_with table.now env.now.roots }
    ensures { OnOk result (processed.new ≡ processed.old
        ++ processed_by kind table.now env.now number processed.old (drop count filer.now.made) answer.now ∷ []) }
{
    let made = made_since(filer, count);
    let done = processed_of(
        alloc,
        kind,
        table,
        roots,
        env,
        number,
        processed.as_slice(),
        made,
        answer,
    )?;
    processed.push(done)
}

/// Shows a round to the processor of this number, and says whether it claims what it is offered. What it asks is answered over the
/// table of `answering`, which is this one, and what it creates and prints is added to what there was before. `roots` are those of
/// the round, each with the names that are present on it.
fn ask<C: Children>(
    alloc: Global,
    children: &mut C,
    run: &Discovered,
    table: &Table,
    roots: &[(Name, List<Name>)],
    answering: &mut Answering<'_>,
    number: u16,
    env: RoundEnv,
    progress: &mut Progress,
) -> Result<bool, Refusal>
    requires number { number < length run.now.supported }
    requires table { table.now ≡ answering.old }
    requires roots { roots.now ≡ roots_with table.now env.roots }
    requires listed { AreListed run.now }
    requires each { HasEach run.now progress.old }
    requires lives { AllLive run.now.group (C.state children.old) }
    ensures reason { HasReason (C.faults children.old) (C.faults children.new) result }
    ensures named { IfErr result (λ refusal. NamesAmong run.now.names (stop_of refusal)) }
    ensures due { IfErr result (λ refusal. IsDueStop (stop_of refusal)) }
    ensures starts { (C.state children.new).starts ≡ (C.state children.old).starts }
    ensures live { (C.state children.new).live ≡ (C.state children.old).live }
    ensures kept { answering.new ≡ answering.old }
    ensures still { HasEach run.now progress.new }
    ensures attends { Over C.Children children.old children.new (AttendsAll run.now.group) }
    ensures asks { AsksOne C.Children run.now answering.old env number progress.old progress.new children.old children.new result }
{
    let at = usize::from(number);
    let child = run.group.as_slice()[at];
    let name = run.names.as_slice()[at].copy()?;
    let claim = run.supported.as_slice()[at].claim;
    let round = env.number;
    let made = progress.filer.made().len();
    let showing = showing_of(env, claim)?;
    let answer = match show_round(
        alloc,
        children,
        child,
        answering,
        &showing,
        &mut progress.filer,
    ) {
        Ok(answer) => answer,
        Err(fault) => {
            drop(showing);
            return Err(refusal_by(name, fault));
        }
    };
    set_contributed(&mut progress.contributed, at);
    let kind = kind_of(run, at);
    remember(
        alloc,
        kind,
        table,
        roots,
        &showing.env,
        number,
        &progress.filer,
        made,
        &answer,
        &mut progress.processed,
    )?;
    drop(showing);
    place(&mut progress.messages, round, number, answer.messages)?;
    Ok(answer.claimed)
}

// For each processor, whether it was asked in a round before.
fn contributed_of(alloc: Global, progress: &Progress) -> Result<List<bool>, NoMemory>
    ensures { IfOk result (λ contributed. contributed ≡ progress.now.contributed.items) }
{
    Ok(List::from_vec(progress.contributed.as_slice().to_vec(alloc)?))
}

// The turn in which the processors of a round are asked, where these names are present.
fn turn_of(
    alloc: Global,
    run: &Discovered,
    round: &Round,
    progress: &Progress,
    present: &List<Name>,
) -> Result<Turn, NoMemory>
    requires listed { AreListed run.now }
    requires each { HasEach run.now progress.now }
    requires names { length present.now < 2 ^ 32 }
    ensures coming { IfOk result (λ turn. IsTurnOf run.now round.now progress.now present.now turn) }
    ensures within { IfOk result (λ turn. IsWithin (length run.now.supported) (length present.now) turn) }
    ensures waiting { IfOk result (λ turn. waiting_count turn ≡ length run.now.supported) }
{
    let contributed = contributed_of(alloc, progress)?;
    Turn::new(alloc, &run.supported, &contributed, present, round.over)
}

// Asks those whom the turn of a round asks, one after another, over the table of the round.
fn ask_in_turn<C: Children>(
    alloc: Global,
    children: &mut C,
    run: &Discovered,
    round: &Round,
    roots: &[(Name, List<Name>)],
    answering: &mut Answering<'_>,
    present: &List<Name>,
    mut turn: Turn,
    so_far: &mut Progress,
) -> Result<(), Refusal>
    requires listed { AreListed run.now }
    requires each { HasEach run.now so_far.old }
    requires lives { AllLive run.now.group (C.state children.old) }
    requires table { answering.old ≡ round.now.table.table }
    requires roots { roots.now ≡ roots_with round.now.table.table round.now.roots }
    requires names { present.now ≡ present_in round.now }
    requires coming { IsTurnOf run.now round.now so_far.old present.now turn }
    requires within { IsWithin (length run.now.supported) (length present.now) turn }
    requires waiting { waiting_count turn ≡ length run.now.supported }
    ensures reason { HasReason (C.faults children.old) (C.faults children.new) result }
    ensures named { IfErr result (λ refusal. NamesAmong run.now.names (stop_of refusal)) }
    ensures due { IfErr result (λ refusal. IsDueStop (stop_of refusal)) }
    ensures starts { (C.state children.new).starts ≡ (C.state children.old).starts }
    ensures live { (C.state children.new).live ≡ (C.state children.old).live }
    ensures still { HasEach run.now so_far.new }
    ensures attends { Over C.Children children.old children.new (AttendsAll run.now.group) }
    ensures asks { TakesTurns C.Children run.now round.now so_far.old so_far.new children.old children.new result }
{
    let table = round.table.table();
    let mut claimed = false;
    while let Some(number) = turn.next(claimed) {
        let offered = offered_names(alloc, present.as_slice(), turn.offered().as_slice())?;
        let env = env_of(alloc, round, offered)?;
        claimed = ask(
            alloc, children, run, table, roots, answering, number, env, so_far,
        )?;
    }
    Ok(())
}

// Adds a round that came to its end, on whose roots annotations of these names are present.
fn end_round(
    alloc: Global,
    round: &Round,
    present: List<Name>,
    past: &mut List<PastRound>,
) -> Result<(), NoMemory>
    requires { present ≡ present_in round.now }
    ensures { OnOk result (past.new ≡ past.old ++ past_round round.now ∷ []) }
{
    past.push(past_round(alloc, round, present)?)
}

/// Asks all processors that the round asks, one after another: whether one claims what it is offered decides what is offered to
/// those behind it (JSR 269, the discovery process). The table is lent to the questions of all of them, and what was found out for
/// one is remembered for the others.
pub(crate) fn ask_all<C: Children>(
    alloc: Global,
    children: &mut C,
    run: &Discovered,
    round: &Round,
    so_far: &mut Progress,
) -> Result<(), Refusal>
    requires listed { AreListed run.now }
    requires each { HasEach run.now so_far.old }
    requires lives { AllLive run.now.group (C.state children.old) }
    ensures reason { HasReason (C.faults children.old) (C.faults children.new) result }
    ensures named { IfErr result (λ refusal. NamesAmong run.now.names (stop_of refusal)) }
    ensures due { IfErr result (λ refusal. IsDueStop (stop_of refusal)) }
    ensures starts { (C.state children.new).starts ≡ (C.state children.old).starts }
    ensures live { (C.state children.new).live ≡ (C.state children.old).live }
    ensures still { HasEach run.now so_far.new }
    ensures attends { Over C.Children children.old children.new (AttendsAll run.now.group) }
    ensures asks { Asks C.Children run.now round.now so_far.old so_far.new children.old children.new result }
{
    let table = round.table.table();
    let roots = roots_with(alloc, table, round.roots.as_slice())?;
    let present = present_among(alloc, round, roots.as_slice())?;
    let turn = turn_of(alloc, run, round, so_far, &present)?;
    let mut answering = Answering::new(alloc, table)?;
    let asked = ask_in_turn(
        alloc,
        children,
        run,
        round,
        roots.as_slice(),
        &mut answering,
        &present,
        turn,
        so_far,
    );
    drop(answering);
    match asked {
        Ok(()) => Ok(end_round(alloc, round, present, &mut so_far.past)?),
        Err(refusal) => Err(refusal),
    }
}
