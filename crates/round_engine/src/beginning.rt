// The children of the processors of a run, from their starts to their stops.
ghost use Rattle.std.specs.Prelude.{◌≡◌, ◌∷◌, ◌++◌, ◌≤◌, true, [], length, map, string_bytes, Contains, IfOk, IfErr, OnOk, OnErr};
ghost use Rattle.apt_base.specs.Limits.{max_processors};
ghost use Rattle.apt_outside.specs.Count.{Told};
ghost use Rattle.apt_outside.specs.Child.{Attends, StaysSent, without};
ghost use Rattle.project_units.specs.Refusals.{Names, NamesAmong, is_of_hello};
ghost use Rattle.project_units.specs.Faults.{stop_of, HasReason};
ghost use Rattle.round_engine.specs.Run.{supported_in};
ghost use Rattle.project_units.specs.Plans.{name_of, kind_of, tries_in, names_in, kinds_in};
ghost use Rattle.round_engine.specs.Shown.{AreListed, StartsOne, StartsAll, CountsTries, TriesInOrder, JoinsOne, JoinsAll, AreFresh, LiveInTurn, StopsAll, without_each};
ghost use Rattle.round_engine.specs.Moments.{Over, BeginsOne, BeginsEach, Begins};

use crate::session_fault::refusal_by;
use apt_base::{Kind, List, Name, NoMemory};
use apt_outside::Children;
use child_session::begin;
use processor_claims::{Pattern, Supported};
use project_units::{Refusal, init_bytes};
use record_forms::{Key, KeyProcessor};
use std::alloc::Global;
use wire_frames::Hello;

/// The processors of a run, whose children said Hello. Each has the same place in the five lists.
#[derive(Drop)]
pub(crate) struct Discovered {
    /// Their names.
    pub names: List<Name>,
    /// Their children.
    pub group: List<u32>,
    /// What each declares of what it makes.
    pub kinds: List<Kind>,
    /// What each said of itself.
    pub hellos: List<Hello>,
    /// What each supports.
    pub supported: List<Supported>,
}

// What a Hello says that its processor supports. By the table of frames each of its names is a pattern.
fn supported_in(alloc: Global, hello: &Hello) -> Result<Supported, NoMemory>
    ensures { IfOk result (λ supported. supported ≡ supported_in hello.now) }
{
    let claim = hello.claim;
    let mut patterns = List::new(alloc);
    for text in hello.patterns.as_slice() {
        if let Some(pattern) = Pattern::read(text.copy()?) {
            patterns.push(pattern)?;
        }
    }
    Ok(Supported { patterns, claim })
}

// The same of each.
fn all_supported(alloc: Global, hellos: &[Hello]) -> Result<List<Supported>, NoMemory>
    ensures { IfOk result (λ list. list ≡ map supported_in hellos.now) }
{
    let mut list = List::new(alloc);
    for hello in hellos {
        list.push(supported_in(alloc, hello)?)?;
    }
    Ok(list)
}

// The names of processors.
fn names_of(alloc: Global, processors: &[KeyProcessor]) -> Result<List<Name>, NoMemory>
    ensures { IfOk result (λ names. names ≡ map name_of processors.now) }
{
    let mut names = List::new(alloc);
    for processor in processors {
        names.push(processor.name.copy()?)?;
    }
    Ok(names)
}

// The kinds that processors declare.
fn kinds_of(alloc: Global, processors: &[KeyProcessor]) -> Result<List<Kind>, NoMemory>
    ensures { IfOk result (λ kinds. kinds ≡ map kind_of processors.now) }
{
    let mut kinds = List::new(alloc);
    for processor in processors {
        kinds.push(processor.kind)?;
    }
    Ok(kinds)
}

// The words of a command.
fn words_of(alloc: Global, command: &[Name]) -> Result<Vec<String>, NoMemory>
    ensures { IfOk result (λ words. map string_bytes words.items ≡ command.now) }
{
    let mut words = Vec::new(alloc);
    for word in command {
        words.push(String::from_str(alloc, word.as_str())?)?;
    }
    Ok(words)
}

/// Starts the child of a processor, and gives its number and its Hello. Where it is refused after it was started, it was stopped.
fn begin_one<C: Children>(
    alloc: Global,
    children: &mut C,
    key: &Key,
    processor: &KeyProcessor,
) -> Result<(u32, Hello), Refusal>
    ensures reason { HasReason (C.faults children.old) (C.faults children.new) result }
    ensures named { IfErr result (λ refusal. Names processor.now.name (stop_of refusal)) }
    ensures hello { IfErr result (λ refusal. is_of_hello (stop_of refusal) ≡ true) }
    ensures starts { StartsOne result (C.state children.old) (C.state children.new) }
    ensures live { JoinsOne (C.state children.old).live (C.state children.new).live result }
    ensures says { Told C.tells ((C.state children.new).says ≡ (C.state children.old).says) }
    ensures counted { Over C.Children children.old children.new (CountsTries result) }
    ensures begins { BeginsOne C.Children key.now processor.now children.old children.new result }
{
    let name = processor.name.copy()?;
    let init = init_bytes(alloc, key, &processor.name)?;
    let words = words_of(alloc, processor.command.as_slice())?;
    match begin(alloc, children, &processor.name, &words, init.as_slice()) {
        Ok(begun) => Ok(begun),
        Err(fault) => Err(refusal_by(name, fault)),
    }
}

// Adds a child to the group, or stops it where there is no memory for it.
fn add_child<C: Children>(
    children: &mut C,
    group: &mut List<u32>,
    child: u32,
) -> Result<(), NoMemory>
    requires lives { Contains (C.state children.old).live child }
    ensures count { C.faults children.old ≤ C.faults children.new }
    ensures starts { (C.state children.new).starts ≡ (C.state children.old).starts }
    ensures added { OnOk result (group.new ≡ group.old ++ child ∷ []) }
    ensures same { OnOk result (C.state children.new ≡ C.state children.old) }
    ensures kept { OnErr result (group.new ≡ group.old) }
    ensures stopped { OnErr result ((C.state children.new).live ≡ without child (C.state children.old).live) }
    ensures attends { Told C.tells (Attends child (C.state children.old) (C.state children.new)) }
    ensures sent { Told C.tells (StaysSent child (C.state children.old) (C.state children.new)) }
{
    match group.push(child) {
        Ok(()) => Ok(()),
        Err(_) => {
            children.stop(child);
            Err(NoMemory)
        }
    }
}

/// Starts the children of all processors of the key, in order, up to the first that is refused, and gives what each said of itself.
/// The group has those that live.
fn begin_each<C: Children>(
    alloc: Global,
    children: &mut C,
    key: &Key,
    group: &mut List<u32>,
) -> Result<List<Hello>, Refusal>
    requires none { group.old ≡ [] }
    ensures reason { HasReason (C.faults children.old) (C.faults children.new) result }
    ensures named { IfErr result (λ refusal. NamesAmong (names_in key.now) (stop_of refusal)) }
    ensures hello { IfErr result (λ refusal. is_of_hello (stop_of refusal) ≡ true) }
    ensures starts { StartsAll (tries_in key.now) result (C.state children.old) (C.state children.new) }
    ensures live { (C.state children.new).live ≡ (C.state children.old).live ++ group.new }
    ensures fresh { AreFresh (C.state children.old).live group.new }
    ensures many { IfOk result (λ hellos. length hellos ≡ length group.new) }
    ensures all { OnOk result (length group.new ≡ length key.now.processors) }
    ensures says { Told C.tells ((C.state children.new).says ≡ (C.state children.old).says) }
    ensures counted { Over C.Children children.old children.new (CountsTries result) }
    ensures tried { Over C.Children children.old children.new (TriesInOrder (tries_in key.now)) }
    ensures begins { BeginsEach C.Children key.now group.new children.old children.new result }
{
    let mut list = List::new(alloc);
    for processor in key.processors.as_slice() {
        let begun = begin_one(alloc, children, key, processor)?;
        add_child(children, group, begun.0)?;
        list.push(begun.1)?;
    }
    Ok(list)
}

/// Starts the children of all processors of the key, in order, and gives what each said of itself. At the first that is refused
/// those that were started are stopped, and those behind it are not started.
pub(crate) fn begin_all<C: Children>(
    alloc: Global,
    children: &mut C,
    key: &Key,
) -> Result<Discovered, Refusal>
    requires few { length key.now.processors ≤ max_processors }
    ensures reason { HasReason (C.faults children.old) (C.faults children.new) result }
    ensures named { IfErr result (λ refusal. NamesAmong (names_in key.now) (stop_of refusal)) }
    ensures hello { IfErr result (λ refusal. is_of_hello (stop_of refusal) ≡ true) }
    ensures starts { StartsAll (tries_in key.now) result (C.state children.old) (C.state children.new) }
    ensures live { JoinsAll (C.state children.old).live (C.state children.new).live result }
    ensures says { Told C.tells ((C.state children.new).says ≡ (C.state children.old).says) }
    ensures counted { Over C.Children children.old children.new (CountsTries result) }
    ensures tried { Over C.Children children.old children.new (TriesInOrder (tries_in key.now)) }
    ensures listed { IfOk result AreListed }
    ensures names { IfOk result (λ run. run.names ≡ names_in key.now) }
    ensures kinds { IfOk result (λ run. run.kinds ≡ kinds_in key.now) }
    ensures supported { IfOk result (λ run. run.supported ≡ map supported_in run.hellos) }
    ensures begins { Begins C.Children key.now children.old children.new result }
{
    let names = names_of(alloc, key.processors.as_slice())?;
    let kinds = kinds_of(alloc, key.processors.as_slice())?;
    let mut group = List::new(alloc);
    match begin_each(alloc, children, key, &mut group) {
        Ok(hellos) => match all_supported(alloc, hellos.as_slice()) {
            Ok(supported) => Ok(Discovered {
                names,
                group,
                kinds,
                hellos,
                supported,
            }),
            Err(_) => {
                end_all(children, group);
                Err(Refusal::Memory)
            }
        },
        Err(refusal) => {
            end_all(children, group);
            Err(refusal)
        }
    }
}

/// Stops these children, one after another.
pub(crate) fn end_all<C: Children>(children: &mut C, group: List<u32>)
    requires lives { LiveInTurn group (C.state children.old).live }
    ensures count { C.faults children.old ≤ C.faults children.new }
    ensures starts { (C.state children.new).starts ≡ (C.state children.old).starts }
    ensures live { (C.state children.new).live ≡ without_each group (C.state children.old).live }
    ensures stops { Over C.Children children.old children.new (StopsAll group) }
{
    for child in group.into_vec() {
        children.stop(child);
    }
}
