// Which of what a processor gave comes of which root.
ghost use Rattle.std.specs.Prelude.{◌≡◌, map, IfOk, OnOk};
ghost use Rattle.std.specs.FinMap as fin;
ghost use Rattle.std.specs.List.{range_with_len};
ghost use Rattle.apt_base.specs.Names.{with_names};
ghost use Rattle.apt_filer.specs.Origins.{message_origin, shown_origin};
ghost use Rattle.run_entries.specs.Maps.{with_origin};
ghost use Rattle.run_entries.specs.Outputs.{root_name};
ghost use Rattle.run_entries.specs.Positions.{positions};
ghost use Rattle.run_entries.specs.Roots.{is_root, is_file_outside, is_message_outside, AreFilePlaces, AreMessagePlaces, AreLeft, has_some};

use crate::places::Places;
use crate::processed::{GeneratedFile, Processed};
use apt_base::{List, Name, Names, NoMemory};
use apt_filer::{Origin, attribute};
use std::alloc::Global;
use wire_frames::Message;

// The names of roots as a set.
fn set_of_roots(alloc: Global, roots: &[(Name, List<Name>)]) -> Result<Names, NoMemory>
    ensures { IfOk result (λ set. set ≡ with_names fin.empty (map root_name roots.now)) }
{
    let mut set = Names::new(alloc);
    for root in roots {
        set.insert(root.0.as_str())?;
    }
    Ok(set)
}

// The unit of the message's element, if it is printed at one.
#[tactic(auto, unfolding(apt_filer::specs::Origins::origin_of))]
fn message_origin(message: &Message) -> Origin<'_>
    ensures { shown_origin result ≡ message_origin message.now }
{
    match &message.element {
        None => Origin::Missing,
        Some(element) => Origin::One(&element.unit),
    }
}

// Whether it is one of these roots.
fn is_root(roots: &Names, origin: &Origin<'_>) -> bool
    ensures { result ≡ is_root roots.now (shown_origin origin.now) }
{
    match origin {
        Origin::One(unit) => roots.contains(unit.as_str()),
        Origin::Several | Origin::Missing => false,
    }
}

// Adds a place at the one unit of an origin, if it has one.
fn add_place(places: &mut Places, origin: &Origin<'_>, place: usize) -> Result<(), NoMemory>
    ensures { OnOk result (places.new ≡ with_origin places.old (shown_origin origin.now) place) }
{
    match origin {
        Origin::One(unit) => places.add(unit.as_str(), place),
        Origin::Several | Origin::Missing => Ok(()),
    }
}

/// The places of the files of each origin.
pub(crate) fn file_places(alloc: Global, files: &[GeneratedFile]) -> Result<Places, NoMemory>
    ensures { IfOk result (λ places. AreFilePlaces places files.now) }
{
    let mut places = Places::new(alloc);
    for at in 0..files.len() {
        add_place(&mut places, &attribute(&files[at].origins), at)?;
    }
    Ok(places)
}

/// The places of the messages of each origin.
pub(crate) fn message_places(alloc: Global, messages: &[Message]) -> Result<Places, NoMemory>
    ensures { IfOk result (λ places. AreMessagePlaces places messages.now) }
{
    let mut places = Places::new(alloc);
    for at in 0..messages.len() {
        add_place(&mut places, &message_origin(&messages[at]), at)?;
    }
    Ok(places)
}

// The places of the files that come of none of the roots alone.
fn files_left(
    alloc: Global,
    files: &[GeneratedFile],
    roots: &Names,
) -> Result<List<usize>, NoMemory>
    ensures { IfOk result (λ places. places ≡ positions (is_file_outside roots.now) 0 files.now) }
{
    let mut places = List::new(alloc);
    for at in 0..files.len() {
        if !is_root(roots, &attribute(&files[at].origins)) {
            places.push(at)?;
        }
    }
    Ok(places)
}

// The places of the messages that come of none of the roots alone.
fn messages_left(
    alloc: Global,
    messages: &[Message],
    roots: &Names,
) -> Result<List<usize>, NoMemory>
    ensures { IfOk result (λ places. places ≡ positions (is_message_outside roots.now) 0 messages.now) }
{
    let mut places = List::new(alloc);
    for at in 0..messages.len() {
        if !is_root(roots, &message_origin(&messages[at])) {
            places.push(at)?;
        }
    }
    Ok(places)
}

/// The places of what comes of no root alone to which something is offered.
#[derive(Drop)]
pub(crate) struct Left {
    pub files: List<usize>,
    pub messages: List<usize>,
}

/// What is left of what a processor gave.
pub(crate) fn left_of(alloc: Global, done: &Processed) -> Result<Left, NoMemory>
    ensures { IfOk result (AreLeft done.now) }
{
    let roots = set_of_roots(alloc, done.annotated.as_slice())?;
    let files = files_left(alloc, done.files.as_slice(), &roots)?;
    let messages = messages_left(alloc, done.messages.as_slice(), &roots)?;
    Ok(Left { files, messages })
}

/// Whether there is something.
pub(crate) fn has_some(left: &Left) -> bool
    ensures { result ≡ has_some left.now }
{
    !(left.files.is_empty() && left.messages.is_empty())
}

/// All places of this many items.
pub(crate) fn all_places(alloc: Global, count: usize) -> Result<List<usize>, NoMemory>
    ensures { IfOk result (λ places. places ≡ range_with_len 0 count) }
{
    let mut places = List::new(alloc);
    for at in 0..count {
        places.push(at)?;
    }
    Ok(places)
}
