// The processor `registry`.
ghost use Rattle.std.specs.Prelude.{◌≡◌, IfOk};
ghost use Rattle.apt_base.specs.Names.{with_names};
ghost use Rattle.local_procs.specs.Plans.{sendable};
ghost use Rattle.local_procs.specs.Registry.{is_info_name, is_top_level, types_in, lines_of, file_of, writes, after_registered, registers};
ghost use Rattle.local_procs.specs.Stages.{registry_go, registry_plan};

use crate::class_text::Text;
use crate::contents::elements_of;
use apt_base::{ElementRef, List, Name, Names, NoMemory};
use frame_forms::NameQuestion;
use std::alloc::Global;
use wire_frames::{Creation, Frame, Question, Refused, Reply, is_too_large};

const REGISTERED: &str = "apt.demo.Registered";

/// What `registry` waits for, in a round.
#[derive(Drop)]
pub(crate) enum RegistryStage {
    /// The elements that carry its annotation.
    Registered {
        /// Whether the round is the last one.
        over: bool,
        /// The names that it remembers.
        kept: Names,
    },
    /// What became of its file.
    File {
        /// The names that it remembers.
        kept: Names,
    },
}

/// What `registry` does next.
#[derive(Drop)]
pub(crate) enum RegistryStep {
    /// The frame that is sent, and what is waited for then.
    Sends(Frame, RegistryStage),
    /// The round is done, and these names are remembered.
    Ends(Names),
}

// Whether a name is that of the file `package-info` of a package.
fn is_info_name(name: &str) -> bool
    ensures { result ≡ is_info_name name.now }
{
    if name == "package-info" {
        return true;
    }
    name.as_bytes().ends_with(b".package-info")
}

// Whether an element is a top-level type.
fn is_top_level(element: &ElementRef) -> bool
    ensures { result ≡ is_top_level element.now }
{
    element.path.is_empty() && !is_info_name(element.unit.as_str())
}

// The names that are remembered behind a reply.
#[tactic(auto, unfolding(crate::specs::Registry::types_in))]
fn remembered(kept: Names, reply: &Reply) -> Result<Names, NoMemory>
    ensures { IfOk result (λ names. names ≡ with_names kept (types_in reply.now)) }
{
    let mut kept = kept;
    for element in elements_of(reply) {
        if is_top_level(element) {
            kept.insert(element.unit.as_str())?;
        }
    }
    Ok(kept)
}

// A line for each name.
fn lines_of(alloc: Global, names: &[Name]) -> Result<List<u8>, NoMemory>
    ensures { IfOk result (λ content. content ≡ lines_of names.now) }
{
    let mut text = Text::new(alloc);
    for name in names {
        text.add(name.as_str())?;
        text.add("\n")?;
    }
    Ok(text.into_bytes())
}

fn file_of(alloc: Global, names: &[Name]) -> Result<Frame, NoMemory>
    ensures { IfOk result (λ frame. frame ≡ file_of names.now) }
{
    let package = Name::new(alloc, "")?;
    let relative = Name::new(alloc, "META-INF/registry.txt")?;
    let content = lines_of(alloc, names)?;
    Ok(Frame::Create(Creation::Resource {
        location: 0,
        package,
        relative,
        content,
        origins: List::new(alloc),
    }))
}

// The file is written in the last round, if there is a name.
#[tactic(auto, unfolding(crate::specs::Registry::writes))]
fn writes(alloc: Global, over: bool, kept: Names) -> Result<RegistryStep, NoMemory>
    ensures { IfOk result (λ step. registry_plan step ≡ sendable (writes over kept)) }
{
    if !over {
        return Ok(RegistryStep::Ends(kept));
    }
    let names = kept.list()?;
    if names.is_empty() {
        return Ok(RegistryStep::Ends(kept));
    }
    let frame = file_of(alloc, names.as_slice())?;
    if is_too_large(&frame) {
        drop(frame);
        return Ok(RegistryStep::Ends(kept));
    }
    Ok(RegistryStep::Sends(frame, RegistryStage::File { kept }))
}

#[tactic(auto, unfolding(crate::specs::Registry::after_registered))]
fn after_registered(
    alloc: Global,
    over: bool,
    kept: Names,
    reply: &Reply,
) -> Result<RegistryStep, NoMemory>
    ensures { IfOk result (λ step. registry_plan step ≡ sendable (after_registered over kept reply.now)) }
{
    let kept = remembered(kept, reply)?;
    writes(alloc, over, kept)
}

/// What `registry` does in a round first: `there` says whether its annotation is offered, `over` whether the round is the
/// last one, and `kept` has the names that it remembers.
pub(crate) fn registers(
    alloc: Global,
    there: bool,
    over: bool,
    kept: Names,
) -> Result<RegistryStep, NoMemory>
    ensures { IfOk result (λ step. registry_plan step ≡ sendable (registers there over kept)) }
{
    if !there {
        return writes(alloc, over, kept);
    }
    let name = Name::new(alloc, REGISTERED)?;
    let frame = Frame::Ask(Question::Name(NameQuestion::AnnotatedWith, name));
    if is_too_large(&frame) {
        drop(frame);
        return after_registered(alloc, over, kept, &Reply::Refused(Refused::TooLarge));
    }
    Ok(RegistryStep::Sends(frame, RegistryStage::Registered { over, kept }))
}

/// What it does next, by the reply for which it waits.
pub(crate) fn registry_next(
    alloc: Global,
    stage: RegistryStage,
    reply: &Reply,
) -> Result<RegistryStep, NoMemory>
    ensures { IfOk result (λ step. registry_plan step ≡ sendable (registry_go stage reply.now)) }
{
    match stage {
        RegistryStage::Registered { over, kept } => after_registered(alloc, over, kept, reply),
        RegistryStage::File { kept } => Ok(RegistryStep::Ends(kept)),
    }
}
