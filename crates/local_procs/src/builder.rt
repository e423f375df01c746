// The processor `builder`.
ghost use Rattle.std.specs.Prelude.{◌≡◌, ◌+◌, drop, IfOk};
ghost use Rattle.local_procs.specs.Builder.{builds, members, with_line, creates, warns, is_instance_field, after_info, after_annotations, after_enclosed, after_member, after_type, after_print, after_creation};
ghost use Rattle.local_procs.specs.Contents.{text_in};
ghost use Rattle.local_procs.specs.Stages.{plan_by, Falls, build_go, build_rank, rest_rank};

use crate::class_text::{Text, in_package_of, is_class, source_of};
use crate::contents::{
    about, carries, first_elements, first_mirror, first_text, info_in, is_accepted, message_at,
};
use apt_base::{ElementRef, List, Name, NoMemory};
use frame_forms::{ElementQuestion, MirrorQuestion};
use std::alloc::Global;
use wire_frames::{Frame, Info, Question, Reply};

const BUILT: &str = "apt.demo.Builder";

/// How many enclosed elements of a class are looked at.
const MOST_MEMBERS: usize = 1000;

/// The most bytes of a source.
const MOST_BYTES: usize = 8_388_608;

/// A builder that is written.
#[derive(Drop)]
pub(crate) struct Building {
    /// The canonical name of the class.
    pub(crate) canonical: Name,
    /// What it encloses.
    pub(crate) members: List<ElementRef>,
    /// The number of the next one.
    pub(crate) next: usize,
    /// The text so far.
    pub(crate) text: Text,
}

/// What `builder` waits for, of a root.
#[derive(Drop)]
pub(crate) enum BuildStage {
    /// What it is.
    Info,
    /// The annotations that are written on it.
    Annotations {
        /// What it is.
        info: Info,
    },
    /// What it encloses.
    Enclosed {
        /// What it is.
        info: Info,
    },
    /// What an enclosed element is.
    Member {
        building: Building,
        member: ElementRef,
    },
    /// The type of a field.
    Type {
        building: Building,
        name: Name,
    },
    /// The text of that type.
    Print {
        building: Building,
        name: Name,
    },
    /// What became of its file.
    Creation,
    /// That its message is noted.
    Last,
}

type Step = Option<(Frame, BuildStage)>;

fn is_instance_field(info: &Info) -> bool
    ensures { result ≡ is_instance_field info.now }
{
    info.kind == 6 && info.modifiers & 32 == 0
}

fn warns(alloc: Global, root: &ElementRef) -> Result<Step, NoMemory>
    ensures plan { IfOk result (λ step. plan_by (build_go root.now) step ≡ warns root.now) }
    ensures falls { IfOk result (Falls build_rank 1) }
{
    let frame = message_at(alloc, 1, root, "builder not created")?;
    Ok(Some((frame, BuildStage::Last)))
}

fn creates(
    alloc: Global,
    root: &ElementRef,
    canonical: &Name,
    content: List<u8>,
) -> Result<Step, NoMemory>
    ensures plan { IfOk result (λ step. plan_by (build_go root.now) step ≡ creates root.now canonical.now content) }
    ensures falls { IfOk result (Falls build_rank 2) }
{
    if content.len() > MOST_BYTES {
        drop(content);
        return warns(alloc, root);
    }
    let canonical = canonical.as_str();
    let name = Name::from_string(alloc, format!(in alloc; "{canonical}Builder")?);
    let frame = source_of(alloc, root, name, content)?;
    Ok(Some((frame, BuildStage::Creation)))
}

// The members from the next one on, and then the file.
fn rest_of(alloc: Global, root: &ElementRef, building: Building) -> Result<Step, NoMemory>
    ensures plan { IfOk result (λ step. plan_by (build_go root.now) step
        ≡ members root.now building.canonical (drop building.next building.members) building.text) }
    ensures falls { IfOk result (Falls build_rank (rest_rank building + 2)) }
{
    let Building {
        canonical,
        members,
        next,
        text,
    } = building;
    match members.get(next) {
        Some(member) => {
            let member = member.copy(alloc)?;
            let frame = about(alloc, ElementQuestion::Info, &member)?;
            let building = Building {
                canonical,
                members,
                next: next + 1,
                text,
            };
            Ok(Some((frame, BuildStage::Member { building, member })))
        }
        None => {
            let mut text = text;
            text.add("}\n")?;
            creates(alloc, root, &canonical, text.into_bytes())
        }
    }
}

fn after_member(
    alloc: Global,
    root: &ElementRef,
    building: Building,
    member: &ElementRef,
    reply: &Reply,
) -> Result<Step, NoMemory>
    ensures plan { IfOk result (λ step. plan_by (build_go root.now) step
        ≡ after_member (members root.now building.canonical (drop building.next building.members)) building.text member.now reply.now) }
    ensures falls { IfOk result (Falls build_rank (rest_rank building + 5)) }
{
    match info_in(reply) {
        Some(info) => {
            if !is_instance_field(info) {
                return rest_of(alloc, root, building);
            }
            let name = info.simple.copy()?;
            let frame = about(alloc, ElementQuestion::TypeOf, member)?;
            Ok(Some((frame, BuildStage::Type { building, name })))
        }
        None => rest_of(alloc, root, building),
    }
}

fn after_type(
    alloc: Global,
    root: &ElementRef,
    building: Building,
    name: Name,
    reply: &Reply,
) -> Result<Step, NoMemory>
    ensures plan { IfOk result (λ step. plan_by (build_go root.now) step
        ≡ after_type (members root.now building.canonical (drop building.next building.members)) building.text name reply.now) }
    ensures falls { IfOk result (Falls build_rank (rest_rank building + 4)) }
{
    match first_mirror(reply) {
        Some(mirror) => {
            let mirror = mirror.copy(alloc)?;
            let frame = Frame::Ask(Question::Mirror(MirrorQuestion::PrintType, mirror));
            Ok(Some((frame, BuildStage::Print { building, name })))
        }
        None => {
            drop(name);
            rest_of(alloc, root, building)
        }
    }
}

// The text with the line of a field.
fn with_line(text: Text, name: &Name, reply: &Reply) -> Result<Text, NoMemory>
    ensures { IfOk result (λ longer. longer ≡ with_line text name.now (text_in reply.now)) }
{
    let mut text = text;
    match first_text(reply) {
        Some(of) => {
            text.add("  public ")?;
            text.add(of.as_str())?;
            text.add(" ")?;
            text.add(name.as_str())?;
            text.add(";\n")?;
            Ok(text)
        }
        None => Ok(text),
    }
}

fn after_print(
    alloc: Global,
    root: &ElementRef,
    building: Building,
    name: &Name,
    reply: &Reply,
) -> Result<Step, NoMemory>
    ensures plan { IfOk result (λ step. plan_by (build_go root.now) step
        ≡ after_print (members root.now building.canonical (drop building.next building.members)) building.text name.now reply.now) }
    ensures falls { IfOk result (Falls build_rank (rest_rank building + 3)) }
{
    let Building {
        canonical,
        members,
        next,
        text,
    } = building;
    let text = with_line(text, name, reply)?;
    let building = Building {
        canonical,
        members,
        next,
        text,
    };
    rest_of(alloc, root, building)
}

#[tactic(auto, unfolding(crate::specs::Builder::after_creation))]
fn after_creation(alloc: Global, root: &ElementRef, reply: &Reply) -> Result<Step, NoMemory>
    ensures plan { IfOk result (λ step. plan_by (build_go root.now) step ≡ after_creation root.now reply.now) }
    ensures falls { IfOk result (Falls build_rank 1) }
{
    if is_accepted(reply) {
        return Ok(None);
    }
    warns(alloc, root)
}

#[tactic(auto, unfolding(crate::specs::Builder::after_enclosed))]
fn after_enclosed(
    alloc: Global,
    root: &ElementRef,
    info: &Info,
    reply: &Reply,
) -> Result<Step, NoMemory>
    ensures plan { IfOk result (λ step. plan_by (build_go root.now) step ≡ after_enclosed root.now info.now reply.now) }
    ensures falls { IfOk result (Falls build_rank 4002) }
{
    let members = first_elements(alloc, MOST_MEMBERS, reply)?;
    let mut text = in_package_of(alloc, info)?;
    text.add("public class ")?;
    text.add(info.simple.as_str())?;
    text.add("Builder {\n")?;
    let canonical = info.canonical.copy()?;
    let building = Building {
        canonical,
        members,
        next: 0,
        text,
    };
    rest_of(alloc, root, building)
}

#[tactic(auto, unfolding(crate::specs::Builder::after_annotations))]
fn after_annotations(
    alloc: Global,
    root: &ElementRef,
    info: Info,
    reply: &Reply,
) -> Result<Step, NoMemory>
    ensures plan { IfOk result (λ step. plan_by (build_go root.now) step ≡ after_annotations root.now info reply.now) }
    ensures falls { IfOk result (Falls build_rank 4003) }
{
    if !carries(BUILT, reply) {
        drop(info);
        return Ok(None);
    }
    let frame = about(alloc, ElementQuestion::Enclosed, root)?;
    Ok(Some((frame, BuildStage::Enclosed { info })))
}

#[tactic(auto, unfolding(crate::specs::Builder::after_info))]
fn after_info(alloc: Global, root: &ElementRef, reply: &Reply) -> Result<Step, NoMemory>
    ensures plan { IfOk result (λ step. plan_by (build_go root.now) step ≡ after_info root.now reply.now) }
    ensures falls { IfOk result (Falls build_rank 4004) }
{
    match info_in(reply) {
        Some(info) => {
            if !is_class(info.kind) {
                return Ok(None);
            }
            let info = info.copy()?;
            let frame = about(alloc, ElementQuestion::Annotations, root)?;
            Ok(Some((frame, BuildStage::Annotations { info })))
        }
        None => Ok(None),
    }
}

/// What `builder` does for a root first.
pub(crate) fn build_first(alloc: Global, root: &ElementRef) -> Result<Step, NoMemory>
    ensures { IfOk result (λ step. plan_by (build_go root.now) step ≡ builds root.now) }
{
    let frame = about(alloc, ElementQuestion::Info, root)?;
    Ok(Some((frame, BuildStage::Info)))
}

/// What it does next, by the reply for which it waits.
pub(crate) fn build_next(
    alloc: Global,
    root: &ElementRef,
    stage: BuildStage,
    reply: &Reply,
) -> Result<Step, NoMemory>
    ensures plan { IfOk result (λ step. plan_by (build_go root.now) step ≡ build_go root.now stage reply.now) }
    ensures falls { IfOk result (Falls build_rank (build_rank stage)) }
{
    match stage {
        BuildStage::Info => after_info(alloc, root, reply),
        BuildStage::Annotations { info } => after_annotations(alloc, root, info, reply),
        BuildStage::Enclosed { info } => after_enclosed(alloc, root, &info, reply),
        BuildStage::Member { building, member } => {
            after_member(alloc, root, building, &member, reply)
        }
        BuildStage::Type { building, name } => after_type(alloc, root, building, name, reply),
        BuildStage::Print { building, name } => after_print(alloc, root, building, &name, reply),
        BuildStage::Creation => after_creation(alloc, root, reply),
        BuildStage::Last => Ok(None),
    }
}
