// Reads scripts.
ghost use Rattle.std.specs.Prelude.{◌≡◌, [], ◌∷◌, ◌++◌, ◌≤◌, ◌<◌, length, take, drop, IfOk, OnOk, OnErr, flat_map, option_copied, ◌+◌};
ghost use Rattle.apt_outside.specs.Scripted.{script_of, answer_of, IsCall, shown_frames, frames_of, HasRoom, HasGiven, IsJoined};

use crate::script::{Attempt, Call, Script, Started};
use std::alloc::{AllocError, Global};

/// A record of a start: the child's name and the words of its command.
///
/// Out of memory is the only error.
fn copy_call(alloc: Global, name: &str, command: &[String]) -> Result<Call, AllocError>
    ensures { IfOk result (IsCall name.now command.now) }
{
    let mut words = Vec::new(alloc);
    for word in command {
        words.push(word.clone()?)?;
    }
    Ok(Call {
        name: String::from_str(alloc, name)?,
        command: words,
    })
}

/// The script of the child of this name: the first of that name, or none.
///
/// It reads the scripts in order, so it costs as many comparisons as there are scripts.
pub fn find_script<'a>(scripts: &'a [Script], name: &str) -> Option<&'a Script>
    ensures { option_copied result ≡ script_of scripts.now name.now }
{
    for script in scripts {
        if script.name.as_str() == name {
            return Some(script);
        }
    }
    None
}

/// What a child of this name adds after that number of sends.
pub fn answer_after<'a>(scripts: &'a [Script], name: &str, sends: usize) -> &'a [u8]
    ensures { result.now ≡ answer_of (script_of scripts.now name.now) sends }
{
    match find_script(scripts, name) {
        None => &[],
        Some(script) => answer_at(&script.answers, sends),
    }
}

fn answer_at(answers: &Vec<Vec<u8>>, at: usize) -> &[u8]
    ensures { result.now ≡ flat_map (λ a. a.items) (take 1 (drop at answers.now.items)) }
{
    if at < answers.len() {
        &answers[at]
    } else {
        &[]
    }
}

/// A child that was just started.
fn begin(
    alloc: Global,
    scripts: &Vec<Script>,
    name: &str,
    command: &[String],
) -> Result<Started, AllocError>
    ensures call { IfOk result (λ started. IsCall name.now command.now started.call) }
    ensures sent { IfOk result (λ started. started.sent.items ≡ []) }
    ensures taken { IfOk result (λ started. started.taken ≡ 0) }
    ensures joined { IfOk result (IsJoined scripts.now.items) }
{
    let said = answer_after(scripts, name, 0).to_vec(alloc)?;
    Ok(Started {
        call: copy_call(alloc, name, command)?,
        sent: Vec::new(alloc),
        joined: Vec::new(alloc),
        said,
        taken: 0,
    })
}

/// What a start wants of memory: the record of its call, and the child that it begins.
///
/// Out of memory is the only error.
pub fn attempt(
    alloc: Global,
    scripts: &Vec<Script>,
    name: &str,
    command: &[String],
) -> Result<Attempt, AllocError>
    ensures call { IfOk result (λ attempt. IsCall name.now command.now attempt.call) }
    ensures begun { IfOk result (λ attempt. IsCall name.now command.now attempt.begun.call) }
    ensures sent { IfOk result (λ attempt. attempt.begun.sent.items ≡ []) }
    ensures taken { IfOk result (λ attempt. attempt.begun.taken ≡ 0) }
    ensures joined { IfOk result (λ attempt. IsJoined scripts.now.items attempt.begun) }
{
    Ok(Attempt {
        call: copy_call(alloc, name, command)?,
        begun: begin(alloc, scripts, name, command)?,
    })
}

// Makes room for a frame more, and for what a child then says.
fn make_room(started: &mut Started, frame: &[u8], answer: &[u8]) -> Result<(), AllocError>
    ensures call { started.new.call ≡ started.old.call }
    ensures sent { started.new.sent ≡ started.old.sent }
    ensures taken { started.new.taken ≡ started.old.taken }
    ensures joined { started.new.joined.items ≡ started.old.joined.items }
    ensures said { started.new.said.items ≡ started.old.said.items }
    ensures frame { OnOk result (HasRoom started.new.joined frame.now) }
    ensures answer { OnOk result (HasRoom started.new.said answer.now) }
{
    started.joined.reserve(frame.len())?;
    started.said.reserve(answer.len())
}

// Puts a copy of a frame behind others.
fn push_frame(alloc: Global, frames: &mut Vec<Vec<u8>>, frame: &[u8]) -> Result<(), AllocError>
    ensures ok { OnOk result (shown_frames frames.new.items ≡ shown_frames frames.old.items ++ frame.now ∷ []) }
    ensures err { OnErr result (frames.new.items ≡ frames.old.items) }
{
    frames.push(frame.to_vec(alloc)?)?;
    Ok(())
}

/// Adds a frame to those that a child was sent, and what it then says more.
pub fn add_frame(
    alloc: Global,
    scripts: &Vec<Script>,
    started: &mut Started,
    frame: &[u8],
) -> Result<(), AllocError>
    requires { IsJoined scripts.now.items started.old }
    ensures call { started.new.call ≡ started.old.call }
    ensures taken { started.new.taken ≡ started.old.taken }
    ensures joined { IsJoined scripts.now.items started.new }
    ensures ok { OnOk result (frames_of started.new ≡ frames_of started.old ++ frame.now ∷ []) }
    ensures err { OnErr result (frames_of started.new ≡ frames_of started.old) }
{
    let answer = answer_after(scripts, started.call.name.as_str(), started.sent.len() + 1);
    make_room(started, frame, answer)?;
    push_frame(alloc, &mut started.sent, frame)?;
    started.joined.extend_from_slice(frame).unwrap();
    started.said.extend_from_slice(answer).unwrap();
    Ok(())
}

/// Gives the first of the bytes that wait.
pub fn give(started: &mut Started, room: &mut [u8]) -> usize
    requires within { started.old.taken ≤ length started.old.said.items }
    requires room { 0 < length room.old }
    ensures rest { started.new ≡ record started.old { taken = started.new.taken } }
    ensures within { started.new.taken ≤ length started.old.said.items }
    ensures fits { result ≤ length room.new }
    ensures given { HasGiven started.old started.new.taken (take result room.new) }
    ensures ended { take result room.new ≡ [] → drop started.old.taken started.old.said.items ≡ [] }
{
    let count = room.len().min(started.said.len() - started.taken);
    let from = started.taken;
    room[..count].copy_from_slice(&started.said[from..from + count]);
    started.taken += count;
    count
}
