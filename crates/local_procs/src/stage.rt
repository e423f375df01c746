// What a processor that goes from root to root waits for.
ghost use Rattle.std.specs.Prelude.{◌≡◌, IfOk, option_map};
ghost use Rattle.local_procs.specs.declared.stage.Stage.TheVariants as stages;
ghost use Rattle.local_procs.specs.Plans.{sendable};
ghost use Rattle.local_procs.specs.Stages.{plan_by, Falls, go_of, rank_of, plan_for};

use crate::Local;
use crate::builder::{BuildStage, build_first, build_next};
use crate::chain::{ChainStage, chain_first, chain_next};
use crate::checker::{CheckStage, check_first, check_next};
use apt_base::{ElementRef, NoMemory};
use std::alloc::Global;
use wire_frames::{Frame, Refused, Reply, is_too_large};

/// What a processor waits for, of the root that it handles.
#[derive(Drop)]
pub(crate) enum Stage {
    /// `checker`.
    Checks(CheckStage),
    /// `builder`.
    Builds(BuildStage),
    /// `chain`.
    Chains(ChainStage),
}

/// The frame that is sent, and what is waited for then; nothing where the root is done.
pub(crate) type Step = Option<(Frame, Stage)>;

fn checking(step: Option<(Frame, CheckStage)>) -> Step
    ensures { result ≡ option_map (λ x. (x.0, stages.Checks x.1)) step }
{
    match step {
        Some((frame, stage)) => Some((frame, Stage::Checks(stage))),
        None => None,
    }
}

fn building(step: Option<(Frame, BuildStage)>) -> Step
    ensures { result ≡ option_map (λ x. (x.0, stages.Builds x.1)) step }
{
    match step {
        Some((frame, stage)) => Some((frame, Stage::Builds(stage))),
        None => None,
    }
}

fn chaining(step: Option<(Frame, ChainStage)>) -> Step
    ensures { result ≡ option_map (λ x. (x.0, stages.Chains x.1)) step }
{
    match step {
        Some((frame, stage)) => Some((frame, Stage::Chains(stage))),
        None => None,
    }
}

/// What a processor does for a root first.
fn first_of(alloc: Global, local: Local, root: &ElementRef) -> Result<Step, NoMemory>
    ensures { IfOk result (λ step. plan_by (go_of root.now) step ≡ plan_for local root.now) }
{
    match local {
        Local::Checker => Ok(checking(check_first(alloc, root)?)),
        Local::Builder => Ok(building(build_first(alloc, root)?)),
        Local::Chain => Ok(chaining(chain_first(alloc, root)?)),
        Local::Registry => Ok(None),
    }
}

/// What it does next, by the reply for which it waits.
fn next_of(alloc: Global, root: &ElementRef, stage: Stage, reply: &Reply) -> Result<Step, NoMemory>
    ensures plan { IfOk result (λ step. plan_by (go_of root.now) step ≡ go_of root.now stage reply.now) }
    ensures falls { IfOk result (Falls rank_of (rank_of stage)) }
{
    match stage {
        Stage::Checks(stage) => Ok(checking(check_next(alloc, root, stage, reply)?)),
        Stage::Builds(stage) => Ok(building(build_next(alloc, root, stage, reply)?)),
        Stage::Chains(stage) => Ok(chaining(chain_next(alloc, root, stage, reply)?)),
    }
}

/// The step that is taken: a frame that is too large is not sent, and is as one that was answered by nothing.
fn settled(alloc: Global, root: &ElementRef, step: Step) -> Result<Step, NoMemory>
    ensures { IfOk result (λ taken. plan_by (go_of root.now) taken ≡ sendable (plan_by (go_of root.now) step)) }
{
    let mut step = step;
    loop {
        match step {
            None => return Ok(None),
            Some((frame, stage)) => {
                if !is_too_large(&frame) {
                    return Ok(Some((frame, stage)));
                }
                drop(frame);
                step = next_of(alloc, root, stage, &Reply::Refused(Refused::TooLarge))?;
            }
        }
    }
}

/// The step that is taken for a root first.
pub(crate) fn begun(alloc: Global, local: Local, root: &ElementRef) -> Result<Step, NoMemory>
    ensures { IfOk result (λ step. plan_by (go_of root.now) step ≡ sendable (plan_for local root.now)) }
{
    let step = first_of(alloc, local, root)?;
    settled(alloc, root, step)
}

/// The same behind the reply for which it waits.
pub(crate) fn answered(
    alloc: Global,
    root: &ElementRef,
    stage: Stage,
    reply: &Reply,
) -> Result<Step, NoMemory>
    ensures { IfOk result (λ step. plan_by (go_of root.now) step ≡ sendable (go_of root.now stage reply.now)) }
{
    let step = next_of(alloc, root, stage, reply)?;
    settled(alloc, root, step)
}
