// A processor that goes from root to root.
ghost use Rattle.std.specs.Prelude.{◌≡◌, drop, IfOk};
ghost use Rattle.local_procs.specs.Plans.{sendable, each_of};
ghost use Rattle.local_procs.specs.Stages.{plan_for};
ghost use Rattle.local_procs.specs.Walks.{walk_go, plan_of_walk};

use crate::Local;
use crate::stage::{Stage, answered, begun};
use apt_base::{ElementRef, List, NoMemory};
use std::alloc::Global;
use wire_frames::{Frame, Reply};

/// Where a processor stands among the roots of a round.
#[derive(Drop)]
pub(crate) struct Walk {
    /// The roots.
    pub(crate) roots: List<ElementRef>,
    /// The number of the one that comes next.
    pub(crate) next: usize,
    /// The one that it handles.
    pub(crate) root: ElementRef,
    /// What it waits for.
    pub(crate) stage: Stage,
}

/// Goes on with the root of this number, and those behind it: gives the next frame, or nothing where all are done.
pub(crate) fn walk_on(
    alloc: Global,
    local: Local,
    roots: List<ElementRef>,
    next: usize,
) -> Result<Option<(Frame, Walk)>, NoMemory>
    ensures { IfOk result (λ walk. plan_of_walk local walk ≡ sendable (each_of (plan_for local) (drop next roots))) }
{
    let mut next = next;
    loop {
        let root = match roots.get(next) {
            Some(root) => root.copy(alloc)?,
            None => return Ok(None),
        };
        next += 1;
        match begun(alloc, local, &root)? {
            Some((frame, stage)) => {
                let walk = Walk {
                    roots,
                    next,
                    root,
                    stage,
                };
                return Ok(Some((frame, walk)));
            }
            None => drop(root),
        }
    }
}

/// Goes on by the reply for which it waits.
pub(crate) fn walk_by(
    alloc: Global,
    local: Local,
    walk: Walk,
    reply: &Reply,
) -> Result<Option<(Frame, Walk)>, NoMemory>
    ensures { IfOk result (λ after. plan_of_walk local after ≡ sendable (walk_go local walk reply.now)) }
{
    let Walk {
        roots,
        next,
        root,
        stage,
    } = walk;
    match answered(alloc, &root, stage, reply)? {
        Some((frame, stage)) => {
            let walk = Walk {
                roots,
                next,
                root,
                stage,
            };
            Ok(Some((frame, walk)))
        }
        None => walk_on(alloc, local, roots, next),
    }
}
