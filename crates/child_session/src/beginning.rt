// Begins a session.
ghost use Rattle.std.specs.Prelude.{◌≡◌};
ghost use Rattle.apt_outside.specs.Count.{Told};
ghost use Rattle.apt_outside.specs.Child.{call};
ghost use Rattle.child_session.specs.Faults.{HasReason};
ghost use Rattle.child_session.specs.Beginning.{StartsOne, Joins, RefusesHello, hello_in};
ghost use Rattle.child_session.specs.Moments.{Begins};

use crate::SessionFault;
use crate::receiving::exchange;
use apt_base::Name;
use apt_outside::Children;
use frame_breaches::{Breach, stray};
use std::alloc::Global;
use wire_frames::{Frame, Hello};

// The Hello that an answer is. No other frame may come first.
fn hello_in(answer: Result<Frame, Breach>) -> Result<Hello, Breach>
    ensures { result ≡ hello_in answer }
{
    match answer {
        Ok(Frame::Hello(hello)) => Ok(hello),
        Ok(other) => {
            let breach = stray(&other);
            drop(other);
            Err(breach)
        }
        Err(breach) => Err(breach),
    }
}

/// Starts a child, sends it the first frame, and gives its number and its Hello.
///
/// `Breach` says how its answer leaves the protocol: exactly so where the children tell what they say. `Failed`
/// comes where a start was tried, `Memory` also where none was. Where it is refused after the child was started,
/// the child was stopped.
pub fn begin<C: Children>(
    alloc: Global,
    children: &mut C,
    name: &Name,
    command: &[String],
    init: &[u8],
) -> Result<(u32, Hello), SessionFault>
    ensures reason { HasReason (C.faults children.old) (C.faults children.new) result }
    ensures refused { RefusesHello result }
    ensures starts { StartsOne (C.state children.old).starts (C.state children.new).starts result }
    ensures live { Joins (C.state children.old).live (C.state children.new).live result }
    ensures says { Told C.tells ((C.state children.new).says ≡ (C.state children.old).says) }
    ensures begins { Begins C.Children (call name.now command.now) init.now children.old children.new result }
{
    let child = children.start(name.as_str(), command)?;
    let answer = match exchange(alloc, children, child, init) {
        Ok(answer) => answer,
        Err(fault) => {
            children.stop(child);
            return Err(SessionFault::from(fault));
        }
    };
    match hello_in(answer) {
        Ok(hello) => Ok((child, hello)),
        Err(breach) => {
            children.stop(child);
            Err(SessionFault::Breach(breach))
        }
    }
}
