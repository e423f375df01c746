// Shows a round to a child.
ghost use Rattle.std.specs.Prelude.{◌≡◌, Contains, IfOk, OnOk};
ghost use Rattle.apt_outside.specs.Count.{Told};
ghost use Rattle.apt_outside.specs.Child.{Attends};
ghost use Rattle.child_session.specs.Acts.{end_of, claimed_by};
ghost use Rattle.child_session.specs.Faults.{HasReason, IsFree};
ghost use Rattle.child_session.specs.Moments.{Gives, Answers, Shows};
ghost use Rattle.child_session.specs.Notes.{answer_from, noted_with};
ghost use Rattle.child_session.specs.Replies.{shown_of, round_frame, filed_after};
ghost use Rattle.child_session.specs.Round.{IsDue, IsOrMemory, AllServed, Served, exchange_with, Replies, MayReply};

use crate::SessionFault;
use crate::noted::Noted;
use crate::receiving::exchange;
use crate::request::{Request, Turn, turn_of};
use crate::serving::serve;
use apt_base::{Claim, List, Name, NoMemory};
use apt_filer::Filer;
use apt_outside::Children;
use child_answers::Answering;
use frame_breaches::Breach;
use round_env::RoundEnv;
use std::alloc::Global;
use wire_frames::{Frame, Message, encode};

/// What a child is shown of a round, beside the table of types.
#[derive(Drop)]
pub struct Showing {
    /// How often it may ask.
    pub limit: u32,
    /// What its processor declared of its claims.
    pub claim: Claim,
    /// The round's number and flags, the names that are offered, and the roots that are shown.
    pub env: RoundEnv,
}

/// What a child did in a round, beside what it created: those files are the last that the filer has.
#[derive(Drop)]
pub struct Answer {
    /// What it printed, in order.
    pub messages: List<Message>,
    /// Whether its processor claims what it was offered.
    pub claimed: bool,
    /// Whether a creation was answered with another answer than `Accepted`.
    pub refused: bool,
    /// The units that its questions named, ascending, those of refused questions included: of `TypeElement` the text
    /// and its prefixes, unless a stub has that name.
    pub asked: List<Name>,
    /// Whether it asked for a package by its name, or for the types of one.
    pub wide: bool,
    /// Whether it asked for the roots, or for the elements of an annotation that it was not offered.
    pub gathered: bool,
}

// The frame that begins a round. One that is longer than a frame may be is out of memory too.
fn round_bytes(alloc: Global, env: &RoundEnv) -> Result<List<u8>, NoMemory>
    ensures { IfOk result (λ bytes. bytes ≡ round_frame env.now) }
{
    let RoundEnv {
        number,
        over,
        error,
        offered,
        roots,
    } = env.copy(alloc)?;
    let frame = Frame::Round {
        number,
        over,
        error,
        offered,
        roots,
    };
    let encoded = encode(alloc, &frame);
    drop(frame);
    match encoded {
        Ok(bytes) => Ok(bytes),
        Err(_) => Err(NoMemory),
    }
}

/// Does what a child asks for, sends the reply, and gives the child's answer to that.
fn take_turn<C: Children>(
    alloc: Global,
    children: &mut C,
    child: u32,
    answering: &mut Answering<'_>,
    env: &RoundEnv,
    request: Request,
    filer: &mut Filer,
    noted: &mut Noted,
) -> Result<Result<Frame, Breach>, SessionFault>
    requires lives { Contains (C.state children.old).live child }
    ensures reason { HasReason (C.faults children.old) (C.faults children.new) result }
    ensures starts { (C.state children.new).starts ≡ (C.state children.old).starts }
    ensures live { (C.state children.new).live ≡ (C.state children.old).live }
    ensures attends { Told C.tells (Attends child (C.state children.old) (C.state children.new)) }
    ensures kept { answering.new ≡ answering.old }
    ensures served { Served (exchange_with (shown_of answering.old env.now) filer.old request) filer.old filer.new }
    ensures filed { OnOk result
        (filer.new ≡ filed_after filer.old (exchange_with (shown_of answering.old env.now) filer.old request)) }
    ensures noted { OnOk result (noted.new ≡ noted_with (shown_of answering.old env.now) noted.old
        (exchange_with (shown_of answering.old env.now) filer.old request)) }
    ensures free { IsFree result }
    ensures sent { Answers C.Children children.old children.new result
        (MayReply child (exchange_with (shown_of answering.old env.now) filer.old request) filer.old filer.new) }
    ensures answer { Gives C.Children children.old children.new result
        (Replies child (exchange_with (shown_of answering.old env.now) filer.old request)) }
{
    let frame = serve(alloc, answering, env, request, filer, noted)?;
    Ok(exchange(alloc, children, child, frame.as_slice())?)
}

// The answer of a round of which this was noted.
fn answer_of(noted: Noted, claimed: bool) -> Result<Answer, NoMemory>
    ensures { IfOk result (λ answer. answer ≡ answer_from noted claimed) }
{
    let Noted {
        messages,
        refused,
        asked,
        wide,
        gathered,
    } = noted;
    let names = asked.list()?;
    drop(asked);
    Ok(Answer {
        messages,
        claimed,
        refused,
        asked: names,
        wide,
        gathered,
    })
}

// The result of a turn where no further question is allowed: a Done ends the round, and a question is one too many.
fn end_of(declared: Claim, limit: u32, turn: Turn, noted: Noted) -> Result<Answer, SessionFault>
    ensures { IsOrMemory result (end_of declared limit turn (answer_from noted (claimed_by turn))) }
{
    match turn {
        Turn::Ends { claimed } => Ok(answer_of(noted, claimed)?),
        Turn::Differs { said } => Err(SessionFault::ClaimBroken { declared, said }),
        Turn::Asks(request) => {
            drop(request);
            Err(SessionFault::TooManyQuestions { limit })
        }
        Turn::Leaves(breach) => Err(SessionFault::Breach(breach)),
    }
}

/// Shows a round to a child, and answers what it asks, until it is done or is refused. What it creates is added to the
/// files that were made before.
///
/// A creation or a message that names an element which is not there is answered `Refused(NoSuch)`, and nothing is done.
/// Where the children tell what they say, `Breach` comes exactly where the child's bytes leave the protocol, and says
/// where, `TooManyQuestions` exactly where it asks once more than it may, and `ClaimBroken` exactly where it is done and
/// says another thing than its processor declared with `Always` or `Never` (JSR 269, `Processor.process`). `Failed` is a
/// fault of the children, and `Memory` out of memory, also where the round's frame is longer than a frame may be. After
/// each the filer has what was accepted up to then, and after each but `Failed` the child was sent the first of the
/// frames that the round sends it and nothing else.
pub fn show_round<C: Children>(
    alloc: Global,
    children: &mut C,
    child: u32,
    answering: &mut Answering<'_>,
    showing: &Showing,
    filer: &mut Filer,
) -> Result<Answer, SessionFault>
    requires lives { Contains (C.state children.old).live child }
    ensures reason { HasReason (C.faults children.old) (C.faults children.new) result }
    ensures starts { (C.state children.new).starts ≡ (C.state children.old).starts }
    ensures live { (C.state children.new).live ≡ (C.state children.old).live }
    ensures attends { Told C.tells (Attends child (C.state children.old) (C.state children.new)) }
    ensures kept { answering.new ≡ answering.old }
    ensures due { IsDue showing.now result }
    ensures served { AllServed (shown_of answering.old showing.now.env) showing.now.limit filer.old filer.new }
    ensures shown { Shows C.Children child answering.old showing.now children.old children.new filer.old filer.new result }
{
    let limit = showing.limit;
    let declared = showing.claim;
    let mut noted = Noted::new(alloc);
    let frame = round_bytes(alloc, &showing.env)?;
    let mut answer = exchange(alloc, children, child, frame.as_slice())?;
    for count in 0..limit {
        match turn_of(declared, answer) {
            Turn::Asks(request) => {
                answer = take_turn(
                    alloc,
                    children,
                    child,
                    answering,
                    &showing.env,
                    request,
                    filer,
                    &mut noted,
                )?;
            }
            turn => return end_of(declared, limit, turn, noted),
        }
    }
    end_of(declared, limit, turn_of(declared, answer), noted)
}
