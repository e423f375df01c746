// What a child's frame means in a round.
ghost use Rattle.std.specs.Prelude.{◌≡◌};
ghost use Rattle.child_session.specs.Requests.{keeps, done_with, turn_at};

use apt_base::Claim;
use frame_breaches::{Breach, stray};
use wire_frames::{Creation, Frame, Message, Question};

/// What a child asks of the host in a round.
#[derive(Drop)]
pub enum Request {
    /// A question is to be answered.
    Ask(Question),
    /// A file is to be created.
    Create(Creation),
    /// A message is to be printed.
    Print(Message),
}

/// What a child's frame means in a round.
#[derive(Drop)]
pub enum Turn {
    /// The child is done with the round.
    Ends {
        /// Whether its processor claims what it was offered.
        claimed: bool,
    },
    /// It is done, and says another thing of the claim than its processor declared.
    Differs {
        /// What it says.
        said: bool,
    },
    /// It asks, and is answered.
    Asks(Request),
    /// It leaves the protocol.
    Leaves(Breach),
}

// Whether an answer keeps what the processor declared of its claims.
fn keeps(declared: Claim, said: bool) -> bool
    ensures { result ≡ keeps declared said }
{
    match declared {
        Claim::Always => said,
        Claim::Never => !said,
        Claim::Varies => true,
    }
}

fn done_with(declared: Claim, said: bool) -> Turn
    ensures { result ≡ done_with declared said }
{
    if keeps(declared, said) {
        Turn::Ends { claimed: said }
    } else {
        Turn::Differs { said }
    }
}

/// What a child's answer means in a round, where its processor declared this of its claims.
pub(crate) fn turn_of(declared: Claim, answer: Result<Frame, Breach>) -> Turn
    ensures { result ≡ turn_at declared answer }
{
    match answer {
        Ok(Frame::Done { claimed }) => {
            drop(answer);
            done_with(declared, claimed)
        }
        Ok(Frame::Create(creation)) => Turn::Asks(Request::Create(creation)),
        Ok(Frame::Message(message)) => Turn::Asks(Request::Print(message)),
        Ok(Frame::Ask(question)) => Turn::Asks(Request::Ask(question)),
        Ok(other) => {
            let breach = stray(&other);
            drop(other);
            Turn::Leaves(breach)
        }
        Err(breach) => Turn::Leaves(breach),
    }
}
