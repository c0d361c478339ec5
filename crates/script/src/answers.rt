// The text of what is answered to a line.
ghost use Rattle.std.specs.Prelude.{◌≡◌, Some};
ghost use Rattle.script.specs.Texts.{letter_text, done_text, reply_text};

use protocol::call::{Answer, Call};
use protocol::refusal::Refusal;
use quorum::faults::FaultNumbers;
use std::fmt;

#[derive(Clone, Copy, PartialEq, Eq, Debug)]
pub enum Reply {
    // The line was wrong.
    Wrong,
    // What came of an opening: a rule or the committee can refuse it.
    Opened(Result<(), FaultNumbers>),
    // A call and its answer.
    Carried(Call, Result<Answer, Refusal>),
}

impl fmt::Display for Reply {
    ghost output = { λ r. Some (reply_text r) };

    fn fmt<W: fmt::Write>(&self, f: &mut fmt::Formatter<W>) -> fmt::Result {
        match *self {
            Reply::Wrong => write!(f, "? no"),
            Reply::Opened(Ok(())) => write!(f, "C ok"),
            Reply::Opened(Err(numbers)) => write!(f, "C no {numbers}"),
            Reply::Carried(call, Ok(answer)) => write!(f, "{} {}", letter(call), Done(answer)),
            Reply::Carried(call, Err(refusal)) => {
                write!(f, "{} no {}", letter(call), refusal.numbers())
            }
        }
    }
}

fn letter(call: Call) -> &'static str
    ensures { result.now ≡ letter_text call }
{
    match call {
        Call::Expire { .. } => "X",
        Call::Post { .. } => "P",
        Call::Deliver { .. } => "D",
        Call::MakeMove { .. } => "M",
        Call::Sweep => "S",
    }
}

#[derive(Clone, Copy)]
struct Done(Answer);

impl fmt::Display for Done {
    ghost output = { λ d. Some (done_text d.0) };

    fn fmt<W: fmt::Write>(&self, f: &mut fmt::Formatter<W>) -> fmt::Result {
        match self.0 {
            Answer::Sent { place } => write!(f, "ok {place}"),
            Answer::Delivered => write!(f, "ok"),
            Answer::Moved { made, place } => write!(f, "ok {} {place}", made.number()),
            Answer::Swept(swept) => {
                write!(f, "ok {} {} {}", swept.accepted, swept.moves, swept.stopped)
            }
        }
    }
}
