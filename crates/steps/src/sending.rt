// What a process sends.
ghost use Rattle.std.specs.Prelude.{◌≡◌};
ghost use Rattle.mail.specs.Kinds.{kind_number};
ghost use Rattle.protocol.specs.Plans.{offer, report, sends, vote, wish};

use mail::kind::Kind;
use mail::message::{Message, SILENCE};
use protocol::moves::Plan;
use protocol::row::{Lock, Row};

// The message that the move sends.
pub fn message_of(plan: Plan, process: u8, row: &Row) -> Option<Message>
    ensures { result ≡ sends process row.now plan }
{
    match plan {
        Plan::Relay { view } => Some(wish(process, view)),
        Plan::TakeUp { view } => Some(report(process, view, &row.lock)),
        Plan::Propose { value } => Some(offer(process, row.ballot.view, value, row.ballot.reports)),
        Plan::Vote { value } => Some(vote(Kind::Prepared, process, row.ballot.view, value)),
        Plan::Lock => Some(vote(Kind::Committed, process, row.ballot.view, row.ballot.voted)),
        Plan::Decide => None,
    }
}

pub fn wish(sender: u8, view: u32) -> Message
    ensures { result ≡ wish sender view }
{
    vote(Kind::Wish, sender, view, 0)
}

// The report of this lock.
fn report(sender: u8, view: u32, lock: &Lock) -> Message
    ensures { result ≡ report sender view lock.now }
{
    let unlocked = Message {
        sender,
        kind: Kind::NewLeader.number(),
        view,
        ..SILENCE
    };
    if lock.view == 0 {
        return unlocked;
    }
    Message {
        value: lock.value,
        locked: lock.view,
        citations: lock.certificate,
        ..unlocked
    }
}

fn offer(sender: u8, view: u32, value: u64, citations: [u16; 32]) -> Message
    ensures { result ≡ offer sender view value citations }
{
    Message {
        sender,
        kind: Kind::Propose.number(),
        view,
        value,
        citations,
        ..SILENCE
    }
}

// A message that has no lock and cites nothing.
fn vote(kind: Kind, sender: u8, view: u32, value: u64) -> Message
    ensures { result ≡ vote (kind_number kind) sender view value }
{
    Message {
        sender,
        kind: kind.number(),
        view,
        value,
        ..SILENCE
    }
}
