// Calls on a committee, and their answers.
ghost use Rattle.std.specs.Prelude.{◌≡◌};
ghost use Rattle.protocol.specs.Calls.{addressed};

use crate::moves::Move;
use mail::message::Message;

// A message to be posted by a foreign process, without its sender.
#[derive(Clone, Copy, PartialEq, Eq, Debug)]
pub struct Posting {
    // A number, as in a message.
    pub kind: u8,
    pub view: u32,
    pub value: u64,
    pub locked: u32,
    pub citations: [u16; 32],
}

impl Posting {
    // The message, from this sender. Field by field: a message is no posting with a sender before it, since its layout is that of C.
    pub fn from(&self, sender: u8) -> Message
        ensures { result ≡ addressed sender self.now }
    {
        Message {
            sender,
            kind: self.kind,
            view: self.view,
            value: self.value,
            locked: self.locked,
            citations: self.citations,
        }
    }
}

#[derive(Clone, Copy, PartialEq, Eq, Debug)]
pub enum Call {
    Expire { process: u8 },
    Post { process: u8, posting: Posting },
    Deliver { process: u8, place: u16 },
    MakeMove { process: u8 },
    Sweep,
}

// What a sweep did.
#[derive(Clone, Copy, Default, PartialEq, Eq, Debug)]
pub struct Swept {
    // Deliveries that were accepted.
    pub accepted: u32,
    pub moves: u32,
    // Processes whose moves ended at a full post.
    pub stopped: u8,
}

#[derive(Clone, Copy, PartialEq, Eq, Debug)]
pub enum Answer {
    // A message was sent or posted, at this place.
    Sent { place: u16 },
    Delivered,
    // The move made, and the place of what it sent; for a decision 0, which is no place in an answer as in a message.
    Moved { made: Move, place: u16 },
    Swept(Swept),
}
