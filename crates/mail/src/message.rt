// Messages.
ghost use Rattle.std.specs.Prelude.{◌≡◌};
ghost use Rattle.mail.specs.Messages.{has_lock, is_report, is_vote, kind_prepared, proper};

use crate::kind::Kind;

#[derive(Clone, Copy, PartialEq, Eq, Debug)]
#[repr(C)]
pub struct Message {
    pub sender: u8,
    // A number, since a foreign process may post any; the kinds' numbers are 1 to 5.
    pub kind: u8,
    pub view: u32,
    pub value: u64,
    // The locked view of a report.
    pub locked: u32,
    // For each process a place of the post, or 0.
    pub citations: [u16; 32],
}

// The message that is zero throughout.
pub static SILENCE: Message = Message {
    sender: 0,
    kind: 0,
    view: 0,
    value: 0,
    locked: 0,
    citations: [0; 32],
};

impl Message {
    // Whether the message has a sender below `size` and a kind from 1 to 5.
    pub fn is_proper(&self, size: u8) -> bool
        ensures { result ≡ proper size self.now }
    {
        self.sender < size && Kind::try_from(self.kind).is_ok()
    }

    // Whether it is `sender`'s PREPARED of this view and value.
    pub fn is_prepared(&self, sender: u8, view: u32, value: u64) -> bool
        ensures { result ≡ is_vote kind_prepared sender view value self.now }
    {
        self.kind == Kind::Prepared.number()
            && self.sender == sender
            && self.view == view
            && self.value == value
    }

    // Whether it is `sender`'s report of this view.
    pub fn is_report(&self, sender: u8, view: u32) -> bool
        ensures { result ≡ is_report sender view self.now }
    {
        self.kind == Kind::NewLeader.number() && self.sender == sender && self.view == view
    }

    // Whether it has this locked view and value.
    pub fn has_lock(&self, locked: u32, value: u64) -> bool
        ensures { result ≡ has_lock locked value self.now }
    {
        self.locked == locked && self.value == value
    }
}
