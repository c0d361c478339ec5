// What is kept of one process.

#[derive(Clone, Copy, PartialEq, Eq, Debug)]
pub enum Phase {
    Fresh,
    Voted,
    Locked,
}

// All that belongs to one view. Taking up a view puts a new ballot in the place of the old one.
#[derive(Clone, Copy, PartialEq, Eq, Debug)]
pub struct Ballot {
    pub view: u32,
    pub phase: Phase,
    // The value voted for. It is no part of the phase: what is lent may have one in any phase, and the rules are defined for all of it.
    pub voted: u64,
    pub proposed: bool,
    // The place of the held proposal, or 0: no place is 0 here as it is in messages, for any number may be lent.
    pub proposal: u16,
    // A place for each sender, or 0, in the form in which messages cite places.
    pub reports: [u16; 32],
    pub prepared: [u16; 32],
    pub committed: [u16; 32],
}

// What outlives views, and is proved by its certificate.
#[derive(Clone, Copy, PartialEq, Eq, Debug)]
pub struct Lock {
    // The locked view, or 0 where nothing is locked, as a report has it.
    pub view: u32,
    pub value: u64,
    pub certificate: [u16; 32],
}

#[derive(Clone, Copy, PartialEq, Eq, Debug)]
pub struct Decision {
    pub view: u32,
    pub value: u64,
}

#[derive(Clone, Copy, PartialEq, Eq, Debug)]
pub struct Row {
    pub own: u64,
    // The highest view that each process has wished, as far as it was heard.
    pub wishes: [u32; 32],
    pub relayed: u32,
    pub ballot: Ballot,
    pub lock: Lock,
    pub decision: Option<Decision>,
}
