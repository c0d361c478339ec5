// The six moves.
ghost use Rattle.std.specs.Prelude.{◌≡◌};
ghost use Rattle.protocol.specs.Numbers.{move_number};
ghost use Rattle.protocol.specs.Plans.{move_of};

#[derive(Clone, Copy, PartialEq, Eq, Debug)]
pub enum Move {
    Relay = 1,
    TakeUp = 2,
    Propose = 3,
    Vote = 4,
    Lock = 5,
    Decide = 6,
}

impl Move {
    pub fn number(self) -> u8
        ensures { result ≡ move_number self }
    {
        self as u8
    }
}

// A move with the numbers that it needs, before it is made.
#[derive(Clone, Copy, PartialEq, Eq, Debug)]
pub enum Plan {
    Relay { view: u32 },
    TakeUp { view: u32 },
    Propose { value: u64 },
    Vote { value: u64 },
    Lock,
    Decide,
}

impl Plan {
    // Which move it is.
    pub fn which(self) -> Move
        ensures { result ≡ move_of self }
    {
        match self {
            Plan::Relay { .. } => Move::Relay,
            Plan::TakeUp { .. } => Move::TakeUp,
            Plan::Propose { .. } => Move::Propose,
            Plan::Vote { .. } => Move::Vote,
            Plan::Lock => Move::Lock,
            Plan::Decide => Move::Decide,
        }
    }
}
