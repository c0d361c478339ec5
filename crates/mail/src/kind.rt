// The kinds of messages, and their numbers.
ghost use Rattle.std.specs.Prelude.{◌≡◌};
ghost use Rattle.mail.specs.Kinds.{IsKindOf, kind_number};

#[derive(Clone, Copy, PartialEq, Eq, Debug)]
pub enum Kind {
    Wish = 1,
    // The report, by which a process that takes up a view tells its lock.
    NewLeader,
    Propose,
    Prepared,
    Committed,
}

// A number that is no kind's.
#[derive(Clone, Copy, PartialEq, Eq, Debug)]
pub struct UnknownKind(pub u8);

impl Kind {
    pub fn number(self) -> u8
        ensures { result ≡ kind_number self }
    {
        self as u8
    }
}

impl TryFrom<u8> for Kind {
    type Error = UnknownKind;

    ghost try_from_gives = { IsKindOf };

    fn try_from(number: u8) -> Result<Self, UnknownKind> {
        match number {
            1 => Ok(Kind::Wish),
            2 => Ok(Kind::NewLeader),
            3 => Ok(Kind::Propose),
            4 => Ok(Kind::Prepared),
            5 => Ok(Kind::Committed),
            _ => Err(UnknownKind(number)),
        }
    }
}
