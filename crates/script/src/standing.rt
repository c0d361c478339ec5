// Where a run process stands at the end of a script.
ghost use Rattle.std.specs.Prelude.{◌≡◌, Some};
ghost use Rattle.script.specs.Texts.{standing_of, standing_text};

use protocol::row::{Decision, Row};
use std::fmt;

#[derive(Clone, Copy, PartialEq, Eq, Debug)]
pub struct Standing {
    pub process: u8,
    pub view: u32,
    pub locked: u32,
    pub decision: Option<Decision>,
}

impl Standing {
    pub fn of(process: u8, row: &Row) -> Self
        ensures { result ≡ standing_of process row.now }
    {
        Standing {
            process,
            view: row.ballot.view,
            locked: row.lock.view,
            decision: row.decision,
        }
    }
}

impl fmt::Display for Standing {
    ghost output = { λ s. Some (standing_text s) };

    // Prints 0 and 0 where nothing is decided.
    fn fmt<W: fmt::Write>(&self, f: &mut fmt::Formatter<W>) -> fmt::Result {
        let Standing {
            process,
            view,
            locked,
            decision,
        } = *self;
        let Decision {
            view: decided,
            value,
        } = decision.unwrap_or(Decision { view: 0, value: 0 });
        write!(f, "R {process} {view} {locked} {decided} {value}")
    }
}
