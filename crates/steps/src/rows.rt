// New rows, and new ballots.
ghost use Rattle.std.specs.Prelude.{◌≡◌};
ghost use Rattle.protocol.specs.Rows.{new_ballot, new_row};

use protocol::row::{Ballot, Lock, Phase, Row};

pub fn new_ballot(view: u32) -> Ballot
    ensures { result ≡ new_ballot view }
{
    Ballot {
        view,
        phase: Phase::Fresh,
        voted: 0,
        proposed: false,
        proposal: 0,
        reports: [0; 32],
        prepared: [0; 32],
        committed: [0; 32],
    }
}

pub fn new_row(own: u64) -> Row
    ensures { result ≡ new_row own }
{
    Row {
        own,
        wishes: [0; 32],
        relayed: 0,
        ballot: new_ballot(0),
        lock: Lock {
            view: 0,
            value: 0,
            certificate: [0; 32],
        },
        decision: None,
    }
}
