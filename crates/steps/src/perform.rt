// What a move does to the row of the process that makes it.
ghost use Rattle.std.specs.Prelude.{◌≡◌, if◌then◌else◌};
ghost use Rattle.mail.specs.Readings.{read};
ghost use Rattle.protocol.specs.Plans.{backing, backs, planned};

use crate::rows::new_ballot;
use mail::held::HeldValue;
use mail::place::Reading;
use protocol::moves::Plan;
use protocol::row::{Decision, Lock, Phase, Row};
use quorum::tally::EntryTest;

// Makes the move, in the row.
pub fn perform(plan: Plan, reading: &Reading<'_>, row: &mut Row)
    ensures { row.new ≡ planned reading.now.size (read reading.now) row.old plan }
{
    match plan {
        Plan::Relay { view } => row.relayed = view,
        Plan::TakeUp { view } => row.ballot = new_ballot(view),
        Plan::Propose { .. } => row.ballot.proposed = true,
        Plan::Vote { value } => {
            row.ballot.phase = Phase::Voted;
            row.ballot.voted = value;
        }
        Plan::Lock => {
            row.lock = Lock {
                view: row.ballot.view,
                value: row.ballot.voted,
                certificate: backing_places(reading, &row.ballot.prepared, row.ballot.voted),
            };
            row.ballot.phase = Phase::Locked;
        }
        Plan::Decide => {
            row.decision = Some(Decision {
                view: row.ballot.view,
                value: row.ballot.voted,
            });
        }
    }
}

// The held places whose messages have this value.
fn backing_places(reading: &Reading<'_>, held: &[u16; 32], value: u64) -> [u16; 32]
    ensures { result ≡ backing (read reading.now) held.now value reading.now.size }
{
    let mut places = [0; 32];
    // By slot: what a walk by `iter_mut().zip(..)` writes is not known after it.
    for (slot, place) in (0..reading.size).zip(held) {
        places[slot as usize] = backing_place(reading, *place, value);
    }
    places
}

// The place, if it is held and its message has this value; otherwise 0.
fn backing_place(reading: &Reading<'_>, place: u16, value: u64) -> u16
    ensures { result ≡ (if backs (read reading.now) value place then place else 0) }
{
    let backs = HeldValue {
        reading: *reading,
        value,
    };
    if backs.passes(place) { place } else { 0 }
}
