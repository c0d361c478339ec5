// Giving a message to a process: what becomes of its row.
ghost use Rattle.std.specs.Prelude.{◌≡◌, slice_set};
ghost use Rattle.quorum.specs.Firsts.{answered, kept};
ghost use Rattle.mail.specs.Readings.{read};
ghost use Rattle.protocol.specs.Calls.{taken};
ghost use Rattle.steps.specs.Giving.{giving_fault, ruled};

use crate::taking::check_giving;
use mail::kind::Kind;
use mail::place::Reading;
use protocol::refusal::Refusal;
use protocol::row::Row;
use quorum::rules::QuorumRule;
use quorum::validity::ValidityRule;

// Gives the message at `place` to `process`, whose row this is.
pub fn give<Q: QuorumRule, V: ValidityRule>(
    rule: &Q,
    validity: &V,
    reading: &Reading<'_>,
    process: u8,
    row: &mut Row,
    place: u16,
) -> Result<(), Refusal>
    ensures answer { result ≡ answered (giving_fault (ruled (Q.meaning rule.now) (V.valid validity.now)) (read reading.now) process row.old place) tt }
    ensures after { row.new ≡ kept (giving_fault (ruled (Q.meaning rule.now) (V.valid validity.now)) (read reading.now) process row.old place) row.old (taken (read reading.now) row.old place) }
{
    check_giving(rule, validity, reading, process, row, place)?;
    take(reading, row, place);
    Ok(())
}

// Takes the message at `place` into the row.
fn take(reading: &Reading<'_>, row: &mut Row, place: u16)
    ensures { row.new ≡ taken (read reading.now) row.old place }
{
    let message = reading.at(place);
    let sender = message.sender;
    match Kind::try_from(message.kind) {
        Ok(Kind::Wish) => put(&mut row.wishes, sender, message.view),
        Ok(Kind::NewLeader) => put(&mut row.ballot.reports, sender, place),
        Ok(Kind::Propose) => row.ballot.proposal = place,
        Ok(Kind::Prepared) => put(&mut row.ballot.prepared, sender, place),
        // What is no kind's number was refused before.
        Ok(Kind::Committed) | Err(_) => put(&mut row.ballot.committed, sender, place),
    }
}

// Puts the entry of this sender. A sender from 32 up has none.
fn put<T: Copy>(entries: &mut [T; 32], sender: u8, entry: T)
    ensures { entries.new ≡ slice_set entries.old sender entry }
{
    if (sender as usize) < entries.len() {
        entries[sender as usize] = entry;
    }
}
