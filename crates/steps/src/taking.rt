// Whether a message can be given to a process.
ghost use Rattle.std.specs.Prelude.{◌≡◌, not, nat_lt, slice_index_or};
ghost use Rattle.std.specs.Option.{option_map};
ghost use Rattle.quorum.specs.Firsts.{answered, fault_if, first};
ghost use Rattle.mail.specs.Messages.{place_at};
ghost use Rattle.mail.specs.Readings.{read};
ghost use Rattle.mail.specs.Leaders.{leads};
ghost use Rattle.mail.specs.Judging.{proposal_fault, report_fault};
ghost use Rattle.protocol.specs.declared.refusal.Refusal.TheVariants.{Held, InProposal, InReport, NotLeader};
ghost use Rattle.protocol.specs.Calls.{timely, vacant};
ghost use Rattle.steps.specs.Giving.{giving_fault, ruled};

use mail::faults::check;
use mail::kind::Kind;
use mail::leader::is_leader;
use mail::message::Message;
use mail::place::Reading;
use mail::proposal::judge_proposal;
use mail::report::judge_report;
use protocol::refusal::Refusal;
use protocol::row::Row;
use quorum::rules::QuorumRule;
use quorum::validity::ValidityRule;

// Why the message at `place` cannot be given to `process` with this row.
pub(crate) fn check_giving<Q: QuorumRule, V: ValidityRule>(
    rule: &Q,
    validity: &V,
    reading: &Reading<'_>,
    process: u8,
    row: &Row,
    place: u16,
) -> Result<(), Refusal>
    ensures { result ≡ answered (giving_fault (ruled (Q.meaning rule.now) (V.valid validity.now)) (read reading.now) process row.now place) tt }
{
    let message = reading.at(place);
    match Kind::try_from(message.kind) {
        Err(_) => Err(Refusal::NoMessage),
        Ok(Kind::Wish) => check_wish(row, message, place),
        Ok(Kind::NewLeader) => check_report(rule, reading, process, row, message, place),
        Ok(Kind::Propose) => check_proposal(rule, validity, reading, row, message, place),
        Ok(Kind::Prepared) => check_vote(row, message, &row.ballot.prepared, place),
        Ok(Kind::Committed) => check_vote(row, message, &row.ballot.committed, place),
    }
}

// A wish is taken above the one that was heard of its sender.
fn check_wish(row: &Row, wish: &Message, place: u16) -> Result<(), Refusal>
    ensures { result ≡ answered (fault_if (not (nat_lt (place_at row.now.wishes wish.now.sender) wish.now.view)) (Held place)) tt }
{
    check(
        wish.view > entry_of(&row.wishes, wish.sender, 0),
        Refusal::Held { place },
    )
}

// The leader of the row's view takes a valid report from each process.
fn check_report<Q: QuorumRule>(
    rule: &Q,
    reading: &Reading<'_>,
    process: u8,
    row: &Row,
    report: &Message,
    place: u16,
) -> Result<(), Refusal>
    ensures { result ≡ answered (first (timely row.now report.now place) (first (fault_if (not (leads (Q.meaning rule.now).size row.now.ballot.view process)) (NotLeader place)) (first (vacant (place_at row.now.ballot.reports report.now.sender) place) (option_map InReport (report_fault (Q.meaning rule.now) (read reading.now) report.now place))))) tt }
{
    check_timely(row, report, place)?;
    check(
        is_leader(rule.size(), row.ballot.view, process),
        Refusal::NotLeader { place },
    )?;
    check_vacant(entry_of(&row.ballot.reports, report.sender, 0), place)?;
    judge_report(rule, reading, report, place)?;
    Ok(())
}

// One safe proposal is taken.
fn check_proposal<Q: QuorumRule, V: ValidityRule>(
    rule: &Q,
    validity: &V,
    reading: &Reading<'_>,
    row: &Row,
    proposal: &Message,
    place: u16,
) -> Result<(), Refusal>
    ensures { result ≡ answered (first (timely row.now proposal.now place) (first (vacant row.now.ballot.proposal place) (option_map InProposal (proposal_fault (Q.meaning rule.now) (V.valid validity.now) (read reading.now) proposal.now place)))) tt }
{
    check_timely(row, proposal, place)?;
    check_vacant(row.ballot.proposal, place)?;
    judge_proposal(rule, validity, reading, proposal, place)?;
    Ok(())
}

// One vote is taken from each process; `held` has the places that are held of votes of its kind.
fn check_vote(row: &Row, vote: &Message, held: &[u16; 32], place: u16) -> Result<(), Refusal>
    ensures { result ≡ answered (first (timely row.now vote.now place) (vacant (place_at held.now vote.now.sender) place)) tt }
{
    check_timely(row, vote, place)?;
    check_vacant(entry_of(held, vote.sender, 0), place)
}

// The message must be of the row's view.
fn check_timely(row: &Row, message: &Message, place: u16) -> Result<(), Refusal>
    ensures { result ≡ answered (timely row.now message.now place) tt }
{
    check(message.view >= row.ballot.view, Refusal::Late { place })?;
    check(message.view <= row.ballot.view, Refusal::Early { place })
}

fn check_vacant(entry: u16, place: u16) -> Result<(), Refusal>
    ensures { result ≡ answered (vacant entry place) tt }
{
    check(entry == 0, Refusal::Held { place })
}

// The entry of this sender, or `none` for a sender from 32 up.
fn entry_of<T: Copy>(entries: &[T; 32], sender: u8, none: T) -> T
    ensures { result ≡ slice_index_or entries.now sender none }
{
    entries.get(sender as usize).copied().unwrap_or(none)
}
