// Which move a process makes.
ghost use Rattle.std.specs.Prelude.{◌≡◌, not, ◌&&◌, ◌==◌, nat_lt};
ghost use Rattle.mail.specs.Messages.{cited};
ghost use Rattle.mail.specs.Readings.{read};
ghost use Rattle.mail.specs.Leaders.{leads};
ghost use Rattle.protocol.specs.Plans.{backers, plan, vote_plan};

use crate::choosing::choose;
use mail::held::{Held, HeldValue};
use mail::leader::is_leader;
use mail::place::Reading;
use protocol::moves::Plan;
use protocol::row::{Ballot, Phase, Row};
use quorum::rules::QuorumRule;
use quorum::tally::tally;
use quorum::views::views;

// The first of the six moves that is possible.
pub fn plan_move<Q: QuorumRule>(
    rule: &Q,
    reading: &Reading<'_>,
    process: u8,
    row: &Row,
) -> Option<Plan>
    ensures { result ≡ plan (Q.meaning rule.now) (read reading.now) process row.now }
{
    let (hopeful, settled) = views(rule, &row.wishes);
    if row.relayed < hopeful {
        return Some(Plan::Relay { view: hopeful });
    }
    if may_take_up(hopeful, settled, row.ballot.view) {
        return Some(Plan::TakeUp { view: settled });
    }
    if may_propose(rule, process, &row.ballot) {
        let value = choose(reading, rule.size(), &row.ballot.reports, row.own);
        return Some(Plan::Propose { value });
    }
    plan_vote(rule, reading, row)
}

// Whether the settled view is the hopeful one, and above the view of the ballot.
fn may_take_up(hopeful: u32, settled: u32, view: u32) -> bool
    ensures { result ≡ (settled == hopeful && nat_lt view settled) }
{
    settled == hopeful && view < settled
}

// Whether the process leads its view, has not proposed in it, and holds a quorum of reports.
fn may_propose<Q: QuorumRule>(rule: &Q, process: u8, ballot: &Ballot) -> bool
    ensures { result ≡ (leads (Q.meaning rule.now).size ballot.now.view process && (not ballot.now.proposed && (Q.meaning rule.now).quorum (cited ballot.now.reports))) }
{
    is_leader(rule.size(), ballot.view, process)
        && !ballot.proposed
        && rule.is_quorum(tally(&ballot.reports, &Held))
}

// The vote, the lock or the decision, by the phase and what is held.
fn plan_vote<Q: QuorumRule>(rule: &Q, reading: &Reading<'_>, row: &Row) -> Option<Plan>
    ensures { result ≡ vote_plan (Q.meaning rule.now) (read reading.now) row.now.ballot row.now.ballot.phase row.now.decision }
{
    let ballot = &row.ballot;
    let vote = HeldValue {
        reading: *reading,
        value: ballot.voted,
    };
    match (ballot.phase, row.decision) {
        (Phase::Fresh, _) if ballot.proposal != 0 => Some(Plan::Vote {
            value: reading.at(ballot.proposal).value,
        }),
        (Phase::Voted, _) if is_backed(rule, &ballot.prepared, &vote) => Some(Plan::Lock),
        (Phase::Locked, None) if is_backed(rule, &ballot.committed, &vote) => Some(Plan::Decide),
        _ => None,
    }
}

// Whether a quorum's messages are held with the value of `vote`.
fn is_backed<Q: QuorumRule>(rule: &Q, held: &[u16; 32], vote: &HeldValue<'_>) -> bool
    ensures { result ≡ (Q.meaning rule.now).quorum (backers (read vote.now.reading) held.now vote.now.value) }
{
    rule.is_quorum(tally(held, vote))
}
