// Safe proposals.
ghost use Rattle.std.specs.Prelude.{◌≡◌, ◌≤◌, max};
ghost use Rattle.quorum.specs.Firsts.{answered};
ghost use Rattle.mail.specs.Messages.{place_at};
ghost use Rattle.mail.specs.Readings.{read};
ghost use Rattle.mail.specs.Judging.{offer_fault, proposal_fault, citation_fault, top_lock, carries, is_highest};

use crate::faults::{ProposalFault, check};
use crate::held::Held;
use crate::leader::is_leader;
use crate::message::Message;
use crate::place::Reading;
use crate::report::judge_report;
use quorum::rules::QuorumRule;
use quorum::tally::tally;
use quorum::validity::ValidityRule;

// Judges `proposal`, which stands at `place`.
pub fn judge_proposal<Q: QuorumRule, V: ValidityRule>(
    rule: &Q,
    validity: &V,
    reading: &Reading<'_>,
    proposal: &Message,
    place: u16,
) -> Result<(), ProposalFault>
    ensures { result ≡ answered (proposal_fault (Q.meaning rule.now) (V.valid validity.now) (read reading.now) proposal.now place) tt }
{
    check_offer(rule, validity, proposal, place)?;
    let size = rule.size();
    for (slot, cited) in (0..size).zip(&proposal.citations) {
        check_citation(rule, reading, proposal, place, slot, *cited)?;
    }
    check(
        is_highest(reading, size, proposal),
        ProposalFault::NotHighest { place },
    )
}

// Judges `proposal` but for its citations.
fn check_offer<Q: QuorumRule, V: ValidityRule>(
    rule: &Q,
    validity: &V,
    proposal: &Message,
    place: u16,
) -> Result<(), ProposalFault>
    ensures { result ≡ answered (offer_fault (Q.meaning rule.now) (V.valid validity.now) proposal.now place) tt }
{
    check(
        is_leader(rule.size(), proposal.view, proposal.sender),
        ProposalFault::NotLeader { place },
    )?;
    check(
        validity.is_valid(proposal.value),
        ProposalFault::NotValid { place },
    )?;
    check(
        rule.is_quorum(tally(&proposal.citations, &Held)),
        ProposalFault::TooFewReports { place },
    )
}

// Judges what `proposal` cites for the process of this slot.
fn check_citation<Q: QuorumRule>(
    rule: &Q,
    reading: &Reading<'_>,
    proposal: &Message,
    place: u16,
    slot: u8,
    cited: u16,
) -> Result<(), ProposalFault>
    requires { cited ≡ place_at proposal.now.citations slot }
    ensures { result ≡ answered (citation_fault (Q.meaning rule.now) (read reading.now) proposal.now place slot) tt }
{
    if cited == 0 {
        return Ok(());
    }
    let report = reading.at(cited);
    check(
        report.is_report(slot, proposal.view),
        ProposalFault::NotReport { place, slot },
    )?;
    judge_report(rule, reading, report, cited)?;
    Ok(())
}

// Whether no cited report is locked, or one with the highest locked view has the proposal's value.
fn is_highest(reading: &Reading<'_>, size: u8, proposal: &Message) -> bool
    ensures { result ≡ is_highest size (read reading.now) proposal.now }
{
    let top = highest_lock(reading, size, &proposal.citations);
    top == 0 || is_carried(reading, size, &proposal.citations, top, proposal.value)
}

// The highest locked view of the first `size` cited reports.
pub fn highest_lock(reading: &Reading<'_>, size: u8, citations: &[u16; 32]) -> u32
    ensures { result ≡ top_lock (read reading.now) citations.now size }
{
    let mut top = 0;
    for cited in citations.iter().take(size as usize) {
        top = higher(top, reading.at(*cited).locked);
    }
    top
}

fn higher(a: u32, b: u32) -> u32
    ensures { result ≡ max a b }
{
    a.max(b)
}

// Whether one of the first `size` cited reports has this locked view and value. A slot past the list has no report, and so no lock.
fn is_carried(
    reading: &Reading<'_>,
    size: u8,
    citations: &[u16; 32],
    locked: u32,
    value: u64,
) -> bool
    requires { 1 ≤ locked }
    ensures { result ≡ carries (read reading.now) citations.now locked value size }
{
    citations
        .iter()
        .take(size as usize)
        .any(|cited| reading.at(*cited).has_lock(locked, value))
}
