// Certificates: a quorum of PREPARED messages of one view and value, by their places.
ghost use Rattle.std.specs.Prelude.{◌≡◌};
ghost use Rattle.quorum.specs.Firsts.{answered};
ghost use Rattle.mail.specs.Messages.{place_at};
ghost use Rattle.mail.specs.Readings.{read};
ghost use Rattle.mail.specs.Judging.{certificate_fault, vote_fault};

use crate::faults::{CertificateFault, check};
use crate::held::Held;
use crate::message::Message;
use crate::place::Reading;
use quorum::rules::QuorumRule;
use quorum::tally::tally;

// Judges the citations of `report`, which stands at `place`, as a certificate for its locked view and value.
pub fn judge_certificate<Q: QuorumRule>(
    rule: &Q,
    reading: &Reading<'_>,
    report: &Message,
    place: u16,
) -> Result<(), CertificateFault>
    ensures { result ≡ answered (certificate_fault (Q.meaning rule.now) (read reading.now) report.now.citations report.now.locked report.now.value place) tt }
{
    check(
        rule.is_quorum(tally(&report.citations, &Held)),
        CertificateFault::NoQuorum { place },
    )?;
    for (slot, cited) in (0..rule.size()).zip(&report.citations) {
        check_vote(reading, report, place, slot, *cited)?;
    }
    Ok(())
}

// Judges what is cited for the process of this slot.
fn check_vote(
    reading: &Reading<'_>,
    report: &Message,
    place: u16,
    slot: u8,
    cited: u16,
) -> Result<(), CertificateFault>
    requires { cited ≡ place_at report.now.citations slot }
    ensures { result ≡ answered (vote_fault (read reading.now) report.now.citations report.now.locked report.now.value place slot) tt }
{
    if cited == 0 {
        return Ok(());
    }
    let vote = reading.at(cited);
    check(
        vote.is_prepared(slot, report.locked, report.value),
        CertificateFault::WrongMessage { place, slot },
    )
}
