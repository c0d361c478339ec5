// Valid reports.
ghost use Rattle.std.specs.Prelude.{◌≡◌};
ghost use Rattle.quorum.specs.Firsts.{answered};
ghost use Rattle.mail.specs.Readings.{read};
ghost use Rattle.mail.specs.Judging.{report_fault};

use crate::certificate::judge_certificate;
use crate::faults::{ReportFault, check};
use crate::message::Message;
use crate::place::Reading;
use quorum::rules::QuorumRule;

// Judges `report`, which stands at `place`.
pub fn judge_report<Q: QuorumRule>(
    rule: &Q,
    reading: &Reading<'_>,
    report: &Message,
    place: u16,
) -> Result<(), ReportFault>
    ensures { result ≡ answered (report_fault (Q.meaning rule.now) (read reading.now) report.now place) tt }
{
    check(
        report.locked < report.view,
        ReportFault::LockNotBelow { place },
    )?;
    if report.locked != 0 {
        judge_certificate(rule, reading, report, place)?;
    }
    Ok(())
}
