// The value that a leader proposes.
ghost use Rattle.std.specs.Prelude.{◌≡◌, ◌≤◌};
ghost use Rattle.quorum.specs.Firsts.{first_below};
ghost use Rattle.mail.specs.Readings.{read};
ghost use Rattle.protocol.specs.Plans.{choice};
ghost use Rattle.steps.specs.Proposing.{lock_value};

use mail::place::Reading;
use mail::proposal::highest_lock;

// The value to propose: that of the reports' highest lock, or `own` where none is locked.
#[tactic(auto, unfolding(protocol::specs::Plans::choice))]
pub(crate) fn choose(reading: &Reading<'_>, size: u8, reports: &[u16; 32], own: u64) -> u64
    ensures { result ≡ choice size (read reading.now) reports.now own }
{
    let top = highest_lock(reading, size, reports);
    if top == 0 {
        return own;
    }
    locked_value(reading, size, reports, top).unwrap_or(own)
}

// The value of the lowest sender's report with this locked view. A slot past the list has no report, and so no lock.
fn locked_value(reading: &Reading<'_>, size: u8, reports: &[u16; 32], locked: u32) -> Option<u64>
    requires { 1 ≤ locked }
    ensures { result ≡ first_below (lock_value (read reading.now) reports.now locked) size }
{
    for held in reports.iter().take(size as usize) {
        let report = reading.at(*held);
        if report.locked == locked {
            return Some(report.value);
        }
    }
    None
}
