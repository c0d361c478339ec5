// The rule of 3 f + 1 processes, of which f may fail.
ghost use Rattle.std.specs.Prelude.{◌≡◌, ◌+◌, ◌*◌, ◌<◌, ◌≤◌, Ok, Err, nat_le, nat_lt};
ghost use Rattle.sets.specs.Weighing.{counting};
ghost use Rattle.sets.proofs.Laws.{counting_lawful};
ghost use Rattle.quorum.specs.declared.faults.RuleFault.TheVariants.{TooManyFaults};

use crate::faults::RuleFault;
use crate::rules::QuorumRule;
use sets::process_set::ProcessSet;

#[derive(Clone, Copy, PartialEq, Eq, Debug)]
pub struct Counting {
    f: u8,
    ghost few: { f ≤ 10 },
}

impl Counting {
    pub fn new(f: u8) -> Result<Counting, RuleFault>
        ensures { elim result [ Ok rule ↦ (f ≤ 10) × (rule.f ≡ f) | Err fault ↦ (10 < f) × (fault ≡ TooManyFaults) ] }
    {
        if f > 10 {
            return Err(RuleFault::TooManyFaults);
        }
        Ok(Counting { f })
    }
}

impl QuorumRule for Counting {
    ghost meaning = { λ rule. counting rule.f };

    ghost lawful = { λ rule. counting_lawful rule.f rule.few };

    #[tactic(auto, unfolding(sets::specs::Weighing::counting))]
    fn size(&self) -> u8 {
        3 * self.f + 1
    }

    fn is_quorum(&self, set: ProcessSet) -> bool {
        is_enough(set.count(self.size()), self.f)
    }

    fn is_blocking(&self, set: ProcessSet) -> bool {
        is_too_many(set.count(self.size()), self.f)
    }
}

// Each comparison of a rule stands in a function of its own, so that its contract is about nothing else.
fn is_enough(count: u32, f: u8) -> bool
    ensures { result ≡ nat_le (2 * f + 1) count }
{
    count >= 2 * f as u32 + 1
}

fn is_too_many(count: u32, f: u8) -> bool
    ensures { result ≡ nat_lt f count }
{
    count > f as u32
}
