// The rule by weights, in a lent list.
ghost use Rattle.std.specs.Prelude.{◌≡◌, ℕ, ◌*◌, ◌≤◌, [], ◌∷◌, length, nat_le, nat_lt, Ok, Err, Some, None};
ghost use Rattle.sets.specs.Weighing.{weight};
ghost use Rattle.sets.proofs.Laws.{weighing_lawful};
ghost use Rattle.quorum.specs.Firsts.{answered, kept};
ghost use Rattle.quorum.specs.WeightList.{weight_at, total_of, weights_rule, weights_fault, count_fault, heavy_fault, total_fault};

use crate::faults::RuleFault;
use crate::rules::QuorumRule;
use sets::process_set::ProcessSet;

#[derive(Clone, Copy, PartialEq, Eq, Debug)]
pub struct Weights<'a> {
    list: &'a [u32],
    total: u32,
    ghost some: { 1 ≤ length list.now },
    ghost few: { length list.now ≤ 32 },
    ghost light: { (j : ℕ) → weight_at list.now j ≤ 1000000 },
    ghost whole: { total ≡ total_of list.now },
    ghost weighty: { 1 ≤ total_of list.now },
}

impl<'a> Weights<'a> {
    // The rule by these weights, or the first fault of the list.
    #[tactic(auto, unfolding(crate::specs::WeightList::weights_fault, sets::specs::Weighing::weigh))]
    pub fn new(list: &'a [u32]) -> Result<Weights<'a>, RuleFault>
        ensures { elim result [ Ok rule ↦ (weights_fault list.now ≡ None) × (rule.list.now ≡ list.now) | Err fault ↦ weights_fault list.now ≡ Some fault ] }
    {
        check_count(list.len())?;
        let mut total = 0;
        for (process, weight) in (0..32).zip(list) {
            check_weight(*weight, process)?;
            total += *weight;
        }
        check_total(total)?;
        Ok(Weights { list, total })
    }

    // Four processes of weight 1 each: a rule to begin with.
    #[tactic(auto, unfolding(sets::specs::Weighing::weigh))]
    pub fn four_equal() -> Weights<'a>
        ensures { result.list.now ≡ 1 ∷ 1 ∷ 1 ∷ 1 ∷ [] }
    {
        Weights {
            list: &[1, 1, 1, 1],
            total: 4,
        }
    }

    // Puts the rule of another list in the place of this one. A refusal leaves this one.
    pub fn replace(&mut self, list: &'a [u32]) -> Result<(), RuleFault>
        ensures answer { result ≡ answered (weights_fault list.now) tt }
        ensures after { self.new.list.now ≡ kept (weights_fault list.now) self.old.list.now list.now }
    {
        *self = Weights::new(list)?;
        Ok(())
    }

    // The weight of the members of `set`.
    #[tactic(auto, unfolding(sets::specs::Weighing::weigh))]
    fn weigh(&self, set: ProcessSet) -> u32
        ensures { result ≡ weight (length self.now.list.now) (weight_at self.now.list.now) set.bits }
    {
        let mut sum = 0;
        for (process, weight) in (0..32).zip(self.list) {
            if set.contains(process) {
                sum += *weight;
            }
        }
        sum
    }
}

impl<'a> QuorumRule for Weights<'a> {
    ghost meaning = { λ rule. weights_rule rule.list.now };

    ghost lawful = { λ rule. weighing_lawful (length rule.list.now) (weight_at rule.list.now) rule.some rule.few rule.weighty };

    #[tactic(auto, unfolding(sets::specs::Weighing::weighing))]
    fn size(&self) -> u8 {
        self.list.len() as u8
    }

    fn is_quorum(&self, set: ProcessSet) -> bool {
        is_over_two_thirds(self.weigh(set), self.total)
    }

    fn is_blocking(&self, set: ProcessSet) -> bool {
        is_a_third(self.weigh(set), self.total)
    }
}

fn check_count(count: usize) -> Result<(), RuleFault>
    ensures { result ≡ answered (count_fault count) tt }
{
    if count < 1 || count > 32 {
        return Err(RuleFault::WeightCount);
    }
    Ok(())
}

fn check_weight(weight: u32, process: u8) -> Result<(), RuleFault>
    ensures { result ≡ answered (heavy_fault weight process) tt }
{
    if weight > 1_000_000 {
        return Err(RuleFault::TooHeavy(process));
    }
    Ok(())
}

fn check_total(total: u32) -> Result<(), RuleFault>
    ensures { result ≡ answered (total_fault total) tt }
{
    if total == 0 {
        return Err(RuleFault::NoWeight);
    }
    Ok(())
}

fn is_over_two_thirds(weight: u32, total: u32) -> bool
    ensures { result ≡ nat_lt (2 * total) (3 * weight) }
{
    3 * weight as u64 > 2 * total as u64
}

fn is_a_third(weight: u32, total: u32) -> bool
    ensures { result ≡ nat_le total (3 * weight) }
{
    3 * weight as u64 >= total as u64
}
