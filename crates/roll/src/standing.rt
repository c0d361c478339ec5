// What one process of a rule can do.
ghost use Rattle.std.specs.Prelude.{◌≡◌, Some, Decides};
ghost use Rattle.sets.specs.Rules.{Blocking};
ghost use Rattle.sets.specs.Sets.{joined, others};
ghost use Rattle.roll.specs.Rolls.{weight_in};
ghost use Rattle.roll.specs.Texts.{standing_text, yes_or_no};

use crate::rolls::Roll;
use quorum::rules::QuorumRule;
use sets::process_set::ProcessSet;
use std::fmt;

#[derive(Clone, Copy, PartialEq, Eq, Debug)]
pub struct Standing {
    pub process: u8,
    pub weight: u32,
    pub blocks_alone: bool,
    pub others_decide: bool,
}

impl Standing {
    pub(crate) fn of<Q: QuorumRule>(rule: &Q, roll: &Roll, process: u8) -> Self
        ensures process { result.process ≡ process }
        ensures weight { result.weight ≡ weight_in roll.now process }
        ensures alone { Decides result.blocks_alone (Blocking (Q.meaning rule.now) (joined 0 process)) }
        ensures without { result.others_decide ≡ (Q.meaning rule.now).quorum (others (Q.meaning rule.now).size (joined 0 process)) }
    {
        let alone = ProcessSet::empty().insert(process);
        Standing {
            process,
            weight: roll.weight(process),
            blocks_alone: rule.is_blocking(alone),
            others_decide: rule.is_quorum(alone.others(rule.size())),
        }
    }
}

fn yes_or_no(b: bool) -> &'static str
    ensures { result.now ≡ yes_or_no b }
{
    if b { "yes" } else { "no" }
}

impl fmt::Display for Standing {
    ghost output = { λ s. Some (standing_text s) };

    fn fmt<W: fmt::Write>(&self, f: &mut fmt::Formatter<W>) -> fmt::Result {
        write!(
            f,
            "  process {}: weight {}, blocks alone: {}, others decide without it: {}",
            self.process,
            self.weight,
            yes_or_no(self.blocks_alone),
            yes_or_no(self.others_decide)
        )
    }
}
