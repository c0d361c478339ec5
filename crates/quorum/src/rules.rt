// What is asked of a quorum rule.
ghost use Rattle.std.specs.Prelude.{◌≡◌, Decides};
ghost use Rattle.sets.specs.Rules.{Rule, Lawful, Blocking};

use sets::process_set::ProcessSet;

pub trait QuorumRule {
    ghost meaning: { Self → Rule };

    // How many processes there are, from 1 to 32.
    fn size(&self) -> u8
        ensures { result ≡ (meaning self.now).size };

    fn is_quorum(&self, set: ProcessSet) -> bool
        ensures { result ≡ (meaning self.now).quorum set.bits };

    // Whether no tolerated set contains `set`.
    fn is_blocking(&self, set: ProcessSet) -> bool
        ensures { Decides result (Blocking (meaning self.now) set.bits) };

    ghost lawful: { (rule : Self) → Lawful (meaning rule) };
}
