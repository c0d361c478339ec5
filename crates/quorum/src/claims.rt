// Theorems over every rule.
ghost use Rattle.sets.specs.Rules.{Ground};
ghost use Rattle.quorum.specs.Examples.{RuleExamples};
ghost use Rattle.quorum.specs.Wishes.{Views};

use crate::rules::QuorumRule;

// Each quorum has a member outside any tolerated set and is blocking, and members from the rule's size up are disregarded.
pub fn quorums_stand<Q: QuorumRule>(rule: &Q)
    ensures { Ground (Q.meaning rule.now) }
{}

// Hopeful and settled are the highest views, and settled is at most hopeful.
pub fn views_stand<Q: QuorumRule>(rule: &Q)
    ensures { Views (Q.meaning rule.now) }
{}

// The worked examples.
pub fn rule_examples_stand()
    ensures { RuleExamples }
{}
