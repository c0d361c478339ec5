// Theorems about the judging of mail.
ghost use Rattle.mail.specs.Examples.{Examples};
ghost use Rattle.mail.specs.Readings.{read};
ghost use Rattle.mail.specs.Trust.{Judging};

use crate::place::Reading;
use quorum::claims::rule_examples_stand;
use quorum::rules::QuorumRule;
use quorum::validity::ValidityRule;

// For every rule and any post: no fault is found exactly in certificates, valid reports and safe proposals.
pub fn judging_stands<Q: QuorumRule, V: ValidityRule>(rule: &Q, validity: &V, reading: &Reading<'_>)
    ensures { Judging (Q.meaning rule.now) (V.valid validity.now) (read reading.now) }
{}

// All worked examples.
pub fn examples_stand()
    ensures { Examples }
{
    rule_examples_stand();
}
