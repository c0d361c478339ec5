// The promise, and that the calls are the protocol: for every rule.
ghost use Rattle.agreement.specs.Promise.{Promised};
ghost use Rattle.agreement.specs.Exactness.{Exact};

use quorum::rules::QuorumRule;
use quorum::validity::ValidityRule;

// After every list of calls decisions agree and are valid, certificates agree, and a calm view decides.
pub fn promise_stands<Q: QuorumRule, V: ValidityRule>(rule: &Q, validity: &V)
    ensures { Promised (Q.meaning rule.now) (V.valid validity.now) }
{}

// The calls make the changes of the protocol, all of them and no others.
pub fn calls_are_exact<Q: QuorumRule, V: ValidityRule>(rule: &Q, validity: &V)
    ensures { Exact (Q.meaning rule.now) (V.valid validity.now) }
{}
