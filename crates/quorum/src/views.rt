// The hopeful and the settled view.
ghost use Rattle.std.specs.Prelude.{◌≡◌};
ghost use Rattle.quorum.specs.Wishes.{hopeful, settled, raised};

use crate::rules::QuorumRule;
use crate::tally::{AtLeast, tally};

// The highest view that a blocking set wishes, and the highest that a quorum wishes; 0 where there is none.
#[tactic(auto, using(crate::proofs::Highs::highest_all))]
pub fn views<Q: QuorumRule>(rule: &Q, wishes: &[u32]) -> (u32, u32)
    ensures { result ≡ (hopeful (Q.meaning rule.now) wishes.now, settled (Q.meaning rule.now) wishes.now) }
{
    let mut hopeful = 0;
    let mut settled = 0;
    for view in wishes.iter().take(rule.size() as usize) {
        let wishing = tally(wishes, &AtLeast { view: *view });
        hopeful = raise(hopeful, *view, rule.is_blocking(wishing));
        settled = raise(settled, *view, rule.is_quorum(wishing));
    }
    (hopeful, settled)
}

// The higher of two views, where the second is carried.
fn raise(highest: u32, view: u32, carried: bool) -> u32
    ensures { result ≡ raised highest view carried }
{
    if carried { highest.max(view) } else { highest }
}
