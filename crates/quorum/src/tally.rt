// The processes whose entry passes a test.
ghost use Rattle.std.specs.Prelude.{◌≡◌, Bool, nat_le};
ghost use Rattle.quorum.specs.Tallies.{tallied};

use sets::process_set::ProcessSet;
use std::ops::Range;

// A trait and no closure: by its member the tally's contract is one equation.
pub trait EntryTest<E> {
    ghost accepts: { Self → E → Bool };

    fn passes(&self, entry: E) -> bool
        ensures { result ≡ accepts self.now entry };
}

// Every process that there can be.
fn processes() -> Range<u8>
    ensures { result ≡ record { start = 0; end = 32 } }
{
    0..32
}

// Slot j is process j's. Slots from 32 up do not count.
#[tactic(auto, unfolding(sets::specs::Sets::sift))]
pub fn tally<E: Copy, T: EntryTest<E>>(entries: &[E], test: &T) -> ProcessSet
    ensures { result.bits ≡ tallied (T.accepts test.now) entries.now }
{
    let mut passing = ProcessSet::empty();
    for (process, entry) in processes().zip(entries) {
        if test.passes(*entry) {
            passing = passing.insert(process);
        }
    }
    passing
}

// A view of at least this one.
#[derive(Clone, Copy, PartialEq, Eq, Debug)]
pub struct AtLeast {
    pub view: u32,
}

impl EntryTest<u32> for AtLeast {
    ghost accepts = { λ test view. nat_le test.view view };

    fn passes(&self, entry: u32) -> bool {
        entry >= self.view
    }
}
