// Sets of the processes below 32.
ghost use Rattle.std.specs.Prelude.{◌≡◌, ◌-◌, ◌%◌, ◌^◌, ◌<◌, min, bit_or, count_ones};
ghost use Rattle.sets.specs.Sets.{bit, has, joined, below, others};
ghost use Rattle.sets.specs.Weighing.{count};

#[derive(Clone, Copy, PartialEq, Eq, Debug)]
pub struct ProcessSet {
    // Process j is a member when bit j is set.
    pub bits: u32,
}

impl ProcessSet {
    pub fn empty() -> Self
        ensures { result.bits ≡ 0 }
    {
        ProcessSet { bits: 0 }
    }

    #[tactic(auto, unfolding(crate::specs::Sets::has), using(crate::proofs::Members::has_high))]
    pub fn contains(self, process: u8) -> bool
        ensures { result ≡ has self.bits process }
    {
        process < 32 && (self.bits >> process) % 2 == 1
    }

    // With `process` too. One from 32 up is left out.
    #[tactic(auto, using(crate::proofs::Unions::insert_is, crate::proofs::Unions::insert_past))]
    pub fn insert(self, process: u8) -> Self
        ensures { result.bits ≡ joined self.bits process }
    {
        if process < 32 {
            ProcessSet {
                bits: self.bits | (1 << process),
            }
        } else {
            self
        }
    }

    // The members below n.
    #[tactic(auto, using(crate::proofs::Unions::below_is, crate::proofs::Members::below_all))]
    pub fn below(self, n: u8) -> Self
        ensures { result.bits ≡ below n self.bits }
    {
        if n < 32 {
            ProcessSet {
                bits: self.bits % (1 << n),
            }
        } else {
            self
        }
    }

    // The processes below n that are no members, of those below 32.
    #[tactic(auto, using(crate::proofs::Members::others_is))]
    pub fn others(self, n: u8) -> Self
        ensures { result.bits ≡ others (min n 32) self.bits }
    {
        ProcessSet { bits: !self.bits }.below(n)
    }

    // How many members below n there are.
    #[tactic(auto, using(crate::proofs::Counts::ones_below))]
    pub fn count(self, n: u8) -> u32
        ensures { result ≡ count n self.bits }
    {
        self.below(n).bits.count_ones()
    }
}
