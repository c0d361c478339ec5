// Which values may be proposed.
ghost use Rattle.std.specs.Prelude.{◌≡◌, ℕ, Bool, ◌==◌};
ghost use Rattle.quorum.specs.Validity.{listed, framed};

pub trait ValidityRule {
    ghost valid: { Self → ℕ → Bool };

    fn is_valid(&self, value: u64) -> bool
        ensures { result ≡ valid self.now value };
}

// The values of a lent list.
#[derive(Clone, Copy, PartialEq, Eq, Debug)]
pub struct Allowed<'a> {
    pub values: &'a [u64],
}

impl<'a> ValidityRule for Allowed<'a> {
    ghost valid = { λ rule. listed rule.values.now };

    fn is_valid(&self, value: u64) -> bool {
        self.values.iter().any(|allowed| is_same(*allowed, value))
    }
}

fn is_same(allowed: u64, value: u64) -> bool
    ensures { result ≡ (allowed == value) }
{
    allowed == value
}

// The values whose upper 32 bits are the frame and whose lower 32 bits are from 1 to the limit.
#[derive(Clone, Copy, PartialEq, Eq, Debug)]
pub struct Framed {
    pub frame: u32,
    pub limit: u32,
}

impl ValidityRule for Framed {
    ghost valid = { λ rule. framed rule.frame rule.limit };

    fn is_valid(&self, value: u64) -> bool {
        let low = value % (1 << 32);
        value >> 32 == self.frame as u64 && low >= 1 && low <= self.limit as u64
    }
}
