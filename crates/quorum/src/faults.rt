// Why a rule is refused.
ghost use Rattle.std.specs.Prelude.{◌≡◌, Some};
ghost use Rattle.quorum.specs.Numbers.{four_numbers, numbers, numbers_text};

use std::fmt;

#[derive(Clone, Copy, PartialEq, Eq, Debug)]
pub enum RuleFault {
    // Counting is asked to stand more faults than 10.
    TooManyFaults,
    // There are not 1 to 32 weights.
    WeightCount,
    // The weight of this process is above 1,000,000.
    TooHeavy(u8),
    // All weights are 0.
    NoWeight,
}

// The four numbers by which a refusal is known outside.
#[derive(Clone, Copy, PartialEq, Eq, Debug)]
pub struct FaultNumbers {
    pub number: u8,
    pub layer: u8,
    pub place: u16,
    pub slot: u8,
}

impl FaultNumbers {
    pub fn new(number: u8, layer: u8, place: u16, slot: u8) -> Self
        ensures { result ≡ four_numbers number layer place slot }
    {
        FaultNumbers {
            number,
            layer,
            place,
            slot,
        }
    }
}

impl fmt::Display for FaultNumbers {
    ghost output = { λ e. Some (numbers_text e) };

    fn fmt<W: fmt::Write>(&self, f: &mut fmt::Formatter<W>) -> fmt::Result {
        write!(
            f,
            "{} {} {} {}",
            self.number, self.layer, self.place, self.slot
        )
    }
}

impl RuleFault {
    pub fn numbers(self) -> FaultNumbers
        ensures { result ≡ numbers self }
    {
        match self {
            RuleFault::TooManyFaults => FaultNumbers::new(16, 4, 0, 32),
            RuleFault::WeightCount => FaultNumbers::new(17, 4, 0, 32),
            RuleFault::TooHeavy(process) => FaultNumbers::new(18, 4, 0, process),
            RuleFault::NoWeight => FaultNumbers::new(19, 4, 0, 32),
        }
    }
}

impl From<RuleFault> for FaultNumbers {
    ghost from_gives = { λ e r. r ≡ numbers e };

    fn from(fault: RuleFault) -> FaultNumbers {
        fault.numbers()
    }
}
