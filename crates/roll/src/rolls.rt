// Lines that are rolls: `C f`, and `W` with weights.
ghost use Rattle.std.specs.Prelude.{◌≡◌, map, IfOk};
ghost use Rattle.std.specs.Option.{option_map};
ghost use Rattle.sets.specs.Weighing.{total};
ghost use Rattle.roll.specs.Rolls.{narrow, content, roll_of, weight_in};

use numerals::lines::read_line;
use std::alloc::{AllocError, Global};

#[derive(Drop)]
pub enum Roll {
    ByCount(u8),
    ByWeight(Vec<u32>),
}

impl Roll {
    // By counting each process weighs 1.
    pub(crate) fn weight(&self, process: u8) -> u32
        ensures { result ≡ weight_in self.now process }
    {
        match self {
            Roll::ByCount(_) => 1,
            Roll::ByWeight(weights) => weights.get(process as usize).copied().unwrap_or(0),
        }
    }

    // The weight of all processes below `size`.
    pub(crate) fn total(&self, size: u8) -> u64
        ensures { result ≡ total size (weight_in self.now) }
    {
        (0..size).map(|process| self.weight(process) as u64).sum()
    }
}

// The roll that a line is.
pub(crate) fn read_roll(heap: Global, line: &[u8]) -> Result<Option<Roll>, AllocError>
    ensures { IfOk result (λ o. option_map content o ≡ roll_of line.now) }
{
    let Some(line) = read_line(heap, line)? else {
        return Ok(None);
    };
    match (line.letter, line.numbers.as_slice()) {
        (b'C', [faults]) => Ok(Some(Roll::ByCount(u8::try_from(*faults).unwrap_or(u8::MAX)))),
        (b'W', weights) => Ok(Some(Roll::ByWeight(narrowed(heap, weights)?))),
        _ => Ok(None),
    }
}

// Weights of 32 bits. One that is wider is too large in any case.
fn narrowed(heap: Global, numbers: &[u64]) -> Result<Vec<u32>, AllocError>
    ensures { IfOk result (λ v. v.items ≡ map narrow numbers.now) }
{
    numbers
        .iter()
        .map(|n| u32::try_from(*n).unwrap_or(u32::MAX))
        .collect(heap)
}
