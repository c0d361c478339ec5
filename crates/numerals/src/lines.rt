// Whole lines.
ghost use Rattle.std.specs.Prelude.{◌≡◌, IfOk, vec_items};
ghost use Rattle.std.specs.Option.{option_map};
ghost use Rattle.numerals.specs.Reading.{numbers, parts};

use crate::field::{Field, Step};
use std::alloc::{AllocError, Global};

#[derive(Drop)]
pub struct Line {
    pub letter: u8,
    pub numbers: Vec<u64>,
}

// The letter and the numbers of a line.
pub fn read_line(heap: Global, line: &[u8]) -> Result<Option<Line>, AllocError>
    ensures { IfOk result (λ o. option_map (λ l. (l.letter, l.numbers.items)) o ≡ parts line.now) }
{
    let (letter, numbers) = match line {
        [letter] => (*letter, Some(Vec::new(heap))),
        [letter, b' ', rest @ ..] => (*letter, read_numbers(heap, rest)?),
        _ => return Ok(None),
    };
    Ok(numbers.map(|numbers| Line { letter, numbers }))
}

// The numbers of a line of numbers, one space between each two.
#[tactic(auto, unfolding(crate::specs::Reading::numbers))]
fn read_numbers(heap: Global, line: &[u8]) -> Result<Option<Vec<u64>>, AllocError>
    ensures { IfOk result (λ o. option_map vec_items o ≡ numbers line.now) }
{
    let mut found = Vec::new(heap);
    let mut field = Field::Empty;
    for byte in line {
        match field.next(*byte) {
            Some(Step::Read(longer)) => field = longer,
            Some(Step::Ended(n)) => {
                found.push(n)?;
                field = Field::Empty;
            }
            None => return Ok(None),
        }
    }
    let Some(last) = field.end() else {
        return Ok(None);
    };
    found.push(last)?;
    Ok(Some(found))
}
