// Lines that are requests.
ghost use Rattle.std.specs.Prelude.{◌≡◌, IfOk};
ghost use Rattle.script.specs.Lines.{up_to, slot_from, cited, no_citations, by_letter, request};

use crate::request::{Opening, Request};
use numerals::lines::read_line;
use protocol::call::{Call, Posting};
use std::alloc::{AllocError, Global};

// What a line asks for; None where it is a wrong line.
pub fn read_request(heap: Global, line: &[u8]) -> Result<Option<Request>, AllocError>
    ensures { IfOk result (λ o. o ≡ request line.now) }
{
    if line.len() > 250 {
        return Ok(None);
    }
    Ok(read_line(heap, line)?.and_then(|line| by_letter(line.letter, &line.numbers)))
}

fn by_letter(letter: u8, numbers: &[u64]) -> Option<Request>
    ensures { result ≡ by_letter letter numbers.now }
{
    match (letter, numbers) {
        (b'C', [faults, foreign, first]) => Some(Request::Open(Opening {
            faults: u8::try_from(*faults).ok()?,
            foreign: u32::try_from(*foreign).ok()?,
            first: at_most(1_000_000, *first)?,
        })),
        (b'X', [process]) => Some(Request::Carry(Call::Expire {
            process: u8::try_from(*process).ok()?,
        })),
        (b'D', [process, place]) => Some(Request::Carry(Call::Deliver {
            process: u8::try_from(*process).ok()?,
            place: u16::try_from(*place).ok()?,
        })),
        (b'M', [process]) => Some(Request::Carry(Call::MakeMove {
            process: u8::try_from(*process).ok()?,
        })),
        (b'S', []) => Some(Request::Carry(Call::Sweep)),
        (b'P', [process, kind, view, value, locked, citations @ ..]) => {
            Some(Request::Carry(Call::Post {
                process: u8::try_from(*process).ok()?,
                posting: Posting {
                    kind: u8::try_from(*kind).ok()?,
                    view: u32::try_from(*view).ok()?,
                    value: *value,
                    locked: u32::try_from(*locked).ok()?,
                    citations: read_citations(citations)?,
                },
            }))
        }
        _ => None,
    }
}

// The citations of pairs of a slot and a place, the slots rising.
fn read_citations(numbers: &[u64]) -> Option<[u16; 32]>
    ensures { result ≡ cited 0 no_citations numbers.now }
{
    let mut citations = [0; 32];
    let mut lowest = 0;
    for pair in numbers.chunks(2) {
        let [slot, place] = pair else {
            return None;
        };
        let slot = slot_from(lowest, *slot)?;
        citations[slot as usize] = u16::try_from(*place).ok()?;
        lowest = slot + 1;
    }
    Some(citations)
}

fn slot_from(lowest: u8, n: u64) -> Option<u8>
    ensures { result ≡ slot_from lowest n }
{
    u8::try_from(n)
        .ok()
        .filter(|slot| lowest <= *slot && *slot < 32)
}

fn at_most(most: u32, n: u64) -> Option<u32>
    ensures { result ≡ up_to most n }
{
    u32::try_from(n).ok().filter(|n| *n <= most)
}
