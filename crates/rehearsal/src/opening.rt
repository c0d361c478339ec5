// The opening of a script's committee.
ghost use Rattle.std.specs.Prelude.{◌≡◌};
ghost use Rattle.rehearsal.specs.Playing.{new_reply, new_stage, opened_by, owned};

use committee::committee::Committee;
use mail::message::Message;
use protocol::row::Row;
use quorum::counting::Counting;
use quorum::faults::FaultNumbers;
use quorum::validity::Framed;
use script::request::Opening;
use sets::process_set::ProcessSet;
use std::array;

// The committee that a line asks for: by counting, with frame 0 and limit 1,000,000.
pub(crate) fn opened(
    table: &mut [Row],
    post: &[Message],
    opening: Opening,
) -> Result<Committee<Counting, Framed>, FaultNumbers>
    ensures reply { new_reply result ≡ (opened_by opening table.old post.now).reply }
    ensures stage { new_stage result ≡ (opened_by opening table.old post.now).stage }
    ensures table { table.new ≡ (opened_by opening table.old post.now).table }
{
    let rule = Counting::new(opening.faults)?;
    let mut committee = Committee::new(
        rule,
        Framed {
            frame: 0,
            limit: 1_000_000,
        },
    );
    let foreign = ProcessSet {
        bits: opening.foreign,
    };
    committee.open(table, post, foreign, &owns_from(opening.first))?;
    Ok(committee)
}

// The own values of 32 processes, from `first` upward.
fn owns_from(first: u32) -> [u64; 32]
    ensures { result ≡ owned first 32 }
{
    array::from_fn(|process| first as u64 + process as u64)
}
