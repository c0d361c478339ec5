// Carrying out a script.
ghost use Rattle.std.specs.Prelude.{◌≡◌, Some, None};
ghost use Rattle.std.specs.Option.{option_map};
ghost use Rattle.script.specs.declared.answers.Reply.TheVariants.{Opened};
ghost use Rattle.rehearsal.specs.Playing.{opened_by, outcome, played, stage_of, standing_at};

use crate::opening::opened;
use committee::committee::Committee;
use mail::message::Message;
use protocol::row::Row;
use quorum::counting::Counting;
use quorum::faults::FaultNumbers;
use quorum::validity::Framed;
use script::answers::Reply;
use script::request::{Opening, Request};
use script::standing::Standing;

#[derive(Drop)]
pub struct Rehearsal {
    // The committee, once a line has opened it.
    committee: Option<Committee<Counting, Framed>>,
}

impl Rehearsal {
    pub fn new() -> Self
        ensures { result.committee ≡ None }
    {
        Rehearsal { committee: None }
    }

    // Carries out what a line asks for; one that asks for nothing is a wrong line.
    pub fn reply(
        &mut self,
        table: &mut [Row],
        post: &mut [Message],
        request: Option<Request>,
    ) -> Reply
        ensures { outcome result self.new.committee table.new post.new ≡ played (option_map stage_of self.old.committee) table.old post.old request }
    {
        match (request, &mut self.committee) {
            (Some(Request::Open(opening)), None) => Reply::Opened(self.open(table, post, opening)),
            (Some(Request::Carry(call)), Some(committee)) => {
                Reply::Carried(call, committee.carry_out(table, post, call))
            }
            _ => Reply::Wrong,
        }
    }

    // The first good opening.
    fn open(
        &mut self,
        table: &mut [Row],
        post: &[Message],
        opening: Opening,
    ) -> Result<(), FaultNumbers>
        requires { self.old.committee ≡ None }
        ensures { outcome (Opened result) self.new.committee table.new post.now ≡ opened_by opening table.old post.now }
    {
        self.committee = Some(opened(table, post, opening)?);
        Ok(())
    }

    // Where a run process stands.
    pub fn standing(&self, table: &[Row], post: &[Message], process: u8) -> Option<Standing>
        ensures { result ≡ standing_at (option_map stage_of self.now.committee) table.now post.now process }
    {
        let committee = self.committee.as_ref()?;
        committee.decision(table, post, process).ok()?;
        Some(Standing::of(process, &table[process as usize]))
    }
}
