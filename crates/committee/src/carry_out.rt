// Any call, by its name.
ghost use Rattle.std.specs.Prelude.{◌≡◌};
ghost use Rattle.protocol.specs.Runs.{carry_out};
ghost use Rattle.committee.specs.Committees.{counted, lent, SameSetting, setting};

use crate::committee::Committee;
use mail::message::Message;
use protocol::call::{Answer, Call};
use protocol::refusal::Refusal;
use protocol::row::Row;
use quorum::rules::QuorumRule;
use quorum::validity::ValidityRule;

impl<Q: QuorumRule, V: ValidityRule> Committee<Q, V> {
    // Makes the call, and answers what it answers.
    #[tactic(auto, using(crate::proofs::Untouched::untouched))]
    pub fn carry_out(
        &mut self,
        table: &mut [Row],
        post: &mut [Message],
        call: Call,
    ) -> Result<Answer, Refusal>
        ensures answer { result ≡ (carry_out (setting Q.meaning V.valid self.old) (lent self.old.books table.old post.old) call).answer }
        ensures table { table.new ≡ (carry_out (setting Q.meaning V.valid self.old) (lent self.old.books table.old post.old) call).state.table }
        ensures post { post.new ≡ (carry_out (setting Q.meaning V.valid self.old) (lent self.old.books table.old post.old) call).state.post }
        ensures books { self.new.books ≡ counted self.old.books (carry_out (setting Q.meaning V.valid self.old) (lent self.old.books table.old post.old) call).state }
        ensures same { SameSetting self.old self.new }
    {
        Ok(match call {
            Call::Expire { process } => Answer::Sent {
                place: self.expire(table, post, process)?,
            },
            Call::Post { process, posting } => Answer::Sent {
                place: self.post(table, post, process, &posting)?,
            },
            Call::Deliver { process, place } => {
                self.deliver(table, post, process, place)?;
                Answer::Delivered
            }
            Call::MakeMove { process } => {
                let (made, place) = self.make_move(table, post, process)?;
                Answer::Moved { made, place }
            }
            Call::Sweep => Answer::Swept(self.sweep(table, post)?),
        })
    }
}
