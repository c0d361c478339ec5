// Moves of a process.
ghost use Rattle.std.specs.Prelude.{◌≡◌};
ghost use Rattle.protocol.specs.Calls.{move as moved};
ghost use Rattle.committee.specs.Committees.{counted, lent, SameSetting, setting};
ghost use Rattle.committee.specs.Readiness.{ready};

use crate::committee::Committee;
use mail::message::Message;
use protocol::moves::{Move, Plan};
use protocol::refusal::Refusal;
use protocol::row::Row;
use quorum::rules::QuorumRule;
use quorum::validity::ValidityRule;
use steps::perform::perform;
use steps::plan::plan_move;
use steps::sending::message_of;

impl<Q: QuorumRule, V: ValidityRule> Committee<Q, V> {
    // Makes the first possible move of `process`. Answers the move, and the place of what it sent; 0 for a decision.
    #[tactic(auto, using(crate::proofs::Readied::unready, crate::proofs::Readied::within, crate::proofs::Readied::sendable))]
    pub fn make_move(
        &mut self,
        table: &mut [Row],
        post: &mut [Message],
        process: u8,
    ) -> Result<(Move, u16), Refusal>
        ensures answer { result ≡ (moved (setting Q.meaning V.valid self.old) (lent self.old.books table.old post.old) process).answer }
        ensures table { table.new ≡ (moved (setting Q.meaning V.valid self.old) (lent self.old.books table.old post.old) process).state.table }
        ensures post { post.new ≡ (moved (setting Q.meaning V.valid self.old) (lent self.old.books table.old post.old) process).state.post }
        ensures books { self.new.books ≡ counted self.old.books (moved (setting Q.meaning V.valid self.old) (lent self.old.books table.old post.old) process).state }
        ensures same { SameSetting self.old self.new }
    {
        let (plan, message) = self.next_move(table, post, process)?;
        perform(plan, &self.reading(post), &mut table[process as usize]);
        let Some(message) = message else {
            return Ok((plan.which(), 0));
        };
        Ok((plan.which(), self.books.append(post, message)))
    }

    // The move that `process` makes next and the message that it sends, or why it makes none.
    #[tactic(auto, unfolding(crate::specs::Readiness::ready))]
    fn next_move(
        &self,
        table: &[Row],
        post: &[Message],
        process: u8,
    ) -> Result<(Plan, Option<Message>), Refusal>
        ensures { result ≡ ready (setting Q.meaning V.valid self.now) (lent self.now.books table.now post.now) process }
    {
        self.check_lent(table, post)?;
        self.check_run(process)?;
        let row = &table[process as usize];
        let plan = plan_move(&self.rule, &self.reading(post), process, row).ok_or(Refusal::NoMove)?;
        let message = message_of(plan, process, row);
        if message.is_some() {
            self.check_room(post)?;
        }
        Ok((plan, message))
    }
}
