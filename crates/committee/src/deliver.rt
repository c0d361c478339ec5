// Delivery of a posted message to a process.
ghost use Rattle.std.specs.Prelude.{◌≡◌};
ghost use Rattle.quorum.specs.Firsts.{answered, kept};
ghost use Rattle.mail.specs.Messages.{posted};
ghost use Rattle.protocol.specs.Calls.{deliver, taken};
ghost use Rattle.steps.specs.Giving.{giving_fault, ruled};
ghost use Rattle.committee.specs.Committees.{lent, setting};

use crate::committee::Committee;
use mail::message::Message;
use protocol::refusal::Refusal;
use protocol::row::Row;
use quorum::rules::QuorumRule;
use quorum::validity::ValidityRule;
use steps::take::give;

impl<Q: QuorumRule, V: ValidityRule> Committee<Q, V> {
    // Gives the message at `place` to `process`.
    #[tactic(auto, unfolding(protocol::specs::Calls::deliver))]
    pub fn deliver(
        &self,
        table: &mut [Row],
        post: &[Message],
        process: u8,
        place: u16,
    ) -> Result<(), Refusal>
        ensures answer { result ≡ (deliver (setting Q.meaning V.valid self.now) (lent self.now.books table.old post.now) process place).answer }
        ensures table { table.new ≡ (deliver (setting Q.meaning V.valid self.now) (lent self.now.books table.old post.now) process place).state.table }
    {
        self.check_lent(table, post)?;
        self.check_run(process)?;
        self.give_to(post, process, &mut table[process as usize], place)
    }

    // Gives the message to `process`, whose row this is.
    fn give_to(
        &self,
        post: &[Message],
        process: u8,
        row: &mut Row,
        place: u16,
    ) -> Result<(), Refusal>
        ensures answer { result ≡ answered (giving_fault (ruled (Q.meaning self.now.rule) (V.valid self.now.validity)) (posted (Q.meaning self.now.rule).size post.now self.now.books.count) process row.old place) tt }
        ensures after { row.new ≡ kept (giving_fault (ruled (Q.meaning self.now.rule) (V.valid self.now.validity)) (posted (Q.meaning self.now.rule).size post.now self.now.books.count) process row.old place) row.old (taken (posted (Q.meaning self.now.rule).size post.now self.now.books.count) row.old place) }
    {
        let reading = self.reading(post);
        give(&self.rule, &self.validity, &reading, process, row, place)
    }
}
