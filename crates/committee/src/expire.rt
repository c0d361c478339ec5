// Expiry: a process wishes a later view.
ghost use Rattle.std.specs.Prelude.{◌≡◌};
ghost use Rattle.quorum.specs.Firsts.{answered};
ghost use Rattle.protocol.specs.Calls.{expire};
ghost use Rattle.committee.specs.Reasons.{expire_fault};
ghost use Rattle.committee.specs.Committees.{counted, lent, SameSetting, setting};

use crate::committee::Committee;
use mail::faults::check;
use mail::message::Message;
use protocol::refusal::Refusal;
use protocol::row::Row;
use quorum::rules::QuorumRule;
use quorum::validity::ValidityRule;
use quorum::views::views;
use steps::sending::wish;

impl<Q: QuorumRule, V: ValidityRule> Committee<Q, V> {
    // Sends the wish of `process` for the view after its own, or for the hopeful view where that is higher. Answers the place.
    #[tactic(auto, unfolding(protocol::specs::Calls::expire))]
    pub fn expire(
        &mut self,
        table: &[Row],
        post: &mut [Message],
        process: u8,
    ) -> Result<u16, Refusal>
        ensures answer { result ≡ (expire (setting Q.meaning V.valid self.old) (lent self.old.books table.now post.old) process).answer }
        ensures post { post.new ≡ (expire (setting Q.meaning V.valid self.old) (lent self.old.books table.now post.old) process).state.post }
        ensures books { self.new.books ≡ counted self.old.books (expire (setting Q.meaning V.valid self.old) (lent self.old.books table.now post.old) process).state }
        ensures same { SameSetting self.old self.new }
    {
        self.check_expiry(table, post, process)?;
        let row = &table[process as usize];
        let (hopeful, _) = views(&self.rule, &row.wishes);
        let view = (row.ballot.view + 1).max(hopeful);
        Ok(self.books.append(post, wish(process, view)))
    }

    fn check_expiry(&self, table: &[Row], post: &[Message], process: u8) -> Result<(), Refusal>
        ensures { result ≡ answered (expire_fault (setting Q.meaning V.valid self.now) (lent self.now.books table.now post.now) process) tt }
    {
        self.check_lent(table, post)?;
        self.check_run(process)?;
        check(
            table[process as usize].ballot.view < u32::MAX,
            Refusal::LastView,
        )?;
        self.check_room(post)
    }
}
