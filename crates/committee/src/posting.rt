// Posting: a foreign process adds a message.
ghost use Rattle.std.specs.Prelude.{◌≡◌};
ghost use Rattle.quorum.specs.Firsts.{answered};
ghost use Rattle.protocol.specs.Calls.{post as posted_by};
ghost use Rattle.committee.specs.Reasons.{post_fault};
ghost use Rattle.committee.specs.Committees.{counted, lent, SameSetting, setting};

use crate::committee::Committee;
use mail::faults::check;
use mail::message::Message;
use protocol::call::Posting;
use protocol::refusal::Refusal;
use protocol::row::Row;
use quorum::rules::QuorumRule;
use quorum::validity::ValidityRule;

impl<Q: QuorumRule, V: ValidityRule> Committee<Q, V> {
    // Adds the message, with the foreign `process` as its sender. Answers the place.
    #[tactic(auto, unfolding(protocol::specs::Calls::post))]
    pub fn post(
        &mut self,
        table: &[Row],
        post: &mut [Message],
        process: u8,
        posting: &Posting,
    ) -> Result<u16, Refusal>
        ensures answer { result ≡ (posted_by (setting Q.meaning V.valid self.old) (lent self.old.books table.now post.old) process posting.now).answer }
        ensures post { post.new ≡ (posted_by (setting Q.meaning V.valid self.old) (lent self.old.books table.now post.old) process posting.now).state.post }
        ensures books { self.new.books ≡ counted self.old.books (posted_by (setting Q.meaning V.valid self.old) (lent self.old.books table.now post.old) process posting.now).state }
        ensures same { SameSetting self.old self.new }
    {
        self.check_posting(table, post, process, posting)?;
        Ok(self.books.append(post, posting.from(process)))
    }

    fn check_posting(
        &self,
        table: &[Row],
        post: &[Message],
        process: u8,
        posting: &Posting,
    ) -> Result<(), Refusal>
        ensures { result ≡ answered (post_fault (setting Q.meaning V.valid self.now) (lent self.now.books table.now post.now) process posting.now) tt }
    {
        self.check_lent(table, post)?;
        self.check_foreign(process)?;
        check(
            posting
                .from(process)
                .is_well_formed(self.rule.size(), self.books.count),
            Refusal::NotWellFormed,
        )?;
        self.check_room(post)
    }
}
