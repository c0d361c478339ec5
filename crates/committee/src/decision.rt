// The decision of a process.
ghost use Rattle.std.specs.Prelude.{◌≡◌};
ghost use Rattle.protocol.specs.Calls.{decision};
ghost use Rattle.committee.specs.Committees.{lent, setting};

use crate::committee::Committee;
use mail::message::Message;
use protocol::refusal::Refusal;
use protocol::row::{Decision, Row};
use quorum::rules::QuorumRule;
use quorum::validity::ValidityRule;

impl<Q: QuorumRule, V: ValidityRule> Committee<Q, V> {
    // What `process` has decided, if anything.
    pub fn decision(
        &self,
        table: &[Row],
        post: &[Message],
        process: u8,
    ) -> Result<Option<Decision>, Refusal>
        ensures answer { result ≡ (decision (setting Q.meaning V.valid self.now) (lent self.now.books table.now post.now) process).answer }
    {
        self.check_lent(table, post)?;
        self.check_run(process)?;
        Ok(table[process as usize].decision)
    }
}
