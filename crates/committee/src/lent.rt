// The refusals that calls share.
ghost use Rattle.std.specs.Prelude.{◌≡◌, not, length, nat_lt};
ghost use Rattle.quorum.specs.Firsts.{answered, fault_if};
ghost use Rattle.protocol.specs.declared.refusal.Refusal.TheVariants.{PostFull};
ghost use Rattle.protocol.specs.Calls.{foreign_fault, lent_fault, run_fault};
ghost use Rattle.committee.specs.Committees.{lent, setting};

use crate::committee::Committee;
use mail::faults::check;
use mail::message::Message;
use mail::place::Reading;
use protocol::refusal::Refusal;
use protocol::row::Row;
use quorum::rules::QuorumRule;
use quorum::validity::ValidityRule;

impl<Q: QuorumRule, V: ValidityRule> Committee<Q, V> {
    // The post, as the committee's processes read it.
    pub(crate) fn reading<'a>(&self, post: &'a [Message]) -> Reading<'a>
        ensures post { result.post.now ≡ post.now }
        ensures count { result.count ≡ self.now.books.count }
        ensures size { result.size ≡ (Q.meaning self.now.rule).size }
    {
        Reading {
            post,
            count: self.books.count,
            size: self.rule.size(),
        }
    }

    // The table is long enough, and the post as long as at the opening.
    pub(crate) fn check_lent(&self, table: &[Row], post: &[Message]) -> Result<(), Refusal>
        ensures { result ≡ answered (lent_fault (setting Q.meaning V.valid self.now) (lent self.now.books table.now post.now)) tt }
    {
        check(
            table.len() >= self.rule.size() as usize,
            Refusal::ShortTable,
        )?;
        check(post.len() == self.books.span as usize, Refusal::PostLength)
    }

    // There is such a process, and it is run.
    pub(crate) fn check_run(&self, process: u8) -> Result<(), Refusal>
        ensures { result ≡ answered (run_fault (setting Q.meaning V.valid self.now) process) tt }
    {
        check(process < self.rule.size(), Refusal::NoProcess)?;
        check(!self.foreign.contains(process), Refusal::Foreign)
    }

    // There is such a process, and it is foreign. It has a refusal of its own, so a flag for both tests would be no plainer.
    pub(crate) fn check_foreign(&self, process: u8) -> Result<(), Refusal>
        ensures { result ≡ answered (foreign_fault (setting Q.meaning V.valid self.now) process) tt }
    {
        check(process < self.rule.size(), Refusal::NoProcess)?;
        check(self.foreign.contains(process), Refusal::Run)
    }

    // There is a place left.
    pub(crate) fn check_room(&self, post: &[Message]) -> Result<(), Refusal>
        ensures { result ≡ answered (fault_if (not (nat_lt self.now.books.count (length post.now))) PostFull) tt }
    {
        check((self.books.count as usize) < post.len(), Refusal::PostFull)
    }
}
