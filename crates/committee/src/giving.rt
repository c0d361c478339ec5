// The deliveries of a sweep to one process.
ghost use Rattle.std.specs.Prelude.{◌≡◌, ◌+◌, ◌-◌, ◌^◌, ◌<◌, ◌≤◌, length};
ghost use Rattle.protocol.specs.Sweeps.{given, given_all};
ghost use Rattle.committee.specs.Committees.{lent, setting};
ghost use Rattle.committee.specs.Sweeping.{Countable, due, Grown, sweeping};

use crate::committee::Committee;
use mail::kind::Kind;
use mail::message::Message;
use protocol::call::Swept;
use protocol::row::Row;
use quorum::rules::QuorumRule;
use quorum::validity::ValidityRule;

impl<Q: QuorumRule, V: ValidityRule> Committee<Q, V> {
    // Delivers the places up to `posted` to `process`, upward.
    #[tactic(auto, using(crate::proofs::Given::given_more), unfolding(protocol::specs::Sweeps::given_all))]
    pub(crate) fn deliver_all(
        &self,
        table: &mut [Row],
        post: &[Message],
        process: u8,
        posted: u16,
        swept: &mut Swept,
    )
        requires within { process < length table.old }
        requires few { Countable swept.old posted 0 0 }
        ensures given { sweeping (lent self.now.books table.new post.now) swept.new ≡ given_all (setting Q.meaning V.valid self.now) process (sweeping (lent self.now.books table.old post.now) swept.old) posted }
        ensures few { Grown swept.old posted 0 0 swept.new }
    {
        for place in 1..=posted {
            self.deliver_one(table, post, process, place, swept);
        }
    }

    // Delivers the message at one place. Late and early mail is passed over.
    fn deliver_one(
        &self,
        table: &mut [Row],
        post: &[Message],
        process: u8,
        place: u16,
        swept: &mut Swept,
    )
        requires within { process < length table.old }
        requires first { 1 ≤ place }
        requires few { Countable swept.old 1 0 0 }
        ensures given { sweeping (lent self.now.books table.new post.now) swept.new ≡ given (setting Q.meaning V.valid self.now) process place (sweeping (lent self.now.books table.old post.now) swept.old) }
        ensures few { Grown swept.old 1 0 0 swept.new }
    {
        let view = table[process as usize].ballot.view;
        if is_due(post, place, view) && self.deliver(table, post, process, place).is_ok() {
            count_accepted(swept);
        }
    }
}

// One delivery more.
fn count_accepted(swept: &mut Swept)
    requires { swept.old.accepted + 1 < 2 ^ 32 }
    ensures { swept.new ≡ record swept.old { accepted = swept.old.accepted + 1 } }
{
    swept.accepted += 1;
}

// Whether the place has a message that is a wish or of this view.
fn is_due(post: &[Message], place: u16, view: u32) -> bool
    requires { 1 ≤ place }
    ensures { result ≡ due post.now (place - 1) view }
{
    post.get(place as usize - 1).is_some_and(|message| message.kind == Kind::Wish.number()
        || message.view == view)
}
