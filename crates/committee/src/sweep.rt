// A sweep: every run process is given what was posted before, and then moves until it is refused.
ghost use Rattle.std.specs.Prelude.{◌≡◌, ◌+◌, ◌^◌, ◌<◌, length, if◌then◌else◌};
ghost use Rattle.protocol.specs.Sweeps.{given_all, is_full, settle, sweep, turn};
ghost use Rattle.committee.specs.Committees.{counted, lent, SameSetting, setting};
ghost use Rattle.committee.specs.Sweeping.{Countable, Grown, sweeping};

use crate::committee::Committee;
use mail::message::Message;
use protocol::call::Swept;
use protocol::refusal::Refusal;
use protocol::row::Row;
use quorum::rules::QuorumRule;
use quorum::validity::ValidityRule;

// More moves than a process can make without a delivery between them.
const MOST_MOVES: u32 = 12;

impl<Q: QuorumRule, V: ValidityRule> Committee<Q, V> {
    // Goes through the run processes upward. Answers how many deliveries were accepted, how many moves made, and how many processes met a full post.
    #[tactic(auto, unfolding(protocol::specs::Sweeps::sweep, protocol::specs::Sweeps::turns))]
    pub fn sweep(&mut self, table: &mut [Row], post: &mut [Message]) -> Result<Swept, Refusal>
        ensures answer { result ≡ (sweep (setting Q.meaning V.valid self.old) (lent self.old.books table.old post.old)).answer }
        ensures table { table.new ≡ (sweep (setting Q.meaning V.valid self.old) (lent self.old.books table.old post.old)).state.table }
        ensures post { post.new ≡ (sweep (setting Q.meaning V.valid self.old) (lent self.old.books table.old post.old)).state.post }
        ensures books { self.new.books ≡ counted self.old.books (sweep (setting Q.meaning V.valid self.old) (lent self.old.books table.old post.old)).state }
        ensures same { SameSetting self.old self.new }
    {
        self.check_lent(table, post)?;
        let posted = self.books.count;
        let mut swept = Swept::default();
        for process in 0..self.rule.size() {
            self.take_turn(table, post, process, posted, &mut swept);
        }
        Ok(swept)
    }

    // The turn of one process; a foreign one has none.
    fn take_turn(
        &mut self,
        table: &mut [Row],
        post: &mut [Message],
        process: u8,
        posted: u16,
        swept: &mut Swept,
    )
        requires within { process < length table.old }
        requires few { Countable swept.old posted 12 1 }
        ensures turn { sweeping (lent self.new.books table.new post.new) swept.new ≡ turn (setting Q.meaning V.valid self.old) posted (sweeping (lent self.old.books table.old post.old) swept.old) process }
        ensures few { Grown swept.old posted 12 1 swept.new }
        ensures same { SameSetting self.old self.new }
    {
        if !self.foreign.contains(process) {
            self.run_turn(table, post, process, posted, swept);
        }
    }

    // The turn of a run process: it is given what was posted, and then moves.
    fn run_turn(
        &mut self,
        table: &mut [Row],
        post: &mut [Message],
        process: u8,
        posted: u16,
        swept: &mut Swept,
    )
        requires within { process < length table.old }
        requires few { Countable swept.old posted 12 1 }
        ensures turn { sweeping (lent self.new.books table.new post.new) swept.new ≡ settle 12 (setting Q.meaning V.valid self.old) process (given_all (setting Q.meaning V.valid self.old) process (sweeping (lent self.old.books table.old post.old) swept.old) posted) }
        ensures few { Grown swept.old posted 12 1 swept.new }
        ensures same { SameSetting self.old self.new }
    {
        self.deliver_all(table, post, process, posted, swept);
        self.settle(table, post, process, swept);
    }

    // Moves until one is refused.
    fn settle(&mut self, table: &mut [Row], post: &mut [Message], process: u8, swept: &mut Swept)
        requires few { Countable swept.old 0 12 1 }
        ensures settled { sweeping (lent self.new.books table.new post.new) swept.new ≡ settle 12 (setting Q.meaning V.valid self.old) process (sweeping (lent self.old.books table.old post.old) swept.old) }
        ensures few { Grown swept.old 0 12 1 swept.new }
        ensures same { SameSetting self.old self.new }
    {
        for _ in 0..MOST_MOVES {
            match self.make_move(table, post, process) {
                Ok(_) => swept.moves += 1,
                Err(refusal) => {
                    count_stopped(swept, refusal);
                    return;
                }
            }
        }
    }
}

// One process more, where its last move was refused by a full post.
fn count_stopped(swept: &mut Swept, refusal: Refusal)
    requires { swept.old.stopped + 1 < 2 ^ 8 }
    ensures { swept.new ≡ record swept.old { stopped = swept.old.stopped + (if is_full refusal then 1 else 0) } }
{
    swept.stopped += u8::from(refusal.is_full_post());
}
